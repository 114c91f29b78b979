// Lists the program image on standard input.
#![tactic(auto)]

use listing::write_listing;
use std::io::{BufWriter, Read, Write};

fn run(rt: &HostRuntime) -> anyhow::Result<()> {
    let mut image = Vec::new(rt.alloc());
    rt.stdin().read_to_end(&mut image)?;
    let mut out = BufWriter::new(rt.alloc(), rt.stdout())?;
    write_listing(&mut out, image.as_slice())?;
    out.flush()?;
    Ok(())
}

fn main(rt: HostRuntime) -> anyhow::Result<()> {
    run(&rt)
}
