// Judges the job on standard input, and writes one line.
#![tactic(auto)]

use job::{LONGEST, judge, verdict_line};
use std::io::{Read, Write};

fn run(rt: &HostRuntime) -> anyhow::Result<()> {
    let heap = rt.alloc();
    let mut job = Vec::new(heap);
    // one byte more tells a job that is too long
    rt.stdin().take(LONGEST as u64 + 1).read_to_end(&mut job)?;
    let line = verdict_line(judge(job.as_slice()), heap)?;
    let mut out = rt.stdout();
    out.write_all(line.as_bytes())?;
    out.flush()?;
    Ok(())
}

fn main(rt: HostRuntime) -> anyhow::Result<()> {
    run(&rt)
}
