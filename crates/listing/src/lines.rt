// The lines of a listing.
ghost use Rattle.std.specs.Prelude.{Some, OnOk};
ghost use Rattle.std.specs.Io.KnownBytes.{Appends};
ghost use Rattle.listing.specs.Lines.{line_text, listing_text};

use crate::images::{ending, word_of};
use std::io::Write;
use std::{fmt, io};
use words::decode;

// A word at its address. Its text says the instruction, or the refusal.
#[derive(Clone, Copy)]
pub struct Line {
    pub address: usize,
    pub word: u32,
}

impl fmt::Display for Line {
    ghost output = { λ line. Some (line_text line) };

    fn fmt<W: fmt::Write>(&self, f: &mut fmt::Formatter<W>) -> fmt::Result {
        let Line { address, word } = *self;
        match decode(word) {
            Ok(instruction) => write!(f, "{address:04X} {word:06X} {instruction}"),
            Err(error) => write!(f, "{address:04X} {word:06X} {error}"),
        }
    }
}

// Writes a line for each word of the image, and the last line.
#[tactic(auto, using(crate::proofs::Lined::more, crate::proofs::Words::word_of_chunk))]
pub fn write_listing<W: Write>(out: &mut W, image: &[u8]) -> io::Result<()>
    ensures { OnOk result (Appends (W.contents out.old) (W.contents out.new) (listing_text image.now)) }
{
    let (whole, _) = image.as_chunks::<3>();
    for (address, bytes) in whole.iter().enumerate() {
        let line = Line {
            address,
            word: word_of(*bytes),
        };
        writeln!(out, "{line}")?;
    }
    match ending(image) {
        Ok(tally) => writeln!(out, "{tally}"),
        Err(error) => writeln!(out, "{error}"),
    }
}
