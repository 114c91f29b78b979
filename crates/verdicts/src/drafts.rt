// A job before it is bytes, and what may be changed in it.
use crate::opcodes::*;
use job::{judge, nine_words, verdict_line};
use std::alloc::{AllocError, Global};
use std::process::Abort;
use std::test::Fail;

#[derive(Clone, Copy)]
pub(crate) enum Change {
    Depth(u16),
    // of a level
    Vector(usize, u16),
    // at an address
    Word(usize, u32),
    // the number at an index of the table
    Table(usize, u16),
    // at an address
    Line(usize, u16),
    // how many words and lines, new ones 0
    WordCount(u16),
    // how many numbers of the table, new ones 0
    TableSize(u16),
    // what the header says of either, and no more
    SaidWords(u16),
    SaidNumbers(u16),
    // so many bytes off the end
    Cut(usize),
    // so many bytes 0 at the end
    Append(usize),
    // 0 JUMP 0; 1 and 2 of level 0, 3 of level 1, 4 of level 2; 5 never run
    LongLevel0,
}

#[derive(Drop)]
struct Draft {
    said_words: u16,
    depth: u16,
    vectors: [u16; 3],
    said_numbers: u16,
    words: Vec<u32>,
    table: Vec<u16>,
    lines: Vec<u16>,
    cut: usize,
    appended: usize,
}

fn put<T: Drop>(numbers: &mut [T], index: usize, number: T) -> Result<(), Fail> {
    *numbers
        .get_mut(index)
        .ok_or_else(|| Fail::new("no such number to change"))? = number;
    Ok(())
}

fn write_numbers(bytes: &mut Vec<u8>, numbers: &[u16]) -> Result<(), AllocError> {
    for number in numbers {
        bytes.extend_from_slice(&number.to_be_bytes())?;
    }
    Ok(())
}

impl Draft {
    fn sample(heap: Global) -> Result<Draft, AllocError> {
        let example = nine_words();
        Ok(Draft {
            said_words: 9,
            depth: 3,
            vectors: [1, 2, 3],
            said_numbers: 21,
            words: example.words.to_vec(heap)?,
            table: example.table.to_vec(heap)?,
            lines: example.lines.to_vec(heap)?,
            cut: 0,
            appended: 0,
        })
    }

    fn lengthen_level_0(&mut self) -> Result<(), Fail> {
        self.vectors = [1, 3, 4];
        put(self.words.as_mut_slice(), 0, JUMP_0)?;
        put(self.words.as_mut_slice(), 4, RETI)?;
        put(self.table.as_mut_slice(), 13, 3)?;
        put(self.table.as_mut_slice(), 17, 4)?;
        put(self.lines.as_mut_slice(), 2, 96)?;
        put(self.lines.as_mut_slice(), 3, 128)?;
        put(self.lines.as_mut_slice(), 4, 160)?;
        put(self.lines.as_mut_slice(), 5, 0)
    }

    fn make(&mut self, change: Change) -> Result<(), Fail> {
        match change {
            Change::Depth(depth) => self.depth = depth,
            Change::Vector(level, address) => put(&mut self.vectors, level, address)?,
            Change::Word(address, word) => put(self.words.as_mut_slice(), address, word)?,
            Change::Table(index, number) => put(self.table.as_mut_slice(), index, number)?,
            Change::Line(address, line) => put(self.lines.as_mut_slice(), address, line)?,
            Change::WordCount(count) => {
                self.said_words = count;
                self.words.resize(usize::from(count), 0)?;
                self.lines.resize(usize::from(count), 0)?;
            }
            Change::TableSize(count) => {
                self.said_numbers = count;
                self.table.resize(usize::from(count), 0)?;
            }
            Change::SaidWords(count) => self.said_words = count,
            Change::SaidNumbers(count) => self.said_numbers = count,
            Change::Cut(count) => self.cut = count,
            Change::Append(count) => self.appended = count,
            Change::LongLevel0 => self.lengthen_level_0()?,
        }
        Ok(())
    }

    fn header(&self) -> [u16; 6] {
        let [level0, level1, level2] = self.vectors;
        [
            self.said_words,
            self.depth,
            level0,
            level1,
            level2,
            self.said_numbers,
        ]
    }

    fn bytes(&self, heap: Global) -> Result<Vec<u8>, AllocError> {
        let mut bytes = Vec::new(heap);
        write_numbers(&mut bytes, &self.header())?;
        for word in self.words.as_slice() {
            let [_, high, middle, low] = word.to_be_bytes();
            bytes.extend_from_slice(&[high, middle, low])?;
        }
        write_numbers(&mut bytes, self.table.as_slice())?;
        write_numbers(&mut bytes, self.lines.as_slice())?;
        bytes.truncate(bytes.len().saturating_sub(self.cut));
        bytes.resize(bytes.len().saturating_add(self.appended), 0)?;
        Ok(bytes)
    }
}

// A label, the changes of the sample, and the line that is said of it then.
pub(crate) type Case<'a> = (&'a str, &'a [Change], &'a str);

// Whether this line is said of the sample with these changes.
fn check_verdict(
    rt: &(impl Abort + AllocGlobal),
    (label, changes, expected): Case<'_>,
) -> Result<(), Fail> {
    let mut draft = Draft::sample(rt.alloc())?;
    for change in changes {
        draft.make(*change)?;
    }
    let job = draft.bytes(rt.alloc())?;
    let line = verdict_line(judge(job.as_slice()), rt.alloc())?;
    assert_eq!(rt; line.as_str().strip_suffix("\n"), Some(expected), "{label}");
    Ok(())
}

pub(crate) fn check_all(rt: &(impl Abort + AllocGlobal), cases: &[Case<'_>]) -> Result<(), Fail> {
    for case in cases {
        check_verdict(rt, *case)?;
    }
    Ok(())
}
