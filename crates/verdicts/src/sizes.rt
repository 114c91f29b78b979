// Jobs of a wrong length, words that are no store, and the first two rules.
use crate::drafts::Change::*;
use crate::drafts::*;
use crate::opcodes::*;
use std::test::Fail;

#[test]
fn refused_33_for_the_length(rt: HostRuntime) -> Result<(), Fail> {
    check_all(
        &rt,
        &[
            ("no bytes", &[Cut(99)], "refused 33 at 0"),
            ("eleven bytes", &[Cut(88)], "refused 33 at 0"),
            (
                "over 43,014 as counted",
                &[WordCount(8191), TableSize(1024)],
                "refused 33 at 0",
            ),
            (
                "33 before 29",
                &[WordCount(0), Append(1)],
                "refused 33 at 0",
            ),
            ("a byte too few", &[Cut(1)], "refused 33 at 0"),
            ("a byte too many", &[Append(1)], "refused 33 at 0"),
            ("n too large", &[SaidWords(10)], "refused 33 at 0"),
            ("count too large", &[SaidNumbers(22)], "refused 33 at 0"),
            // 2 x 32,768 bytes too many
            (
                "count right but for 16 bits",
                &[SaidNumbers(32_789)],
                "refused 33 at 0",
            ),
        ],
    )
}

#[test]
fn refused_29_for_the_size(rt: HostRuntime) -> Result<(), Fail> {
    check_all(
        &rt,
        &[
            ("no words", &[WordCount(0)], "refused 29 at 0"),
            ("8,193 words", &[WordCount(8193)], "refused 29 at 0"),
            (
                "8,193 words, the first wide",
                &[WordCount(8193), Word(0, WIDE)],
                "refused 29 at 0",
            ),
            ("8,192 words", &[WordCount(8192)], "admitted 3"),
        ],
    )
}

#[test]
fn refused_30_for_a_wide_word(rt: HostRuntime) -> Result<(), Fail> {
    check_all(
        &rt,
        &[
            ("at 0", &[Word(0, WIDE)], "refused 30 at 0"),
            ("at the last address", &[Word(8, WIDE)], "refused 30 at 8"),
            (
                "the lowest of two",
                &[Word(7, WIDE), Word(3, WIDE)],
                "refused 30 at 3",
            ),
            ("never run", &[Line(5, 0), Word(5, WIDE)], "refused 30 at 5"),
            // NOP is the largest word; rule 10 refuses it here
            ("not wide", &[Word(5, NOP)], "refused 10 at 5"),
        ],
    )
}

#[test]
fn rule_1_description(rt: HostRuntime) -> Result<(), Fail> {
    check_all(
        &rt,
        &[
            ("depth 0", &[Depth(0)], "refused 1 at 0"),
            ("depth 17", &[Depth(17)], "refused 1 at 0"),
            ("vector 0 is 0", &[Vector(0, 0)], "refused 1 at 0"),
            ("vector 1 is 0", &[Vector(1, 0)], "refused 1 at 0"),
            ("vector 2 is 0", &[Vector(2, 0)], "refused 1 at 0"),
            ("vectors 0 and 1 equal", &[Vector(1, 1)], "refused 1 at 0"),
            ("vectors 0 and 2 equal", &[Vector(2, 1)], "refused 1 at 0"),
            ("vectors 1 and 2 equal", &[Vector(2, 2)], "refused 1 at 0"),
            (
                "a vector at n",
                &[Vector(0, 9), Table(9, 9)],
                "refused 6 at 3",
            ),
        ],
    )
}

#[test]
fn rule_2_sizes(rt: HostRuntime) -> Result<(), Fail> {
    check_all(
        &rt,
        &[
            ("no number", &[TableSize(0)], "refused 2 at 0"),
            ("no record", &[TableSize(1)], "refused 2 at 0"),
            ("a number short", &[TableSize(20)], "refused 2 at 0"),
            ("a number long", &[TableSize(22)], "refused 2 at 0"),
            ("two numbers long", &[TableSize(23)], "refused 2 at 0"),
            ("256 records", &[TableSize(1025)], "refused 2 at 0"),
            // its next is 2
            ("one record", &[TableSize(5)], "refused 3 at 1"),
        ],
    )
}
