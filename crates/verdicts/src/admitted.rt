// Programs that keep all rules.
use crate::drafts::Change::*;
use crate::drafts::*;
use crate::opcodes::*;
use std::test::Fail;

#[test]
fn the_sample_and_its_like_are_admitted(rt: HostRuntime) -> Result<(), Fail> {
    check_all(
        &rt,
        &[
            ("the sample", &[], "admitted 3"),
            ("depth at its top", &[Depth(16)], "admitted 3"),
            (
                "interrupts in another order",
                &[Table(9, 3), Table(17, 1), Line(3, 96), Line(1, 160)],
                "admitted 3",
            ),
            ("255 records", &[TableSize(1021)], "admitted 3"),
            (
                "the largest job",
                &[WordCount(8192), TableSize(1021)],
                "admitted 3",
            ),
        ],
    )
}

#[test]
fn other_programs_are_admitted(rt: HostRuntime) -> Result<(), Fail> {
    check_all(
        &rt,
        &[
            // 0 JUMP 0; 1, 2 and 3 RETI; the background, then the three interrupt routines
            (
                "the smallest program",
                &[
                    WordCount(4),
                    TableSize(17),
                    Depth(1),
                    Word(0, JUMP_0),
                    Table(3, 0),
                    Table(5, 1),
                    Table(6, 3),
                    Table(7, 0),
                    Table(9, 2),
                    Table(13, 3),
                    Table(16, 0),
                    Line(1, 64),
                    Line(2, 96),
                    Line(3, 128),
                ],
                "admitted 1",
            ),
            (
                "the background is record 2",
                &[
                    Table(1, 6),
                    Table(2, 2),
                    Table(3, 1),
                    Table(5, 0),
                    Table(6, 1),
                    Table(7, 2),
                    Line(0, 64),
                    Line(4, 64),
                    Line(5, 64),
                    Line(6, 32),
                    Line(7, 33),
                    Line(8, 32),
                ],
                "admitted 3",
            ),
            // record 255 is the quiet routine at 8191
            (
                "the last record at the last address",
                &[
                    WordCount(8192),
                    TableSize(1021),
                    Table(20, 255),
                    Table(1017, 8191),
                    Table(1018, 2),
                    Line(8191, 8160),
                    Word(8191, RET),
                ],
                "admitted 3",
            ),
            // what the chain passes over is not looked at
            (
                "a record that is not chained",
                &[
                    Table(4, 3),
                    Table(5, 9),
                    Table(6, 0),
                    Table(7, 17),
                    Table(8, 2),
                    Line(6, 0),
                    Line(7, 0),
                    Line(8, 0),
                    Word(4, NOP),
                ],
                "admitted 3",
            ),
            (
                "a sixth record that is not chained",
                &[
                    TableSize(25),
                    Table(21, 1),
                    Table(22, 3),
                    Table(23, 16),
                    Table(24, 1),
                ],
                "admitted 3",
            ),
        ],
    )
}
