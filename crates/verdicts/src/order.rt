// A lower rule wins, wherever it breaks.
use crate::drafts::Change::*;
use crate::drafts::*;
use crate::opcodes::*;
use std::test::Fail;

#[test]
fn what_is_not_of_lines_comes_in_order(rt: HostRuntime) -> Result<(), Fail> {
    check_all(
        &rt,
        &[
            (
                "30 at 8 before 1",
                &[Depth(0), Word(8, WIDE)],
                "refused 30 at 8",
            ),
            ("1 before 2", &[Depth(0), TableSize(22)], "refused 1 at 0"),
            (
                "2 before 3",
                &[Table(0, 0), TableSize(20)],
                "refused 2 at 0",
            ),
            (
                "3 at 5 before 4 at 1",
                &[Table(2, 0), Table(20, 5)],
                "refused 3 at 5",
            ),
            (
                "4 at 5 before 5",
                &[Table(1, 4), Table(19, 17)],
                "refused 4 at 5",
            ),
            (
                "5 before 6 at 1",
                &[Line(0, 0), Table(18, 2)],
                "refused 5 at 0",
            ),
            (
                "6 at 5 before 7 at 4",
                &[Line(4, 1), Line(3, 0)],
                "refused 6 at 5",
            ),
            (
                "7 at 7 before 8 at 0",
                &[Word(0, CALLS_IP), Line(7, 66)],
                "refused 7 at 7",
            ),
        ],
    )
}

#[test]
fn what_is_of_lines_comes_in_order(rt: HostRuntime) -> Result<(), Fail> {
    check_all(
        &rt,
        &[
            (
                "8 at 8 before 9 at 1",
                &[Word(1, RET), Word(8, RESERVED)],
                "refused 8 at 8",
            ),
            (
                "9 at 8 before 10 at 0",
                &[Word(0, NOP), Word(8, RETI)],
                "refused 9 at 8",
            ),
            (
                "10 at 8 before 11 at 4",
                &[Word(4, CALL_7), Word(8, NOP)],
                "refused 10 at 8",
            ),
            (
                "11 at 7 before 12 at 6",
                &[Word(6, MOVE_TO_STAT), Word(7, CALL_7), Line(7, 64)],
                "refused 11 at 7",
            ),
            (
                "12 at 6 before 13",
                &[Depth(2), Word(6, MOVE_TO_STAT), Word(7, NOP), Line(7, 64)],
                "refused 12 at 6",
            ),
            ("10 before 11 at 8", &[Word(8, CALL_9)], "refused 10 at 8"),
        ],
    )
}
