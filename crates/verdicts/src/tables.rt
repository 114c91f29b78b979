// The rules on the records and on what the lines say of them.
use crate::drafts::Change::*;
use crate::drafts::*;
use std::test::Fail;

#[test]
fn rule_3_chain(rt: HostRuntime) -> Result<(), Fail> {
    check_all(
        &rt,
        &[
            ("first index 0", &[Table(0, 0)], "refused 3 at 0"),
            ("first index above R", &[Table(0, 6)], "refused 3 at 0"),
            ("next its own index", &[Table(20, 5)], "refused 3 at 5"),
            (
                "next below its own index",
                &[Table(20, 3)],
                "refused 3 at 5",
            ),
            ("next above R", &[Table(4, 6)], "refused 3 at 1"),
            (
                "behind a broken link",
                &[Table(4, 6), Table(8, 1)],
                "refused 3 at 1",
            ),
            // record 2 is passed over; its next is not judged
            ("not chained", &[Table(4, 3), Table(8, 2)], "refused 7 at 6"),
        ],
    )
}

#[test]
fn rule_4_kinds(rt: HostRuntime) -> Result<(), Fail> {
    check_all(
        &rt,
        &[
            ("kind 0", &[Table(2, 0)], "refused 4 at 1"),
            ("kind 5", &[Table(18, 5)], "refused 4 at 5"),
            ("need 17", &[Table(7, 17)], "refused 4 at 2"),
            (
                "need before kind",
                &[Table(10, 0), Table(7, 17)],
                "refused 4 at 2",
            ),
            // the background needs too little for it
            ("need 16", &[Table(7, 16)], "refused 11 at 4"),
        ],
    )
}

#[test]
fn rule_5_entries(rt: HostRuntime) -> Result<(), Fail> {
    check_all(
        &rt,
        &[
            ("no background", &[Table(2, 4)], "refused 5 at 0"),
            (
                "two backgrounds",
                &[Table(5, 0), Table(6, 1)],
                "refused 5 at 0",
            ),
            (
                "two backgrounds, one not at 0",
                &[Table(6, 1)],
                "refused 5 at 0",
            ),
            ("background not at 0", &[Table(1, 4)], "refused 5 at 0"),
            ("two interrupts", &[Table(18, 2)], "refused 5 at 0"),
            ("four interrupts", &[Table(6, 3)], "refused 5 at 0"),
            (
                "four interrupts, all at vectors",
                &[Table(5, 1), Table(6, 3)],
                "refused 5 at 0",
            ),
            ("an entry is no vector", &[Table(9, 4)], "refused 5 at 0"),
            ("vector 1 twice", &[Table(9, 2)], "refused 5 at 0"),
        ],
    )
}

#[test]
fn rule_6_entry_lines(rt: HostRuntime) -> Result<(), Fail> {
    check_all(
        &rt,
        &[
            ("entry at n", &[Table(5, 9)], "refused 6 at 2"),
            ("line 0", &[Line(6, 0)], "refused 6 at 2"),
            ("line with a height", &[Line(6, 65)], "refused 6 at 2"),
            ("line of another owner", &[Line(3, 32)], "refused 6 at 5"),
            (
                "lowest record, not address",
                &[Line(1, 0), Line(6, 0)],
                "refused 6 at 2",
            ),
        ],
    )
}

#[test]
fn rule_7_owners(rt: HostRuntime) -> Result<(), Fail> {
    check_all(
        &rt,
        &[
            ("owner 0, height 1", &[Line(5, 1)], "refused 7 at 5"),
            ("owner above R", &[Line(5, 192)], "refused 7 at 5"),
            ("owner not chained", &[Table(4, 3)], "refused 7 at 6"),
            ("owner 257, low byte 1", &[Line(5, 8224)], "refused 7 at 5"),
            (
                "owner 255 not chained",
                &[WordCount(8192), TableSize(1021), Line(8191, 8160)],
                "refused 7 at 8191",
            ),
            ("height above need", &[Line(7, 66)], "refused 7 at 7"),
            (
                "lowest address",
                &[Line(7, 66), Line(5, 1)],
                "refused 7 at 5",
            ),
            // the background may have height 2, but not after the CALL
            ("height at need", &[Line(5, 34)], "refused 10 at 4"),
        ],
    )
}
