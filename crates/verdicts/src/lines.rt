// The rules on the words that are run, and the depth.
use crate::drafts::Change::*;
use crate::drafts::*;
use crate::opcodes::*;
use std::test::Fail;

#[test]
fn rule_8_words(rt: HostRuntime) -> Result<(), Fail> {
    check_all(
        &rt,
        &[
            ("reserved", &[Word(5, RESERVED)], "refused 8 at 5"),
            ("CALLS to an address", &[Word(4, CALLS_6)], "refused 8 at 4"),
            ("CALLS through ip", &[Word(4, CALLS_IP)], "refused 8 at 4"),
            ("CALL through ip", &[Word(4, CALL_IP)], "refused 8 at 4"),
            ("JUMP through ip", &[Word(5, JUMP_IP)], "refused 8 at 5"),
            ("JCC through ip", &[Word(4, JCC_IP)], "refused 8 at 4"),
            (
                "lowest address",
                &[Word(4, CALLS_IP), Word(2, RESERVED)],
                "refused 8 at 2",
            ),
            (
                "reserved, never run",
                &[Word(4, JUMP_4), Line(5, 0), Word(5, RESERVED)],
                "admitted 3",
            ),
        ],
    )
}

#[test]
fn rule_9_stack_use(rt: HostRuntime) -> Result<(), Fail> {
    check_all(
        &rt,
        &[
            ("POP at height 0", &[Word(6, POP)], "refused 9 at 6"),
            ("RET at height 1", &[Word(7, RET)], "refused 9 at 7"),
            ("RET in the background", &[Word(5, RET)], "refused 9 at 5"),
            ("RET in an interrupt", &[Word(1, RET)], "refused 9 at 1"),
            ("RETI in the background", &[Word(5, RETI)], "refused 9 at 5"),
            (
                "RETI in a quiet routine",
                &[Word(8, RETI)],
                "refused 9 at 8",
            ),
            (
                "RETI in an open routine",
                &[Table(6, 4), Word(8, RETI)],
                "refused 9 at 8",
            ),
            (
                "RETI at height 1",
                &[Table(19, 1), Line(5, 161), Word(5, RETI)],
                "refused 9 at 5",
            ),
            (
                "lowest address",
                &[Word(8, RETI), Word(5, RET)],
                "refused 9 at 5",
            ),
        ],
    )
}

#[test]
fn rule_10_next_addresses(rt: HostRuntime) -> Result<(), Fail> {
    check_all(
        &rt,
        &[
            ("n after NOP", &[Word(8, NOP)], "refused 10 at 8"),
            ("another owner", &[Word(5, NOP)], "refused 10 at 5"),
            ("never run", &[Word(4, NOP), Line(5, 0)], "refused 10 at 4"),
            ("a height more", &[Word(6, NOP)], "refused 10 at 6"),
            (
                "after PUSH the same height",
                &[Word(7, NOP), Line(7, 64)],
                "refused 10 at 6",
            ),
            (
                "after PUSH another owner",
                &[Line(7, 33)],
                "refused 10 at 6",
            ),
            (
                "after POP the same height",
                &[Line(8, 65), Word(8, JUMP_7)],
                "refused 10 at 7",
            ),
            (
                "after POP another owner",
                &[Line(8, 32), Word(8, JUMP_4)],
                "refused 10 at 7",
            ),
            (
                "after CALL another owner",
                &[Line(5, 64)],
                "refused 10 at 4",
            ),
            (
                "after HALT another owner",
                &[Word(5, HALT)],
                "refused 10 at 5",
            ),
            ("after HALT the same line", &[Word(4, HALT)], "admitted 3"),
            (
                "lowest address",
                &[Word(8, NOP), Word(5, NOP)],
                "refused 10 at 5",
            ),
        ],
    )
}

#[test]
fn rule_10_jumps(rt: HostRuntime) -> Result<(), Fail> {
    check_all(
        &rt,
        &[
            ("to n", &[Word(5, JUMP_9)], "refused 10 at 5"),
            ("to another owner", &[Word(5, JUMP_6)], "refused 10 at 5"),
            ("to another height", &[Word(8, JUMP_7)], "refused 10 at 8"),
            (
                "the next address is free",
                &[Word(4, JUMP_4), Line(5, 0)],
                "admitted 3",
            ),
        ],
    )
}

#[test]
fn rule_10_jumps_on_a_condition(rt: HostRuntime) -> Result<(), Fail> {
    for (jump_4, jump_6) in CONDITIONAL_JUMPS {
        check_all(
            &rt,
            &[
                ("next wrong", &[Word(5, jump_4)], "refused 10 at 5"),
                ("target wrong", &[Word(4, jump_6)], "refused 10 at 4"),
                ("both right", &[Word(4, jump_4)], "admitted 3"),
            ],
        )?;
    }
    Ok(())
}

#[test]
fn rule_11_targets(rt: HostRuntime) -> Result<(), Fail> {
    check_all(
        &rt,
        &[
            ("no entry", &[Word(4, CALL_7)], "refused 11 at 4"),
            (
                "no entry, and at height 0",
                &[Word(4, CALL_8)],
                "refused 11 at 4",
            ),
            (
                "lowest address",
                &[Word(6, CALL_6), Word(7, NOP), Line(7, 64), Word(4, CALL_7)],
                "refused 11 at 4",
            ),
            ("n", &[Word(4, CALL_9)], "refused 11 at 4"),
            ("an interrupt", &[Word(4, CALL_1)], "refused 11 at 4"),
            ("the background", &[Word(4, CALL_0)], "refused 11 at 4"),
            (
                "not chained",
                &[Table(4, 3), Line(6, 0), Line(7, 0), Line(8, 0)],
                "refused 11 at 4",
            ),
            ("open from the background", &[Table(6, 4)], "admitted 3"),
            // 1 CALL 6
            (
                "open from an interrupt",
                &[
                    LongLevel0,
                    Word(1, CALL_6),
                    Table(3, 0),
                    Table(11, 2),
                    Table(6, 4),
                ],
                "refused 11 at 1",
            ),
            (
                "quiet from an interrupt",
                &[LongLevel0, Word(1, CALL_6), Table(3, 0), Table(11, 2)],
                "admitted 3",
            ),
        ],
    )
}

// 6 CALL 8; 7 RET; 8 RET of record 6
#[test]
fn rule_11_routines_call_routines(rt: HostRuntime) -> Result<(), Fail> {
    check_all(
        &rt,
        &[
            (
                "quiet from quiet",
                &[
                    TableSize(25),
                    Table(20, 6),
                    Table(21, 8),
                    Table(22, 2),
                    Word(6, CALL_8),
                    Word(7, RET),
                    Line(7, 64),
                    Line(8, 192),
                ],
                "admitted 3",
            ),
            (
                "open from quiet",
                &[
                    TableSize(25),
                    Table(20, 6),
                    Table(21, 8),
                    Table(22, 4),
                    Word(6, CALL_8),
                    Word(7, RET),
                    Line(7, 64),
                    Line(8, 192),
                ],
                "refused 11 at 6",
            ),
            (
                "quiet from open",
                &[
                    TableSize(25),
                    Table(20, 6),
                    Table(21, 8),
                    Table(22, 2),
                    Word(6, CALL_8),
                    Word(7, RET),
                    Line(7, 64),
                    Line(8, 192),
                    Table(6, 4),
                ],
                "admitted 3",
            ),
            (
                "open from open",
                &[
                    TableSize(25),
                    Table(20, 6),
                    Table(21, 8),
                    Table(22, 4),
                    Word(6, CALL_8),
                    Word(7, RET),
                    Line(7, 64),
                    Line(8, 192),
                    Table(6, 4),
                ],
                "admitted 3",
            ),
        ],
    )
}

#[test]
fn rule_11_needs(rt: HostRuntime) -> Result<(), Fail> {
    check_all(
        &rt,
        &[
            (
                "the caller needs too little",
                &[Table(3, 1)],
                "refused 11 at 4",
            ),
            (
                "the target needs too much",
                &[Table(7, 2)],
                "refused 11 at 4",
            ),
            (
                "a routine calls itself",
                &[Word(6, CALL_6), Word(7, NOP), Line(7, 64)],
                "refused 11 at 6",
            ),
            // 4 PUSH; 5 CALL 8; 6 POP; 7 JUMP 4; 8 RET
            (
                "call at height 1",
                &[
                    Word(4, PUSH),
                    Word(5, CALL_8),
                    Word(6, POP),
                    Word(7, JUMP_4),
                    Line(5, 33),
                    Line(6, 33),
                    Line(7, 32),
                    Table(5, 8),
                    Table(7, 0),
                ],
                "admitted 3",
            ),
            (
                "the height counts",
                &[
                    Word(4, PUSH),
                    Word(5, CALL_8),
                    Word(6, POP),
                    Word(7, JUMP_4),
                    Line(5, 33),
                    Line(6, 33),
                    Line(7, 32),
                    Table(5, 8),
                    Table(7, 0),
                    Table(3, 1),
                ],
                "refused 11 at 5",
            ),
        ],
    )
}

// 6 is the word shown, 7 NOP, 8 RET
#[test]
fn rule_12_stat_in_routines(rt: HostRuntime) -> Result<(), Fail> {
    check_all(
        &rt,
        &[
            (
                "MOVE",
                &[Word(6, MOVE_TO_STAT), Word(7, NOP), Line(7, 64)],
                "refused 12 at 6",
            ),
            (
                "CMVD",
                &[Word(6, CMVD_TO_STAT), Word(7, NOP), Line(7, 64)],
                "refused 12 at 6",
            ),
            (
                "CMVS",
                &[Word(6, CMVS_TO_STAT), Word(7, NOP), Line(7, 64)],
                "refused 12 at 6",
            ),
            (
                "AND",
                &[Word(6, AND_TO_STAT), Word(7, NOP), Line(7, 64)],
                "refused 12 at 6",
            ),
            (
                "MUL",
                &[Word(6, MUL_TO_STAT), Word(7, NOP), Line(7, 64)],
                "refused 12 at 6",
            ),
            (
                "lowest address",
                &[Word(7, CMVD_TO_STAT), Line(7, 64), Word(6, MOVE_TO_STAT)],
                "refused 12 at 6",
            ),
            (
                "MOVE, open",
                &[
                    Table(6, 4),
                    Word(6, MOVE_TO_STAT),
                    Word(7, NOP),
                    Line(7, 64),
                ],
                "admitted 3",
            ),
            (
                "stat is a source",
                &[Word(6, MOVE_STAT_TO_MEMORY), Word(7, NOP), Line(7, 64)],
                "admitted 3",
            ),
        ],
    )
}

// 6 is the word shown, 7 NOP, 8 RET
#[test]
fn rule_12_stat_from_memory(rt: HostRuntime) -> Result<(), Fail> {
    check_all(
        &rt,
        &[
            (
                "page 0",
                &[Word(6, MOVE_FROM_PAGE_0), Word(7, NOP), Line(7, 64)],
                "refused 12 at 6",
            ),
            (
                "offset",
                &[Word(6, MOVE_FROM_OFFSET), Word(7, NOP), Line(7, 64)],
                "refused 12 at 6",
            ),
            (
                "increment",
                &[Word(6, MOVE_FROM_INCREMENT), Word(7, NOP), Line(7, 64)],
                "refused 12 at 6",
            ),
            (
                "decrement",
                &[Word(6, MOVE_FROM_DECREMENT), Word(7, NOP), Line(7, 64)],
                "refused 12 at 6",
            ),
            (
                "r3",
                &[Word(6, MOVE_FROM_R3), Word(7, NOP), Line(7, 64)],
                "refused 12 at 6",
            ),
        ],
    )
}

// 6 is the word shown, 7 NOP, 8 RET
#[test]
fn rule_12_no_destination(rt: HostRuntime) -> Result<(), Fail> {
    check_all(
        &rt,
        &[
            (
                "CMP",
                &[Word(6, CMP_STAT), Word(7, NOP), Line(7, 64)],
                "admitted 3",
            ),
            (
                "CMPA",
                &[Word(6, CMPA_STAT), Word(7, NOP), Line(7, 64)],
                "admitted 3",
            ),
            (
                "TSTB",
                &[Word(6, TSTB_STAT), Word(7, NOP), Line(7, 64)],
                "admitted 3",
            ),
            (
                "a comparison's third field",
                &[Word(6, CMP_STAT_THRICE), Word(7, NOP), Line(7, 64)],
                "admitted 3",
            ),
        ],
    )
}

#[test]
fn rule_12_stat_elsewhere(rt: HostRuntime) -> Result<(), Fail> {
    check_all(
        &rt,
        &[
            (
                "interrupt",
                &[LongLevel0, Word(1, MOVE_TO_STAT)],
                "refused 12 at 1",
            ),
            ("background", &[Word(4, MOVE_TO_STAT)], "admitted 3"),
            (
                "never run",
                &[Word(4, JUMP_4), Line(5, 0), Word(5, MOVE_TO_STAT)],
                "admitted 3",
            ),
        ],
    )
}

#[test]
fn rule_13_depth(rt: HostRuntime) -> Result<(), Fail> {
    check_all(
        &rt,
        &[
            ("one too small", &[Depth(2)], "refused 13 at 0"),
            ("level 0 needs more", &[Table(11, 1)], "refused 13 at 0"),
            ("level 1 needs more", &[Table(15, 1)], "refused 13 at 0"),
            ("level 2 needs more", &[Table(19, 1)], "refused 13 at 0"),
            (
                "the background needs more",
                &[Table(3, 3), Depth(4)],
                "admitted 4",
            ),
            (
                "the largest need counts",
                &[Table(11, 1), Table(15, 4), Table(19, 2), Depth(7)],
                "admitted 7",
            ),
            (
                "sixteen words",
                &[Table(3, 8), Table(11, 7), Depth(16)],
                "admitted 16",
            ),
            (
                "seventeen words",
                &[Table(3, 8), Table(11, 8), Depth(16)],
                "refused 13 at 0",
            ),
        ],
    )
}
