// The words that jobs are changed by, each under its notation.
pub(crate) const WIDE: u32 = 0x40_0000;

pub(crate) const NOP: u32 = 0x3F_FFFF;

pub(crate) const HALT: u32 = 0x0B_DFFF;

pub(crate) const PUSH: u32 = 0x2D_FFFF;

pub(crate) const POP: u32 = 0x3E_BFFF;

pub(crate) const RET: u32 = 0x3F_3FFF;

pub(crate) const RETI: u32 = 0x3F_1FFF;

pub(crate) const JUMP_0: u32 = 0x33_FFFF;

pub(crate) const JUMP_4: u32 = 0x33_FFFB;

pub(crate) const JUMP_6: u32 = 0x33_FFF9;

pub(crate) const JUMP_7: u32 = 0x33_FFF8;

pub(crate) const JUMP_9: u32 = 0x33_FFF6;

// JCC, JVC, JZC, JCS, JVS, JZS and JEV, to 4 and to 6
pub(crate) const CONDITIONAL_JUMPS: [(u32, u32); 7] = [
    (0x30_FFFB, 0x30_FFF9),
    (0x31_FFFB, 0x31_FFF9),
    (0x32_FFFB, 0x32_FFF9),
    (0x34_FFFB, 0x34_FFF9),
    (0x35_FFFB, 0x35_FFF9),
    (0x36_FFFB, 0x36_FFF9),
    (0x37_FFFB, 0x37_FFF9),
];

pub(crate) const CALL_0: u32 = 0x39_FFFF;

pub(crate) const CALL_1: u32 = 0x39_FFFE;

pub(crate) const CALL_6: u32 = 0x39_FFF9;

pub(crate) const CALL_7: u32 = 0x39_FFF8;

pub(crate) const CALL_8: u32 = 0x39_FFF7;

pub(crate) const CALL_9: u32 = 0x39_FFF6;

pub(crate) const CALLS_6: u32 = 0x3A_FFF9;

pub(crate) const CALLS_IP: u32 = 0x2A_FFFF;

pub(crate) const CALL_IP: u32 = 0x29_FFFF;

pub(crate) const JUMP_IP: u32 = 0x23_FFFF;

pub(crate) const JCC_IP: u32 = 0x20_FFFF;

// No instruction.
pub(crate) const RESERVED: u32 = 0x0B_EFFF;

// MOVE stat, #0x20
pub(crate) const MOVE_TO_STAT: u32 = 0x0E_AADF;

// MOVE stat, 0x00
pub(crate) const MOVE_FROM_PAGE_0: u32 = 0x04_AAFF;

// MOVE stat, (i0, 0x05)
pub(crate) const MOVE_FROM_OFFSET: u32 = 0x18_AA05;

// MOVE stat, (i0, 0x05)+
pub(crate) const MOVE_FROM_INCREMENT: u32 = 0x10_AA05;

// MOVE stat, -(i0, 0x05)
pub(crate) const MOVE_FROM_DECREMENT: u32 = 0x10_AAFB;

// MOVE stat, (i0, r3)
pub(crate) const MOVE_FROM_R3: u32 = 0x06_AAFC;

// CMVS stat, r0
pub(crate) const CMVS_TO_STAT: u32 = 0x0D_3FEA;

// CMVD stat, r0
pub(crate) const CMVD_TO_STAT: u32 = 0x0D_2FEA;

// AND stat, r1, r0
pub(crate) const AND_TO_STAT: u32 = 0x0C_2EDA;

// MUL stat, r1, r0
pub(crate) const MUL_TO_STAT: u32 = 0x0C_EEDA;

// CMP stat, #0x00
pub(crate) const CMP_STAT: u32 = 0x0E_1AFF;

// CMPA stat, #0x00
pub(crate) const CMPA_STAT: u32 = 0x0E_0AFF;

// TSTB stat, #0x20
pub(crate) const TSTB_STAT: u32 = 0x0E_FADF;

// CMP stat, r0, with stat in its third field too
pub(crate) const CMP_STAT_THRICE: u32 = 0x0C_1AEA;

// MOVE 0x00, stat
pub(crate) const MOVE_STAT_TO_MEMORY: u32 = 0x01_BAFF;
