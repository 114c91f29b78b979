// Where in data memory an instruction reads or writes.
use crate::registers::IndexRegister;

#[derive(Clone, Copy, PartialEq, Eq, Debug)]
pub enum MemoryAddress {
    // a byte of page 0
    Direct(u8),
    // the index and an offset
    Offset(IndexRegister, u8),
    // the index and the offset that r3 holds
    OffsetR3(IndexRegister),
    // the index, to which 0 to 127 is added after the access
    PostIncrement(IndexRegister, u8),
    // the index, from which 1 to 128 is subtracted before the access
    PreDecrement(IndexRegister, u8),
}
