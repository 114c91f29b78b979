// An instruction, where it stands.
use words::Instruction;

#[derive(Clone, Copy)]
pub(crate) struct Placed {
    pub(crate) instruction: Instruction,
    pub(crate) address: u16,
}
