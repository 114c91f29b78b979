// Which records are the background and the interrupt routines.

#[derive(Clone, Copy)]
pub(crate) struct Roles {
    pub(crate) background: u16,
    // by level
    pub(crate) levels: [u16; 3],
}
