// Why a store cannot be made from what is given.
ghost use Rattle.std.specs.Prelude.{◌≡◌};
ghost use Rattle.platform.specs.Refusals.{store_number, store_place};

#[derive(Clone, Copy, PartialEq, Eq, Debug)]
pub enum StoreError {
    // not 1 to 8,192 words, or bytes that are no whole number of words
    Size,
    // a number of more than 22 bits, at this address
    WideWord(u16),
}

impl StoreError {
    // The number under which the refusal is logged.
    pub fn number(self) -> u16
        ensures { result ≡ store_number self }
    {
        match self {
            StoreError::Size => 29,
            StoreError::WideWord(_) => 30,
        }
    }

    // The place under which the refusal is logged.
    pub fn place(self) -> u16
        ensures { result ≡ store_place self }
    {
        match self {
            StoreError::Size => 0,
            StoreError::WideWord(address) => address,
        }
    }
}
