// A store over numbers that are read as words.
ghost use Rattle.std.specs.Prelude.{◌≡◌, ◌<◌, ⊤, true, is_ok, IfSome};
ghost use Rattle.platform.specs.Stores.{first_wide, tested_by, used_by, Tests};

use crate::errors::StoreError;
use crate::numbers::{Numbers, count_fits};
use crate::store::Store;
use std::alloc::AllocError;

// One number to a word.
pub type WordStore<'a> = NumberStore<&'a [u32]>;

// Three bytes to a word, highest first.
pub type ByteStore<'a> = NumberStore<&'a [u8]>;

// Numbers that are known to be words.
pub struct NumberStore<N: Numbers> {
    numbers: N,
    ghost good: { is_ok (tested_by N.reading (N.given numbers)) ≡ true },
}

// By hand, since no derive copies the ghost field of a generic struct.
impl<N: Numbers> Clone for NumberStore<N> {
    ghost is_clone = { λ s t. t ≡ s };

    ghost is_infallible = { λ _. ⊤ };

    fn clone(&self) -> Result<Self, AllocError> {
        Ok(*self)
    }
}

impl<N: Numbers> Copy for NumberStore<N> {}

// The lowest address whose number has more than 22 bits.
fn first_wide<N: Numbers>(count: usize, numbers: N) -> Option<usize>
    ensures value { result ≡ first_wide (N.reading.number (N.given numbers)) count }
    ensures below { IfSome result (λ address. address < count) }
{
    (0..count).find(|&address| numbers.at(address) >= 0x40_0000)
}

impl<N: Numbers> NumberStore<N> {
    ghost use Rattle.platform.specs.Made.{numbers_of};

    // Whether the numbers can be a store.
    pub fn test(numbers: N) -> Result<(), StoreError>
        ensures value { result ≡ tested_by N.reading (N.given numbers) }
        ensures tests { Tests (N.Fits (N.given numbers)) (N.reading.count (N.given numbers)) (N.reading.number (N.given numbers)) result }
    {
        let count = numbers
            .count()
            .filter(|&count| count_fits(count))
            .ok_or(StoreError::Size)?;
        match first_wide(count, numbers) {
            Some(address) => Err(StoreError::WideWord(address as u16)),
            None => Ok(()),
        }
    }

    // The store of these numbers; from what `test` refuses, the one word 0.
    pub fn new(numbers: N) -> NumberStore<N>
        ensures { N.given (numbers_of result) ≡ used_by N.reading (N.given numbers) }
    {
        match NumberStore::test(numbers) {
            Ok(()) => NumberStore { numbers },
            Err(_) => NumberStore {
                numbers: N::blank(),
            },
        }
    }
}

impl<N: Numbers> Store for NumberStore<N> {
    ghost use Rattle.platform.specs.Made.{numbers_of};

    ghost count = { λ s. N.reading.count (N.given (numbers_of s)) };

    ghost word = { λ s. N.reading.number (N.given (numbers_of s)) };

    fn word_count(&self) -> u16 {
        self.numbers.count().unwrap() as u16
    }

    fn fetch(&self, address: u16) -> u32 {
        self.numbers.at(usize::from(address))
    }
}
