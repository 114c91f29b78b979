// Numbers that a store may be made from, before it is known that they are words.
ghost use Rattle.std.specs.Prelude.{◌≡◌, ℕ, List, length};
ghost use Rattle.platform.specs.Stores.{count_fits, listed, big_endian, formed, Reading, IsReading, count_read, one_to_a_word, three_to_a_word, InRange, InRangeOf3};
ghost use Rattle.platform.specs.Readings.{reads_words, reads_bytes};

// A list of numbers, and how it is read as words.
pub trait Numbers: Copy {
    ghost reading: { Reading };

    // which lists are as many words as a store has
    ghost Fits: { List ℕ → Type 0 };

    // the numbers as a list
    ghost given: { Self → List ℕ };

    // How many words there are; none where a part of a word is left over.
    fn count(&self) -> Option<usize>
        ensures { result ≡ count_read reading (given self.now) };

    // The number at an address, and 0 where there is none.
    fn at(&self, address: usize) -> u32
        ensures { result ≡ reading.number (given self.now) address };

    // The one word 0.
    fn blank() -> Self
        ensures { given result ≡ reading.blank };

    ghost is_reading: { IsReading reading Fits };
}

// One to a word.
impl Numbers for &[u32] {
    ghost reading = { one_to_a_word };

    ghost Fits = { λ words. InRange (length words) };

    ghost given = { λ words. words.now };

    fn count(&self) -> Option<usize> {
        Some(self.len())
    }

    fn at(&self, address: usize) -> u32 {
        self.get(address).copied().unwrap_or(0)
    }

    fn blank() -> Self {
        &[0]
    }

    ghost is_reading = { reads_words };
}

// Three bytes to a word.
impl Numbers for &[u8] {
    ghost reading = { three_to_a_word };

    ghost Fits = { InRangeOf3 };

    ghost given = { λ bytes. bytes.now };

    fn count(&self) -> Option<usize> {
        let (words, rest) = self.as_chunks::<3>();
        rest.is_empty().then_some(words.len())
    }

    fn at(&self, address: usize) -> u32 {
        match self.get(address.saturating_mul(3)..) {
            Some([high, middle, low, ..]) => u32::from_be_bytes([0, *high, *middle, *low]),
            _ => 0,
        }
    }

    fn blank() -> Self {
        &[0, 0, 0]
    }

    ghost is_reading = { reads_bytes };
}

pub(crate) fn count_fits(count: usize) -> bool
    ensures { result ≡ count_fits count }
{
    (1..=8192).contains(&count)
}
