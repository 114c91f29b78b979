// Numbers of two bytes, high byte first.
ghost use Rattle.std.specs.Prelude.{◌≡◌, ◌+◌, ◌/◌, ◌<◌, ◌≤◌, length};
ghost use Rattle.job.specs.Jobs.{number_at, numbers};

use arrayvec::ArrayVec;

pub(crate) fn number_at(bytes: &[u8], index: usize) -> u16
    requires { index + 1 < length bytes.now }
    ensures { result ≡ number_at bytes.now index }
{
    u16::from_be_bytes([bytes[index], bytes[index + 1]])
}

pub(crate) fn numbers_of<const N: usize>(bytes: &[u8]) -> ArrayVec<u16, N>
    requires { length bytes.now / 2 ≤ N }
    ensures { result.items ≡ numbers bytes.now }
{
    let mut numbers = ArrayVec::new();
    for pair in bytes.as_chunks::<2>().0 {
        numbers.push(u16::from_be_bytes(*pair));
    }
    numbers
}
