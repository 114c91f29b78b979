// A program image: bytes, three to a word, highest byte first.
ghost use Rattle.std.specs.Prelude.{◌≡◌, ◌/◌, ◌^◌, ◌<◌, ◌↔◌, length, Some};
ghost use Rattle.listing.specs.Images.{word_at, refused_below, ending_of, Uneven};
ghost use Rattle.listing.specs.Refusals.{ending_refusal};

use crate::errors::ImageError;
use crate::tallies::Tally;
use words::decode;

pub fn word_count(image: &[u8]) -> usize
    ensures { result ≡ length image.now / 3 }
{
    image.len() / 3
}

pub(crate) fn word_of(bytes: [u8; 3]) -> u32
    ensures value { result ≡ word_at bytes 0 }
    ensures upper_bound { result < 2 ^ 24 }
{
    let [high, middle, low] = bytes;
    u32::from_be_bytes([0, high, middle, low])
}

// How many words of the image are no instructions.
#[tactic(auto, using(crate::proofs::Counting::counted))]
pub fn refused_words(image: &[u8]) -> usize
    ensures { result ≡ refused_below image.now (length image.now / 3) }
{
    let (whole, _) = image.as_chunks::<3>();
    whole
        .iter()
        .filter(|bytes| decode(word_of(**bytes)).is_err())
        .count()
}

#[tactic(auto, using(crate::proofs::Uneven::even))]
pub fn ending(image: &[u8]) -> Result<Tally, ImageError>
    ensures value { result ≡ ending_of image.now }
    ensures uneven { (ending_refusal result ≡ Some (29, 0)) ↔ Uneven image.now }
{
    if image.len() % 3 != 0 {
        return Err(ImageError::LeftOver);
    }
    Ok(Tally {
        words: word_count(image),
        refused: refused_words(image),
    })
}
