// Two stores of any make, joined end to end.
ghost use Rattle.std.specs.Prelude.{◌≡◌, ◌+◌};
ghost use Rattle.platform.specs.Made.{first_of, second_of};
ghost use Rattle.platform.specs.Stores.{join_tested, joined_count, joined_word, TestsJoin};

use crate::errors::StoreError;
use crate::numbers::count_fits;
use crate::store::Store;

#[derive(Drop)]
pub struct JoinedStore<A, B> {
    first: A,
    second: B,
}

// How many words two stores have together.
fn count_of_both<A: Store, B: Store>(first: &A, second: &B) -> usize
    ensures { result ≡ A.Store.count first.now + B.Store.count second.now }
{
    usize::from(first.word_count()) + usize::from(second.word_count())
}

impl<A: Store, B: Store> JoinedStore<A, B> {
    // Whether the two can be one store.
    pub fn test(first: &A, second: &B) -> Result<(), StoreError>
        ensures value { result ≡ join_tested (A.Store.count first.now) (B.Store.count second.now) }
        ensures tests { TestsJoin (A.Store.count first.now + B.Store.count second.now) result }
    {
        if count_fits(count_of_both(first, second)) {
            Ok(())
        } else {
            Err(StoreError::Size)
        }
    }

    // The first store's words and then the second's; from what `test` refuses, the one word 0.
    pub fn new(first: A, second: B) -> JoinedStore<A, B>
        ensures first { first_of result ≡ first }
        ensures second { second_of result ≡ second }
    {
        JoinedStore { first, second }
    }
}

impl<A: Store, B: Store> Store for JoinedStore<A, B> {
    ghost count = { λ s. joined_count (A.Store.count (first_of s)) (B.Store.count (second_of s)) };

    ghost word = { λ s. joined_word (A.Store.count (first_of s)) (A.Store.word (first_of s)) (B.Store.count (second_of s)) (B.Store.word (second_of s)) };

    fn word_count(&self) -> u16 {
        let count = count_of_both(&self.first, &self.second);
        if count_fits(count) { count as u16 } else { 1 }
    }

    fn fetch(&self, address: u16) -> u32 {
        let border = self.first.word_count();
        if !count_fits(count_of_both(&self.first, &self.second)) {
            0
        } else if address < border {
            self.first.fetch(address)
        } else {
            self.second.fetch(address - border)
        }
    }
}
