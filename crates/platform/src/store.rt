// Where a program is fetched from, by what it means to whoever fetches.
ghost use Rattle.std.specs.Prelude.{◌≡◌, ℕ, ◌^◌, ◌<◌, ◌≤◌};

// A store is its words in order: 1 to 8,192 of them, each of 22 bits. Asking alters nothing.
pub trait Store {
    ghost count: { Self → ℕ };

    // the word at each address; from the count on, where nothing is fetched, it is 0
    ghost word: { Self → ℕ → ℕ };

    fn word_count(&self) -> u16
        ensures value { result ≡ count self.now }
        ensures some { 1 ≤ count self.now }
        ensures few { count self.now ≤ 8192 };

    fn fetch(&self, address: u16) -> u32
        ensures value { result ≡ word self.now address }
        ensures narrow { word self.now address < 2 ^ 22 }
        ensures outside { count self.now ≤ address → word self.now address ≡ 0 };
}
