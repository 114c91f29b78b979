// What tells one core of the family from another.
ghost use Rattle.std.specs.Prelude.{◌≡◌, Decides};
ghost use Rattle.platform.specs.Description.{in_limits, InLimits};

#[derive(Clone, Copy, Debug)]
pub struct CoreDescription {
    // how many words the stack holds
    pub depth: u16,
    // where the routine of each interrupt level is entered, level 0 first
    pub vectors: [u16; 3],
}

impl CoreDescription {
    // A depth of 1 to 16 words, and three vectors that differ and are not 0.
    pub fn is_in_limits(self) -> bool
        ensures value { result ≡ in_limits self }
        ensures decides { Decides result (InLimits self) }
    {
        let [level0, level1, level2] = self.vectors;
        let deep = (1..=16).contains(&self.depth);
        let set = !self.vectors.contains(&0);
        let apart = level0 != level1 && level0 != level2 && level1 != level2;
        deep && set && apart
    }
}
