//! How terms were fired.

ghost use Rattle.std.specs.Prelude.{◌≡◌, ◌<◌, ◌-◌, ◌^◌, suc};

/// How many terms were made as trees to be known, and how many were fired as a whole. A term that is known by its bytes
/// and told by its parts is none of either. The counts go up to the greatest number of 64 bits.
#[derive(Drop)]
pub struct Tally {
    pub(crate) trees: u64,
    pub(crate) whole: u64,
}

impl Tally {
    /// That of no term.
    pub fn new() -> Tally
        ensures { (result.trees ≡ 0) × (result.whole ≡ 0) }
    {
        Tally { trees: 0, whole: 0 }
    }

    /// How many terms were made as trees, since their bytes were no row of known parts.
    pub fn trees(&self) -> u64
        ensures { result ≡ self.now.trees }
    {
        self.trees
    }

    /// How many terms were fired as a whole, since their parts do not tell them.
    pub fn whole(&self) -> u64
        ensures { result ≡ self.now.whole }
    {
        self.whole
    }

    /// One more that was made as a tree.
    pub fn add_tree(&mut self)
        ensures trees { self.old.trees < 2 ^ 64 - 1 → self.new.trees ≡ suc self.old.trees }
        ensures whole { self.new.whole ≡ self.old.whole }
    {
        self.trees = self.trees.saturating_add(1);
    }

    /// One more that was fired as a whole.
    pub fn add_whole(&mut self)
        ensures whole { self.old.whole < 2 ^ 64 - 1 → self.new.whole ≡ suc self.old.whole }
        ensures trees { self.new.trees ≡ self.old.trees }
    {
        self.whole = self.whole.saturating_add(1);
    }
}
