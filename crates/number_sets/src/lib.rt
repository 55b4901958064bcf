// Sets of 16-bit numbers: a bit for each of the 65,536, 64 to a word.
#![tactic(auto)]

ghost use Rattle.std.specs.Prelude.{◌≡◌, eqb, length, replicate};
ghost use Rattle.number_sets.specs.NumberSets.{in_set, marked, Blank, HasWords, Marks};

use std::marker::Model;

// The number of words of a set.
pub const SET_WORDS: usize = 1024;

// A set of 16-bit numbers. A contract sees its words.
#[derive(Clone, Copy, Debug, PartialEq, Eq)]
pub struct NumberSet {
    words: [u64; SET_WORDS],
}

impl Model for NumberSet {
    ghost use Rattle.std.specs.Prelude.{ℕ, List};

    ghost Value = { List ℕ };

    ghost view = { λ s. s.words };

    ghost inverse = { λ words. record { words = words } };
}

// The set that has these words.
impl From<[u64; SET_WORDS]> for NumberSet {
    ghost from_gives = { HasWords };

    fn from(words: [u64; SET_WORDS]) -> NumberSet {
        NumberSet { words }
    }
}

impl NumberSet {
    // A set that has no number: all its words are 0.
    pub fn new() -> NumberSet
        ensures words { result ≡ replicate 1024 0 }
        ensures blank { Blank result }
    {
        NumberSet {
            words: [0; SET_WORDS],
        }
    }

    // The words of the set.
    pub fn words(&self) -> &[u64; SET_WORDS]
        ensures words { result.now ≡ self.now }
        ensures size { length self.now ≡ 1024 }
    {
        &self.words
    }

    // Is the number in the set?
    pub fn contains(&self, number: u16) -> bool
        ensures { result ≡ in_set self.now number }
    {
        let word = self.words[(number / 64) as usize];
        (word >> (number % 64)) % 2 == 1
    }

    // Puts the number into the set, or takes it out if not `present`. A flag, and not two methods: a scan of a run of
    // points is the same for both, and passes it on.
    pub fn mark(&mut self, number: u16, present: bool)
        ensures set_after { self.new ≡ marked self.old number present }
        ensures marks { Marks self.old self.new (λ n. eqb n number) present }
        ensures size { length self.old ≡ 1024 }
    {
        let at = (number / 64) as usize;
        let word = self.words[at];
        let bit = 1u64 << (number % 64);
        self.words[at] = if present { word | bit } else { word & !bit };
    }
}
