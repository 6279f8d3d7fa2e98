// A choice as words: of each edge its chosen values, bit t for clock t.
// Private to the crate: `choose` puts them together.
ghost use Rattle.std.specs.Prelude.{◌≡◌, ◌≤◌, ◌<◌, length};
ghost use Rattle.theory.specs.Move.{digit};
ghost use Rattle.choose.specs.inner.Chosen.{run_word, Rises, RunWords};

use graph::{EDGES, column};
use moves::put_bit;

// A choice by its number, of so many bits: the first value is the highest of them.
#[derive(Clone, Copy)]
pub struct Choice {
    pub number: u32,
    pub bits: u32,
    pub ghost few: { bits ≤ 24 },
}

impl Choice {
    // Value x.
    fn bit(self, x: u32) -> u32
        requires { x < self.bits }
        ensures { result ≡ digit self.bits self.number x }
    {
        (self.number >> (self.bits - 1 - x)) % 2
    }

    // The values from value `start` up to `end`, as a word: the first one lowest.
    fn word(self, start: u32, end: u32) -> u32
        requires { (start ≤ end) × (end ≤ self.bits) }
        ensures { result ≡ run_word self.number self.bits start end }
    {
        let mut word = 0;
        for t in 0..end - start {
            word = put_bit(word, t, self.bit(start + t));
        }
        word
    }

    // The words, by where the values of each edge begin and those of the last one end.
    pub fn words(self, base: &[u32]) -> [u32; EDGES]
        requires { (0 < length base.now) × (length base.now ≤ 1025) × Rises base.now self.bits }
        ensures { RunWords self.number self.bits base.now result }
    {
        column(base.len() - 1, 0, |e| self.word(base[e], base[e + 1]))
    }
}
