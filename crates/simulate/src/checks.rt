// Rule 13, and how many inputs and outputs there are.
// Private to the crate: `run` and `step` come here with a netlist that passed the rules, which has an input.
ghost use Rattle.std.specs.Prelude.{◌≡◌, ◌∷◌, [], ◌<◌, ◌≤◌, ◌%◌, eqb, length};
ghost use Rattle.rules.specs.Kinds.{kind_number};
ghost use Rattle.rules.specs.Rules.{every};
ghost use Rattle.simulate.specs.Clock.{earlier};
ghost use Rattle.simulate.specs.Step.{only_bits, words_fit, step_fits};

use crate::circuit::Circuit;
use rules::{Kind, bits_fit};

// How many nodes have this gate kind.
// Kept: its number is compared, as in src/plan.rt.
pub fn count_kind(circuit: Circuit<'_>, kind: Kind) -> usize
    ensures { result ≡ earlier circuit.entry.net.now (kind_number kind) circuit.entry.net.now.nodes }
{
    let number = u8::from(kind);
    let kinds = circuit.net.kind.iter().take(usize::from(circuit.net.nodes));
    kinds.filter(|k| **k == number).count()
}

// Whether no byte is above 1.
fn are_bits(vector: &[u8]) -> bool
    ensures { result ≡ only_bits vector.now }
{
    vector.iter().all(|byte| *byte <= 1)
}

// Whether no machine word has a bit at or above its edge's count.
fn words_fit(circuit: Circuit<'_>, words: &[u32]) -> bool
    requires { circuit.net.now.edges ≤ length words.now }
    ensures { result ≡ words_fit circuit.entry.net.now words.now circuit.entry.net.now.edges }
{
    let words = &words[..usize::from(circuit.net.edges)];
    let mut beside = words.iter().zip(&circuit.net.count);
    beside.all(|(word, count)| bits_fit(*word, *count))
}

// Rule 13 of stepping: one vector, of bits, and words that fit.
pub fn step_fits(circuit: Circuit<'_>, words: &[u32], vector: &[u8]) -> bool
    requires { circuit.net.now.edges ≤ length words.now }
    ensures { result ≡ step_fits circuit.entry.net.now words.now vector.now }
{
    vector.len() == count_kind(circuit, Kind::Input)
        && are_bits(vector)
        && words_fit(circuit, words)
}

// Rule 13 of running: whole vectors, of bits.
pub fn run_fits(vectors: &[u8], inputs: usize) -> bool
    requires { 0 < inputs }
    ensures { result ≡ every (eqb (length vectors.now % inputs) 0 ∷ only_bits vectors.now ∷ []) }
{
    vectors.len() % inputs == 0 && are_bits(vectors)
}
