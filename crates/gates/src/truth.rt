// A gate's truth word: bits 0 to 8 are its values, one for each number of ones among its inputs; from bit 9 up stands the seed that its inputs are
// gathered behind, which picks a part of the index table: 0, where the number of ones decides. A selector has a value for each row of inputs, and the seed 32.
// Required of `truths`: known gate kinds with at most 8 inputs, a selector with 3, which rule 5 makes sure of.
ghost use Rattle.std.specs.Prelude.{◌≡◌, ℕ, suc, ◌+◌, ◌-◌, ◌<◌, ◌≤◌, length};
ghost use Rattle.theory.specs.Gate.{gate_by};
ghost use Rattle.graph.specs.Columns.{at};
ghost use Rattle.rules.specs.Kinds.{kind_number};
ghost use Rattle.gates.specs.inner.Gates.{Reckons};

use graph::column;
use rules::Kind;

// The value of a gate that has n inputs, of which k are 1.
// Kept, here and in the two below: a kind and a number of inputs, from two columns; a struct of both would be filled for each gate and taken apart at once.
fn gate_by(kind: Kind, n: u32, k: u32) -> u32
    requires { k ≤ n }
    ensures { result ≡ gate_by (kind_number kind) n k }
{
    // 1 where any input is 1, and where all are.
    let any = k.min(1);
    let all = u32::from(k == n);
    match kind {
        Kind::Output | Kind::Buffer | Kind::Or => any,
        Kind::Inverter | Kind::Nor => 1 - any,
        Kind::And => all,
        Kind::Nand => 1 - all,
        Kind::Xor => k % 2,
        Kind::Xnor => 1 - k % 2,
        // An input's value is made by no gate, a selector's not by how many inputs are 1.
        Kind::Input | Kind::Selector => 0,
    }
}

// The truth word of a gate with n inputs whose number of ones decides: bit k is the value when k of them are 1.
fn counted(kind: Kind, n: u32) -> u16
    requires { (¬ (kind_number kind ≡ 10)) × (n ≤ 8) }
    ensures { Reckons (kind_number kind) n result }
{
    let mut word = 0;
    for k in 0..n + 1 {
        word += gate_by(kind, n, k) << k;
    }
    word as u16
}

// Select, first, second in one word: bits 2 and 3 are select 0 with the first 1, bits 5 and 7 are select 1 with the second 1. Above them stands the seed 32.
const SELECTOR: u16 = 16384 + 172;

// The truth word of a gate with n inputs.
fn truth_of(kind: Kind, n: u32) -> u16
    requires { (n ≤ 8) × (kind_number kind ≡ 10 → n ≡ 3) }
    ensures { Reckons (kind_number kind) n result }
{
    match kind {
        Kind::Selector => SELECTOR,
        _ => counted(kind, n),
    }
}

// The truth words of a row of gates: gate i has `first[i + 1] - first[i]` inputs.
// Kept: the kinds are the record's bytes, of which a `Kind` is made here, once for each gate.
pub fn truths<const N: usize>(kind: &[u8], first: &[u16]) -> [u16; N]
    requires gates_in_bounds { (length kind.now < length first.now) × (length kind.now ≤ N) }
    requires by_index { (i : ℕ) → i < length kind.now → (at kind.now i < 11) × (at first.now i ≤ at first.now (suc i)) × (at first.now (suc i) ≤ at first.now i + 8)
        × (at kind.now i ≡ 10 → at first.now (suc i) ≡ at first.now i + 3) }
    ensures { (i : ℕ) → i < length kind.now → Reckons (at kind.now i) (at first.now (suc i) - at first.now i) (at result i) }
{
    column(kind.len(), 0, |i| {
        let gate = Kind::try_from(kind[i]).unwrap();
        truth_of(gate, u32::from(first[i + 1] - first[i]))
    })
}
