// One clock, over columns: nothing is copied. sig holds each node's signal, and from 512 on what each edge with a register shows from it; words each
// edge's word. A clock is `put_inputs`, `show_registers`, the plan's `evaluate`, `put_outputs`, `shift`. Each goes over a list, and touches what stands in it alone.
// Required: a plan and the lists of a netlist that passed the rules, and buffers of its sizes. `clocks_of` has them.
ghost use Rattle.std.specs.Prelude.{◌≡◌, ◌+◌, ◌^◌, ◌<◌, ◌≤◌, length};
ghost use Rattle.simulate.specs.Clock.{shifted};
ghost use Rattle.gates.specs.inner.Gates.{AllBits};
ghost use Rattle.simulate.specs.inner.Signals.{Movable, with_inputs, with_registers, with_outputs, with_shifts};

use crate::circuit::Circuit;
use crate::lists::Lists;
use graph::NODES;

// "the word moves down a bit and u's value becomes bit w − 1".
fn shift_in(word: u32, w: u32, x: u32) -> u32
    requires { (0 < w) × (w ≤ 32) × (word < 2 ^ w) × (x ≤ 1) }
    ensures { result ≡ shifted w word x }
{
    let top = w - 1;
    (word >> 1) | (x << top)
}

impl Lists {
    // The vector, one byte for each input.
    pub fn put_inputs(&self, vector: &[u8], sig: &mut [u8])
        requires { (512 ≤ length sig.old) × (length self.now.inputs ≤ length vector.now) }
        ensures { sig.new ≡ with_inputs self.now.inputs (length self.now.inputs) vector.now sig.old }
    {
        for (i, v) in self.inputs.as_slice().iter().enumerate() {
            sig[*v as usize] = vector[i];
        }
    }

    // What each edge with a register shows from it: bit 0 of its word.
    pub fn show_registers(&self, words: &[u32], sig: &mut [u8])
        requires { (1024 ≤ length words.now) × (1536 ≤ length sig.old) }
        ensures { sig.new ≡ with_registers self.now.registers (length self.now.registers) words.now sig.old }
    {
        for e in self.registers.as_slice() {
            let e = *e as usize;
            sig[NODES + e] = (words[e] % 2) as u8;
        }
    }

    // The outputs' signals, one byte each, at `at0`.
    pub fn put_outputs(&self, sig: &[u8], out: &mut [u8], at0: usize)
        requires { (512 ≤ length sig.now) × (at0 + length self.now.outputs ≤ length out.old) }
        ensures { out.new ≡ with_outputs self.now.outputs (length self.now.outputs) sig.now at0 out.old }
    {
        for (i, v) in self.outputs.as_slice().iter().enumerate() {
            out[at0 + i] = sig[*v as usize];
        }
    }

    // The words after a clock with these signals: those of the edges with a register. The others stay.
    pub fn shift(&self, circuit: Circuit<'_>, sig: &[u8], words: &mut [u32])
        requires { Movable self.now.registers circuit.net.now.from circuit.net.now.count words.old (length sig.now) × AllBits sig.now }
        ensures { words.new ≡ with_shifts self.now.registers (length self.now.registers) circuit.entry.net.now.from circuit.entry.net.now.count sig.now words.old }
    {
        let net = circuit.net;
        for e in self.registers.as_slice() {
            let e = *e as usize;
            let u = net.from[e] as usize;
            words[e] = shift_in(words[e], u32::from(net.count[e]), u32::from(sig[u]));
        }
    }
}
