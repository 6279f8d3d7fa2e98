// Running: clocks in a row, one per vector.
ghost use Rattle.netlist.specs.Answer.{says};
ghost use Rattle.simulate.specs.inner.Ran.{Runnable, Ran};
ghost use Rattle.simulate.specs.Run.{Runs};

use crate::checks::{count_kind, run_fits};
use crate::circuit::Circuit;
use crate::plan::plan_of;
use crate::touched::lists_of;
use graph::{EDGES, NODES};
use netlist::{Refusal, read};
use rules::Kind;

// So many clocks from these words: their outputs to the front of `out`, and the words that they leave.
pub fn clocks_of(
    circuit: Circuit<'_>,
    start: [u32; EDGES],
    clocks: usize,
    vectors: &[u8],
    out: &mut [u8],
) -> [u32; EDGES]
    requires { Runnable circuit.net.now clocks start vectors.now out.old }
    ensures { Ran circuit.entry.net.now clocks start vectors.now out.old result out.new }
{
    let lists = lists_of(circuit);
    let plan = plan_of(circuit);
    let inputs = lists.inputs.len();
    let outputs = lists.outputs.len();
    let mut words = start;
    let mut sig = [0u8; NODES + EDGES];
    for t in 0..clocks {
        let vector = &vectors[t * inputs..(t + 1) * inputs];
        lists.put_inputs(vector, &mut sig);
        lists.show_registers(&words, &mut sig);
        plan.evaluate(&mut sig);
        lists.put_outputs(&sig, out, t * outputs);
        lists.shift(circuit, &sig, &mut words);
    }
    words
}

// A text run from its start values, one clock per vector: the outputs at the front of `out`, or a refusal (1 to 7, 13, 12), which leaves it.
pub fn run(text: &[u8], vectors: &[u8], out: &mut [u8]) -> Result<usize, Refusal>
    ensures { Runs text.now vectors.now out.old (says result) out.new }
{
    let net = read(text)?;
    let circuit = Circuit { net: &net };
    let inputs = count_kind(circuit, Kind::Input);
    let outputs = count_kind(circuit, Kind::Output);
    if !run_fits(vectors, inputs) {
        return Err(Refusal::Vectors);
    }
    let clocks = vectors.len() / inputs;
    if out.len() / outputs < clocks {
        return Err(Refusal::Room);
    }
    clocks_of(circuit, net.start, clocks, vectors, out);
    Ok(clocks * outputs)
}
