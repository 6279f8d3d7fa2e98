// Stepping: one clock on a machine record.
ghost use Rattle.netlist.specs.Answer.{says};
ghost use Rattle.simulate.specs.Step.{says_stepped, machine_of, Steps};

use crate::checks::{count_kind, step_fits};
use crate::circuit::Circuit;
use crate::running::clocks_of;
use crate::{Machine, Stepped};
use netlist::{Netlist, Refusal, check};
use rules::Kind;

// One clock: the machine after it, and one vector of outputs at the front of `out`; or a refusal (2 to 7, 13, 12), which leaves both.
pub fn step(
    net: Netlist,
    machine: Machine,
    vector: &[u8],
    out: &mut [u8],
) -> Result<Stepped, Refusal>
    ensures { Steps net machine vector.now out.old (says_stepped result) (machine_of machine result) out.new }
{
    let same = check(net)?;
    let circuit = Circuit { net: &same };
    if !step_fits(circuit, &machine.words, vector) {
        return Err(Refusal::Vectors);
    }
    let outputs = count_kind(circuit, Kind::Output);
    if out.len() < outputs {
        return Err(Refusal::Room);
    }
    let words = clocks_of(circuit, machine.words, 1, vector, out);
    Ok(Stepped {
        machine: Machine { words },
        outputs,
    })
}

// The same on a machine that is lent.
pub fn step_in_place(
    net: Netlist,
    machine: &mut Machine,
    vector: &[u8],
    out: &mut [u8],
) -> Result<usize, Refusal>
    ensures { Steps net machine.old vector.now out.old (says result) machine.new out.new }
{
    let stepped = step(net, *machine, vector, out)?;
    *machine = stepped.machine;
    Ok(stepped.outputs)
}
