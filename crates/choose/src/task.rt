// What start values are chosen for.
ghost use Rattle.simulate.specs.inner.Ran.{Steppable};
ghost use Rattle.choose.specs.inner.Task.{Known};

use moves::Move;

// A netlist with the labels of its least retiming, the new count of each edge, and how many values are chosen: before each edge and at the end on all, and `k` on all;
// and the largest lag, which is how many clocks have cells.
#[derive(Clone, Copy)]
pub struct Task<'a> {
    pub of: Move<'a>,
    pub counts: &'a [u32],
    pub base: &'a [u32],
    pub k: u32,
    pub clocks: u32,
    pub ghost steppable: { Steppable of.net.now },
    pub ghost known: { Known of.net.now of.lab.now counts.now base.now k clocks },
}
