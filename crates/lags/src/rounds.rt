// Rounds: every late node's label goes up by one, until none is late, or a pin is, or there were as many rounds as nodes.
// Private to the crate: `least` hands on a netlist that reads, and its edges by node.
ghost use Rattle.std.specs.Prelude.{◌≤◌};
ghost use Rattle.graph.specs.Layers.{Told};
ghost use Rattle.lags.specs.inner.Lags.{Leasts};
ghost use Rattle.lags.specs.inner.Wires.{Ready};
ghost use Rattle.lags.specs.inner.Rounds.{Low, LatePin, Lifted};

use crate::order::order_under;
use crate::query::Query;
use crate::start::first_labels;
use graph::NODES;
use rules::is_pin;

impl<'a> Query<'a> {
    // Whether a pin is late: an output at the end of a chain that is too long.
    fn late_pin(&self, time: &[u32; NODES]) -> bool
        ensures { Told result (LatePin self.now.net.now.kind time.now self.now.net.now.nodes self.now.period) }
    {
        (0..self.net.nodes as usize).any(|v| is_pin(self.net.kind[v]) && self.period < time[v])
    }

    // Every late node's label goes up by one.
    // Kept, here, in `registers_under`, `order_under` and `arrivals`: that labels are low, `Low`, is a clause. They are an array that the rounds raise in place and `Leasts` gives as it is, and the
    // fact needs the netlist beside them: a struct of both would be taken apart at the end.
    fn raise(&self, time: &[u32; NODES], lab: &mut [u32; NODES])
        requires { Low self.now.net.now.nodes lab.old }
        ensures { Lifted self.now.net.now.nodes self.now.period time.now lab.old lab.new }
    {
        for v in 0..self.net.nodes as usize {
            if self.period < time[v] {
                lab[v] += 1;
            }
        }
    }

    // The labels of the least retiming, or none where no legal retiming meets the period.
    #[tactic(auto, using(crate::proofs::Wires::reads))]
    pub fn by_rounds(&self) -> Option<[u32; NODES]>
        requires { Ready self.now }
        ensures { Leasts self.now.net.now self.now.period result }
    {
        let nodes = self.net.nodes as usize;
        let mut lab = first_labels(self.net);
        let mut order = order_under(self.net, &lab);
        for _round in 0..nodes {
            let time = self.arrivals(&order, &lab);
            if self.late_pin(&time) {
                return None;
            }
            if !self.any_late(&time) {
                return Some(lab);
            }
            self.raise(&time, &mut lab);
            order = self.parted(&order, &time);
        }
        let last = self.arrivals(&order, &lab);
        if self.any_late(&last) {
            None
        } else {
            Some(lab)
        }
    }
}
