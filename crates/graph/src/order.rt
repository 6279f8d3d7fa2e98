// The evaluation order, and whether there is one: a loop without a register is what stands in its way.
// An edge is open while it has no register and the node that it leaves has not been taken. A node that no open edge enters joins the order.
// The nodes of the order are taken one after another, and the edges that leave them are open no more. So each edge is looked at a few times.
ghost use Rattle.std.specs.Prelude.{◌≡◌, true, false, List, ℕ, ◌+◌, ◌≤◌, ◌<◌, length, All, EachIndex, SomeIndex};
ghost use Rattle.theory.specs.Walk.{Loop};
ghost use Rattle.graph.specs.Columns.{at, flag};
ghost use Rattle.graph.specs.Wires.{wires_graph};
ghost use Rattle.graph.specs.Layers.{Told};
ghost use Rattle.graph.specs.inner.Sort.{EdgesOf, Ordered};
ghost use Rattle.graph.specs.inner.Order.{Waiting, Tried, Stage, Taking, Going, Found};

use crate::both_ways::BothWays;
use crate::{EDGES, NODES, Wires, column};

// The order so far: its nodes at the first `placed` places of `order`, and marked. Which edges are open.
// Kept: an array beside how many stand in it: `evaluation_order` and lags' public `Ground`, which is Copy, give the order as an array, and `Items` cannot be Copy.
#[derive(Clone, Copy)]
pub struct Placing {
    pub placed: usize,
    pub order: [u16; NODES],
    pub mark: [bool; NODES],
    pub is_open: [bool; EDGES],
}

impl Placing {
    // No node has a place yet, and the edges without a register are open.
    fn new(both: &BothWays<'_>) -> Placing
        ensures { Stage both.now result × (result.placed ≡ 0) }
    {
        Placing {
            placed: 0,
            order: [0; NODES],
            mark: [false; NODES],
            is_open: column(both.wires.edges, false, |e| both.count[e] == 0),
        }
    }

    // Whether one of these edges is open.
    fn waits(&self, into: &[u16]) -> bool
        requires { All (λ e. e < 1024) into.now }
        ensures { Told result (SomeIndex into.now (λ k. flag self.now.is_open (at into.now k) ≡ true)) }
    {
        into.iter().any(|e| self.is_open[*e as usize])
    }

    // v to the end of the order, unless it stands there already or waits.
    fn place(&mut self, both: &BothWays<'_>, v: usize)
        requires { Stage both.now self.old × (v < both.now.wires.nodes) }
        ensures { Tried both.now self.old v self.new }
    {
        if self.mark[v] || self.waits(both.into(v)) {
            return;
        }
        self.order[self.placed] = v as u16;
        self.mark[v] = true;
        self.placed += 1;
    }

    // The nodes that no open edge enters, to begin with.
    fn place_first(&mut self, both: &BothWays<'_>)
        requires { Stage both.now self.old }
        ensures { Stage both.now self.new × Waiting both.now self.new both.now.wires.nodes }
    {
        for v in 0..both.wires.nodes {
            self.place(both, v);
        }
    }

    // The node u of the order is taken: the edges that leave it are open no more, and what waited for no other joins the order.
    fn take(&mut self, both: &BothWays<'_>, u: usize)
        requires { Taking both.now self.old u }
        ensures taking { Taking both.now self.new u }
        ensures same { (self.old.placed ≤ self.new.placed) × ((i : ℕ) → i < self.old.placed → at self.new.order i ≡ at self.old.order i) }
        ensures kept { (e : ℕ) → flag self.old.is_open e ≡ false → flag self.new.is_open e ≡ false }
        ensures gone { (e : ℕ) → e < both.now.wires.edges → at both.now.wires.from.now e ≡ u → flag self.new.is_open e ≡ false }
    {
        let out = both.out_of(u);
        for e in out {
            let e = *e as usize;
            self.is_open[e] = false;
            self.place(both, both.wires.to[e] as usize);
        }
    }

    // All nodes of the order are taken, those too that join it meanwhile.
    fn take_all(&mut self, both: &BothWays<'_>)
        requires { Going both.now self.old 0 }
        ensures { Going both.now self.new self.new.placed }
    {
        let mut i = 0;
        // Kept: no range, as the end of the order moves while it is gone through.
        while i < self.placed {
            self.take(both, self.order[i] as usize);
            i += 1;
        }
    }
}

// Kept, here and below: the wires and the counts as two. A caller has counts of its own (the netlist's, those under labels, the moved ones) and would make a struct for
// one call; within, `BothWays` is that struct.
// All nodes in evaluation order, or as many as found a place: the others wait for each other, round a loop without a register.
fn order_of(wires: Wires<'_>, count: &[u8]) -> Placing
    requires { wires.edges ≤ length count.now }
    ensures { Found wires.entry count.now result }
{
    let both = BothWays::new(wires, count);
    let mut placing = Placing::new(&both);
    placing.place_first(&both);
    placing.take_all(&both);
    placing
}

// Whether there is a loop without a register: then some node finds no place.
pub fn looped(wires: Wires<'_>, count: &[u8]) -> bool
    requires { wires.edges ≤ length count.now }
    ensures { (kind : List ℕ) → Told result (Loop (wires_graph kind wires.entry) (at count.now)) }
{
    order_of(wires, count).placed < wires.nodes
}

// The nodes in evaluation order: each stands after the source of every edge without a register that enters it.
pub fn evaluation_order(wires: Wires<'_>, count: &[u8]) -> [u16; NODES]
    requires edges_in_bounds { wires.edges ≤ length count.now }
    requires by_index { (kind : List ℕ) → ¬ Loop (wires_graph kind wires) (at count.now) }
    ensures { Ordered wires.entry.nodes wires.entry.edges wires.entry.from.now wires.entry.to.now count.now result }
{
    order_of(wires, count).order
}
