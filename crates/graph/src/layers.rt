// Which nodes are reached, in passes over a queue of the marked nodes: each node is looked at once, and so is each edge.
// After pass n exactly those are marked that a pin reaches over n edges at most.
ghost use Rattle.std.specs.Prelude.{◌≡◌, false, List, ℕ, ◌≤◌, ◌<◌, length, All, replicate};
ghost use Rattle.graph.specs.Columns.{flag};
ghost use Rattle.graph.specs.Wires.{wires_graph};
ghost use Rattle.graph.specs.Layers.{Told};
ghost use Rattle.graph.specs.inner.Laid.{From};
ghost use Rattle.graph.specs.inner.Sort.{Sorts};
ghost use Rattle.graph.specs.inner.Layers.{Queued, with_mark, EndOf, Spread, Steady, AfterPasses, PassLeaves};

use crate::{EdgesByNode, NODES, Wires};

// After so many passes: the marked nodes at the front of `queue`, those that the last pass marked from place `lo` up to `hi`.
// Kept: an array beside how many stand in it: a layer is public and Copy, and `Items` cannot be Copy (its model hides places).
#[derive(Clone, Copy)]
pub struct Layer {
    pub passes: usize,
    pub lo: usize,
    pub hi: usize,
    pub queue: [u16; NODES],
    pub marks: [bool; NODES],
}

impl Layer {
    // Before the first pass: the nodes of kind `pin`.
    fn first(wires: Wires<'_>, kind: &[u8], pin: u8) -> Layer
        requires { wires.nodes ≤ length kind.now }
        ensures { AfterPasses wires.entry kind.now pin result × (result.passes ≡ 0) }
    {
        let mut layer = Layer {
            passes: 0,
            lo: 0,
            hi: 0,
            queue: [0; NODES],
            marks: [false; NODES],
        };
        for v in 0..wires.nodes {
            if kind[v] == pin {
                layer.mark(v);
            }
        }
        layer
    }

    // Node v gets a mark and the next place of the queue, unless it has a mark.
    fn mark(&mut self, v: usize)
        requires { (v < 512) × (flag self.old.marks v ≡ false → self.old.hi < 512) }
        ensures { self.new ≡ with_mark self.old v }
    {
        if !self.marks[v] {
            self.queue[self.hi] = v as u16;
            self.marks[v] = true;
            self.hi += 1;
        }
    }

    // So do the nodes that these edges enter.
    fn mark_ends(&mut self, wires: Wires<'_>, links: &[u16])
        requires { Queued wires.nodes self.old × All (λ e. e < wires.edges) links.now }
        ensures { Spread wires.entry.nodes (EndOf wires.entry.to.now links.now (length links.now)) self.old self.new }
    {
        for e in links {
            self.mark(wires.to[*e as usize] as usize);
        }
    }

    // One pass: over the edges that leave the nodes which the last pass marked. `links` has the edges by the node that they leave.
    fn pass(&mut self, wires: Wires<'_>, links: &EdgesByNode)
        requires links { Sorts wires.from.now wires.edges wires.nodes (replicate 1024 0) links.now.list links.now.begin }
        requires steady { Steady wires self.old × (self.old.lo < self.old.hi) }
        ensures { PassLeaves wires.entry self.old self.new }
    {
        let end = self.hi;
        for i in self.lo..end {
            self.mark_ends(wires, links.of(self.queue[i] as usize));
        }
        self.passes += 1;
        self.lo = end;
    }
}

// Passes up to one that marks nothing, `most` of them at most. What holds after each of them, holds after the last.
// Kept: `kind` and `pin` go on as they are, here, in `first` and in `reached`: the pin is a byte of the record that C lends, and a struct of the three would be made for one call.
pub fn walk(wires: Wires<'_>, kind: &[u8], pin: u8, most: usize) -> Layer
    requires { wires.nodes ≤ length kind.now }
    ensures after { AfterPasses wires.entry kind.now pin result }
    ensures few { result.passes ≤ most }
    ensures ended { result.passes < most → result.hi ≤ result.lo }
{
    let links = wires.leaving();
    let mut layer = Layer::first(wires, kind, pin);
    // Kept: whether there is one more pass, the last one says; the layer counts its passes itself, as it is handed out with them.
    while layer.lo < layer.hi && layer.passes < most {
        layer.pass(wires, &links);
    }
    layer
}

// The nodes that a node of kind `pin` reaches. With the wires reversed: those that reach one.
// No more passes are made than there are nodes.
pub fn reached(wires: Wires<'_>, kind: &[u8], pin: u8) -> [bool; NODES]
    requires { wires.nodes ≤ length kind.now }
    ensures { (v : ℕ) → v < wires.entry.nodes → Told (flag result v) (From (wires_graph kind.now wires.entry) pin v) }
{
    walk(wires, kind, pin, wires.nodes + 1).marks
}
