// The program of a moved netlist: a cell for each node of positive lag and each clock below its lag.
// Private to the crate: `choose` puts them together.
ghost use Rattle.std.specs.Prelude.{◌≡◌, ℕ, ◌+◌, ◌≤◌, ◌<◌, length, slice_set};
ghost use Rattle.graph.specs.Columns.{at};
ghost use Rattle.graph.specs.inner.Lists.{Appended};
ghost use Rattle.graph.specs.inner.Sort.{Ordered};
ghost use Rattle.choose.specs.inner.Numbers.{lag_at, Arranged, CellsNumbered};
ghost use Rattle.choose.specs.inner.Sources.{source_at, SourceRows};
ghost use Rattle.choose.specs.inner.Wires.{Placed, Wires};

use crate::task::Task;
use crate::{CELLS, CODES, FIRSTS, OPERANDS, STRIDE};
use graph::{EdgesByNode, Items, NODES, evaluation_order};
use lags::up_of;
use moves::bytes_of;
use search::{BITS, Columns};

// A cell by its clock and the edges that enter its node.
#[derive(Clone, Copy)]
struct Cell<'a> {
    clock: u32,
    sees: &'a [u16],
}

// The cells' numbers, by code, and their codes, by number, so far: the code of node v at clock t is 32 v + t.
#[derive(Drop)]
pub struct Numbering<'a> {
    pub task: &'a Task<'a>,
    // The nodes, in evaluation order of the moved netlist.
    pub order: &'a [u16],
    pub id: [u16; CODES],
    pub code: Items<CELLS>,
    ghost arranged: { Arranged order.now },
    ghost whole: { length order.now ≡ task.now.of.net.now.nodes },
}

impl<'a> Numbering<'a> {
    // No cell has a number yet.
    pub fn new(task: &'a Task<'a>, order: &'a [u16]) -> Self
        requires { Arranged order.now × (length order.now ≡ task.now.of.net.now.nodes) }
        ensures of { (result.task ≡ task.entry) × (result.order ≡ order.entry) }
        ensures none { (length result.id ≡ 16384) × (length result.code ≡ 0) }
    {
        Numbering {
            task,
            order,
            id: [0; CODES],
            code: Items::new(),
        }
    }

    // The cells of clock t are numbered next, in the order of the nodes.
    fn number_clock(&mut self, t: u32)
        requires clock { t < self.old.task.now.clocks }
        requires numbered { CellsNumbered (lag_at self.old.task.now.of.lab.now) self.old.order.now t 0 self.old.id self.old.code }
        ensures of { (self.new.task ≡ self.old.task) × (self.new.order ≡ self.old.order) }
        ensures numbered { CellsNumbered (lag_at self.old.task.now.of.lab.now) self.old.order.now t (length self.old.order.now) self.new.id self.new.code }
    {
        let task = self.task;
        for v in self.order {
            let v = *v as usize;
            if t < up_of(task.of.lab[v]) {
                let spot = v * STRIDE + (t as usize);
                self.id[spot] = self.code.len() as u16;
                self.code.push(spot as u16);
            }
        }
    }

    // All cells are numbered.
    pub fn number_cells(&mut self)
        requires none { (length self.old.id ≡ 16384) × (length self.old.code ≡ 0) }
        ensures of { (self.new.task ≡ self.old.task) × (self.new.order ≡ self.old.order) }
        ensures numbered { CellsNumbered (lag_at self.old.task.now.of.lab.now) self.old.order.now self.old.task.now.clocks 0 self.new.id self.new.code }
    {
        for t in 0..self.task.clocks {
            self.number_clock(t);
        }
    }

    // What edge e shows at clock t: while t is below the new count a chosen value, then a cell of its source. (An operand is a number, as in search `Program`.)
    #[tactic(auto, using(crate::proofs::Sources::source_chosen, crate::proofs::Sources::source_cell, moves::proofs::Labels::from_node, moves::proofs::Labels::low_edge, moves::proofs::Labels::low_nodes), unfolding(crate::specs::inner::Sources::source_at))]
    fn source_of(&self, e: usize, t: u32) -> u16
        requires { SourceRows self.now.task.now.of.net.now self.now.task.now.counts.now self.now.id t e }
        ensures { result ≡ source_at self.now.task.now.of.net.now.from self.now.task.now.counts.now self.now.task.now.base.now self.now.id t e }
    {
        let task = self.task;
        let count = task.counts[e];
        if t < count {
            (task.base[e] + t) as u16
        } else {
            let spot = (task.of.net.from[e] as usize) * STRIDE + ((t - count) as usize);
            BITS + self.id[spot]
        }
    }

    // The operands of cell i, put where those of the cell before it end: what its edges show at its clock.
    fn put_operands(&self, i: usize, cell: Cell<'_>, to: &mut Columns<CELLS, FIRSTS, OPERANDS>)
        requires room { (i < 12288) × (at to.old.first i + length cell.sees.now ≤ 24576) }
        requires by_index { (k : ℕ) → k < length cell.sees.now → SourceRows self.now.task.now.of.net.now self.now.task.now.counts.now self.now.id cell.clock (at cell.sees.now k) }
        ensures operands { Appended (λ k. source_at self.now.task.now.of.net.now.from self.now.task.now.counts.now self.now.task.now.base.now self.now.id cell.entry.clock (at cell.entry.sees.now k)) to.old.operand to.new.operand 0 (length cell.entry.sees.now) (at to.old.first i) }
        ensures first { to.new.first ≡ slice_set to.old.first (i + 1) (at to.old.first i + length cell.entry.sees.now) }
        ensures kind { to.new.kind ≡ to.old.kind }
    {
        let start = to.first[i] as usize;
        for (k, e) in cell.sees.iter().enumerate() {
            to.operand[start + k] = self.source_of(*e as usize, cell.clock);
        }
        to.first[i + 1] = (start + cell.sees.len()) as u16;
    }

    // All cells, one after the other: the kind of a cell is that of its node, and its operands are the edges that enter this, in the order of the edges.
    // Kept: a loop, as `put_operands` above, beside the two of solve's `renumber`: one function for both would take what becomes of an operand as a closure, and its
    // law would be the union of `Appended` and `ProgramRenumbered`, no plainer.
    pub fn wire(&self, to: &mut Columns<CELLS, FIRSTS, OPERANDS>)
        requires { Placed self.now.task.now.of.net.now self.now.task.now.of.lab.now self.now.task.now.counts.now self.now.task.now.clocks self.now.id self.now.code }
        ensures { Wires self.now.task.now.of.net.now self.now.task.now.counts.now self.now.task.now.base.now self.now.id self.now.code to.new.kind to.new.first to.new.operand }
    {
        let task = self.task;
        let net = task.of.net;
        let ins = net.wires().entering();
        to.first[0] = 0;
        for (i, code) in self.code.as_slice().iter().enumerate() {
            let code = *code as usize;
            let node = code / STRIDE;
            let cell = Cell {
                clock: (code % STRIDE) as u32,
                sees: ins.of(node),
            };
            to.kind[i] = net.kind[node];
            self.put_operands(i, cell, to);
        }
    }
}

// The nodes in evaluation order of the moved netlist.
pub fn order_of(task: &Task<'_>) -> [u16; NODES]
    ensures { Ordered task.now.of.net.now.nodes task.now.of.net.now.edges task.now.of.net.now.from task.now.of.net.now.to task.now.counts.now result }
{
    evaluation_order(task.of.net.wires(), &bytes_of(task.counts))
}
