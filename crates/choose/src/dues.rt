// What the moved netlist's cells must give: the old start values that it has to carry. A due is a number, 2 i + x, as in search `Owed`: cell i must give x.
// Private to the crate: `choose` puts them together.
ghost use Rattle.std.specs.Prelude.{◌≡◌, [], ◌∷◌, ℕ, ◌+◌, ◌-◌, ◌≤◌, ◌<◌, min, length};
ghost use Rattle.graph.specs.Columns.{at};
ghost use Rattle.graph.specs.inner.Sort.{EachEdge};
ghost use Rattle.search.specs.inner.Program.{rows_of, total_of, Owes};
ghost use Rattle.choose.specs.inner.Numbers.{lag_at};
ghost use Rattle.choose.specs.inner.Dues.{cell_at, Dues, due_at, Celled, Pushed, DuesTo};

use crate::cells::Numbering;
use crate::task::Task;
use crate::{CODES, DUES, ROW_ENDS, STRIDE};
use graph::{Items, edges_along};
use lags::up_of;
use moves::MOST_CHOSEN;
use search::Owed;

// A run of clocks, from `low` up to `high`.
#[derive(Clone, Copy)]
struct Run {
    low: u32,
    high: u32,
    ghost rises: { low ≤ high },
    ghost within: { high ≤ 24 },
}

// An edge by the node that it leaves and that node's lag, its registers and their old values.
#[derive(Clone, Copy)]
struct Leaving {
    node: usize,
    lag: u32,
    count: u32,
    values: u32,
    ghost few_nodes: { node < 512 },
    ghost low_lag: { lag ≤ 24 },
    ghost narrow: { count ≤ 32 },
}

impl Leaving {
    // Edge e of the netlist.
    #[tactic(auto, using(moves::proofs::Labels::from_node, moves::proofs::Labels::low_edge, moves::proofs::Labels::low_nodes, netlist::proofs::Lowest::count_low))]
    fn of(task: &Task<'_>, e: usize) -> Self
        requires { e < task.now.of.net.now.edges }
        ensures ends { (result.node ≡ at task.now.of.net.now.from e) × (result.lag ≡ lag_at task.now.of.lab.now (at task.now.of.net.now.from e)) }
        ensures values { (result.count ≡ at task.now.of.net.now.count e) × (result.values ≡ at task.now.of.net.now.start e) }
    {
        let net = task.of.net;
        let node = net.from[e] as usize;
        Leaving {
            node,
            lag: up_of(task.of.lab[node]),
            count: u32::from(net.count[e]),
            values: net.start[e],
        }
    }
}

// What is due of one edge, of a run of clocks, put at the end.
// "for each edge leaving a node v with positive lag and each old value s of that edge with s at least w − r(v), node v … gives that value at clock s − w + r(v)"
fn append_dues(e: Leaving, run: Run, id: &[u16; CODES], due: &mut Items<DUES>)
    requires room { length due.old + run.high ≤ 24576 + run.low }
    requires by_index { (t : ℕ) → t < e.lag → cell_at id.now e.node t < 12288 }
    ensures { Pushed (due_at id.now e.node e.lag e.count e.values) due.old due.new (e.count + run.low - e.lag) (min e.count (e.count + run.high - e.lag)) }
{
    let end = e.count.min((e.count + run.high).saturating_sub(e.lag));
    for s in (e.count + run.low).saturating_sub(e.lag)..end {
        let spot = e.node * STRIDE + ((s + e.lag - e.count) as usize);
        due.push(id[spot] * 2 + ((e.values >> s) % 2) as u16);
    }
}

// What is due, in rows: where each begins, and where the last one ends.
#[derive(Drop)]
pub struct Rows {
    pub due: Items<DUES>,
    pub begin: Items<ROW_ENDS>,
}

impl Rows {
    // No row yet.
    pub fn new() -> Self
        ensures { (result.due ≡ []) × (result.begin ≡ 0 ∷ []) }
    {
        let mut begin = Items::new();
        begin.push(0);
        Rows {
            due: Items::new(),
            begin,
        }
    }

    // As the search takes them.
    pub fn owed(&self) -> Owed<'_>
        ensures { (result.due.now ≡ self.now.due) × (result.begin.now ≡ self.now.begin) }
    {
        Owed {
            due: self.due.as_slice(),
            begin: self.begin.as_slice(),
        }
    }

    // One run of clocks of every edge: a row for each edge that has something due in it, put after the rows that are there.
    // (The search goes through all rows once for each level, so a row with nothing in it would cost.)
    fn put_run(&mut self, of: &Numbering<'_>, along: &[u16], run: Run)
        requires along { EachEdge along.now (length along.now) × (length along.now ≡ of.now.task.now.of.net.now.edges) }
        requires celled { Celled (lag_at of.now.task.now.of.lab.now) of.now.task.now.of.net.now.nodes 12288 of.now.id }
        requires few_rows { rows_of self.old.begin ≤ 4096 }
        requires dues_to { DuesTo of.now.task.now.of.net.now (lag_at of.now.task.now.of.lab.now) of.now.id along.now run.low run.low 0 self.old.due self.old.begin }
        ensures upper_bound { rows_of self.new.begin ≤ rows_of self.old.begin + of.now.task.now.of.net.now.edges }
        ensures dues_to_2 { DuesTo of.now.task.now.of.net.now (lag_at of.now.task.now.of.lab.now) of.now.id along.now run.high run.high 0 self.new.due self.new.begin }
    {
        for e in along {
            let before = self.due.len();
            append_dues(
                Leaving::of(of.task, *e as usize),
                run,
                &of.id,
                &mut self.due,
            );
            let after = self.due.len();
            if before < after {
                self.begin.push(after as u16);
            }
        }
    }

    // All that is due: an edge's moved clocks in runs of 1, 2, 4, … clocks, the first runs of all edges first, so that an early clock of one edge does not wait for
    // the late ones of another; edges in the evaluation order of the nodes that they leave: the search then looks at a value soon after it is evaluated.
    pub fn put(&mut self, of: &Numbering<'_>)
        requires none { (self.old.due ≡ []) × (self.old.begin ≡ 0 ∷ []) }
        requires celled { Celled (lag_at of.now.task.now.of.lab.now) of.now.task.now.of.net.now.nodes 12288 of.now.id }
        ensures owes { (cells : ℕ) → Celled (lag_at of.now.task.now.of.lab.now) of.now.task.now.of.net.now.nodes cells of.now.id → Owes cells self.new.due self.new.begin (rows_of self.new.begin) }
        ensures dues { Dues of.now.task.now.of.net.now (lag_at of.now.task.now.of.lab.now) (cell_at of.now.id) self.new.due (total_of self.new.begin) }
    {
        let task = of.task;
        let wires = task.of.net.wires();
        let along = edges_along(&wires.from[..wires.edges], of.order);
        let along = &along[..wires.edges];
        let mut low = 0;
        // Kept: no range, as a run begins where the one before it ends, and ends past twice its beginning.
        while low < task.clocks {
            let high = (2 * low + 1).min(MOST_CHOSEN);
            self.put_run(of, along, Run { low, high });
            low = high;
        }
    }
}
