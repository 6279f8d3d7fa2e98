// The choice of start values: the moved netlist's cells as a program, and the search through it.
// Retiming comes here with the labels of the least retiming.
ghost use Rattle.std.specs.Prelude.{◌≡◌, [], ◌∷◌, ◌≤◌, length};
ghost use Rattle.moves.specs.inner.Labels.{lags_of};
ghost use Rattle.moves.specs.inner.Moving.{Choosing};
ghost use Rattle.choose.specs.inner.Numbers.{LagsBelow};
ghost use Rattle.choose.specs.inner.Wires.{Chooses, Standing};
ghost use Rattle.choose.specs.inner.Chosen.{Chosen};

use crate::cells::{Numbering, order_of};
use crate::dues::Rows;
use crate::task::Task;
use crate::words::Choice;
use crate::{CELLS, FIRSTS, OPERANDS};
use graph::EDGES;
use lags::up_of;
use moves::Move;
use search::Columns;
use solve::solve;

// The program of the moved netlist, over as many bits as are chosen, and what is due of its cells. How many cells there are.
// Kept: columns and rows are lent to be filled: handed out together with the number of cells they would be a struct of three, which `searched` takes apart at once. (Handing
// out copies, too: tried with the 57 KB of `Numbering` alone, 5 µs more of 32.) And columns of fixed length with the number of cells beside them, no heap: `Items` holds u16 and grows at its end, while
// a kind is a byte, and an operand is put at its place; `program` cuts the kinds to the cells.
fn compile(task: &Task<'_>, to: &mut Columns<CELLS, FIRSTS, OPERANDS>, rows: &mut Rows) -> usize
    requires { (rows.old.due ≡ []) × (rows.old.begin ≡ 0 ∷ []) }
    ensures { Standing task.now.of.net.now (lags_of task.now.of.lab.now) task.now.k result to.new.kind to.new.first to.new.operand rows.new.due rows.new.begin }
{
    let order = order_of(task);
    let mut cells = Numbering::new(task, &order[..task.of.net.nodes as usize]);
    cells.number_cells();
    cells.wire(to);
    rows.put(&cells);
    cells.code.len()
}

// The best choice that carries the start, or that none does.
// Its columns stand in a frame of their own, since a frame is touched page by page when its function is entered.
#[inline(never)]
fn searched(task: &Task<'_>) -> Option<u32>
    ensures { Chooses task.now.of.net.now (lags_of task.now.of.lab.now) result }
{
    let mut columns: Columns<CELLS, FIRSTS, OPERANDS> = Columns::new();
    let mut rows = Rows::new();
    let cells = compile(task, &mut columns, &mut rows);
    solve(columns.program(cells, task.k), rows.owed())
}

// The largest lag.
fn top_of(lab: &[u32]) -> u32
    requires { LagsBelow lab.now (length lab.now) 24 }
    ensures { LagsBelow lab.now (length lab.now) result }
{
    lab.iter().map(|label| up_of(*label)).max().unwrap_or(0)
}

// The best choice that carries the start, or that none does.
// Where nothing is chosen no lag is positive, so nothing is to be carried, and the empty choice is the only one.
// Kept: `Choosing` is a clause and no ghost field, as it holds `Sure`, which has a walk for each gate in it; so the counts stand beside the move, here and in `choose`.
fn best(of: Move<'_>, counts: &[u32], base: &[u32], k: u32) -> Option<u32>
    requires { Choosing of.net.now of.lab.now counts.now base.now k }
    ensures { Chooses of.entry.net.now (lags_of of.entry.lab.now) result }
{
    if k == 0 {
        return Some(0);
    }
    let edges = of.net.edges as usize;
    searched(&Task {
        of,
        counts: &counts[..edges],
        base: &base[..edges + 1],
        k,
        clocks: top_of(&of.lab[..of.net.nodes as usize]),
    })
}

// The chosen start values of each edge as words, bit t for clock t: those of the best choice that carries the start. None where no choice does.
pub fn choose(of: Move<'_>, counts: &[u32], base: &[u32], k: u32) -> Option<[u32; EDGES]>
    requires { Choosing of.net.now of.lab.now counts.now base.now k }
    ensures { Chosen of.entry.net.now (lags_of of.entry.lab.now) result }
{
    let number = best(of, counts, base, k)?;
    let choice = Choice { number, bits: k };
    Some(choice.words(&base[..of.net.edges as usize + 1]))
}
