// The search over rows.
// Private to the crate: `search_within` makes the plan that it asks for.
//
// Signals: what each operand shows, the chosen bit x at x and the value of cell i at 32 + i.
ghost use Rattle.std.specs.Prelude.{◌≡◌, ℕ, ◌↔◌, ◌+◌, ◌-◌, ◌^◌, ◌≤◌, ◌<◌, true, length};
ghost use Rattle.theory.specs.Move.{Prefers};
ghost use Rattle.graph.specs.Columns.{at};
ghost use Rattle.search.specs.inner.Program.{operands_of, asked, Fillable, SolvesLists};
ghost use Rattle.search.specs.inner.Problem.{columns_of};
ghost use Rattle.search.specs.inner.States.{next_after, ChoiceShown, Truthful, CanEvaluate, EvaluatedTo, Advanced, Jumped, filled, ListOf, Better, Plan, Fresh};

use crate::{LEVELS, Program, SHOWN};
use gates::{Gate, IndexTable};

// How far the search goes: the limit of choices, how many dues there are, and where the cells and the dues of each level begin.
// Kept: the levels stand whole: that there are bits + 1 of them the program says, and the search looks them up by a bit's place.
#[derive(Clone, Copy)]
pub struct Extent {
    pub limit: u32,
    pub dues: usize,
    pub levels: [u16; LEVELS],
    pub rows: [u16; LEVELS],
}

// A program made ready: with the truth words of its gates, and the table that picks their bits.
#[derive(Clone, Copy)]
pub struct Cells<'a> {
    pub program: Program<'a>,
    pub truth: &'a [u16],
    pub index: &'a IndexTable,
    pub ghost truth_rows: { length program.kind.now ≤ length truth.now },
    pub ghost truths: { Truthful program.kind.now program.first.now truth.now },
}

impl<'a> Cells<'a> {
    // The gate of cell i.
    // Kept: beside gates `GateList::gate`: that type lists the gates that are evaluated, and a search evaluates a range.
    fn gate(self, i: usize) -> Gate<'a>
        requires { i < length self.program.kind.now }
        ensures truth { result.truth ≡ at self.entry.truth.now i }
        ensures sees { result.sees.now ≡ operands_of self.entry.program.first.now self.entry.program.operand.now i }
    {
        Gate {
            truth: self.truth[i],
            index: self.index,
            sees: self.program.operands(i),
        }
    }
}

// What is due, in rows: the level of each cell, the dues, and at each of their places how much is left of its row.
// Kept: columns side by side, as in `DueRows`.
#[derive(Clone, Copy)]
pub struct Rows<'a> {
    pub level: &'a [u8],
    pub row: &'a [u16],
    pub left: &'a [u8],
}

// Where the search goes on: a choice, the first cell to evaluate, the first due to look at.
#[derive(Clone, Copy)]
struct Turn {
    choice: u32,
    cell: usize,
    due: usize,
}

// 2 ^ k.
pub fn two_to(k: u32) -> u32
    requires { k ≤ 24 }
    ensures { result ≡ 2 ^ k }
{
    1 << k
}

// The cells from `start` up to `end`, in turn. The larger of the two.
// Kept: two lines beside the two of `gates::evaluate`, which goes through a list of gates and this one through a range; over any iterator the two laws (`evaluated`,
// `EvaluatedTo`) would be of what it yields, no plainer. And places, no slice: what the cells from `start` on see stands before it.
fn evaluate(cells: &Cells<'_>, start: usize, end: usize, sig: &mut [u8]) -> usize
    requires { CanEvaluate cells.now.program.bits (columns_of cells.now.program) start end sig.old }
    ensures { EvaluatedTo cells.now.program.bits (columns_of cells.now.program) start end sig.old sig.new result }
{
    let cells = *cells;
    for i in start..end {
        sig[SHOWN + i] = cells.gate(i).value(sig);
    }
    start.max(end)
}

// The first choice that differs from this one in a bit from place b up.
fn next_after(choice: u32, b: u32) -> u32
    requires { (choice < 2 ^ 24) × (b ≤ 24) }
    ensures { result ≡ next_after choice b }
{
    ((choice >> b) + 1) << b
}

// The bits of the first choice after this one that differs in one of the first m: those from place m on turn to 0, and so do the 1s next before them;
// the 0 before these turns to 1. The place after that one; 0 where there is none.
// Kept: 0 and no None: it is how many of the first bits stand up to the one that turned, and `jump` looks up the levels by it, 0 as any other.
// Kept, here, in `jump` and in `list_of`: the bits' number and the signals as two, as the signals are lent for writing.
fn advance(k: usize, m: usize, sig: &mut [u8]) -> usize
    requires { (m ≤ k) × (k ≤ length sig.old) }
    ensures { Advanced k m sig.old sig.new result }
{
    for x in (0..k).rev() {
        if x < m && sig[x] != 1 {
            sig[x] = 1;
            return x + 1;
        }
        sig[x] = 0;
    }
    0
}

// On to the first choice of k bits that differs in one of the first m, and there to the first cell and the first due that depend on a changed bit.
fn jump(choice: u32, k: u32, m: u32, e: &Extent, sig: &mut [u8]) -> Turn
    requires { (choice < 2 ^ k) × (k ≤ 24) × (m ≤ k) × ChoiceShown k choice sig.old × (k ≤ length sig.old) }
    ensures { Jumped choice k m e.now.levels e.now.rows sig.old sig.new result }
{
    let x = advance(k as usize, m as usize, sig);
    Turn {
        choice: next_after(choice, k - m),
        cell: e.levels[x] as usize,
        due: e.rows[x] as usize,
    }
}

// A filling: what the cell that asks for it shows; 0, where none does.
fn filling(place: Option<u16>, sig: &[u8]) -> u32
    requires { (i : ℕ) → place ≡ Some i → 32 + i < length sig.now }
    ensures { result ≡ filled sig.now place }
{
    match place {
        Some(cell) => u32::from(sig[SHOWN + cell as usize]),
        None => 0,
    }
}

// The list of a choice under which all cells are evaluated: the fillings, then the choice itself.
fn list_of(choice: u32, k: u32, fill: &[Option<u16>], sig: &[u8]) -> u32
    requires choice_bound { (choice < 2 ^ k) × (length fill.now + k ≤ 24) }
    requires by_index { (x i : ℕ) → asked fill.now x ≡ Some i → (32 + i < length sig.now) × (at sig.now (32 + i) ≤ 1) }
    ensures { ListOf k fill.now sig.now choice result }
{
    let mut fillings = 0;
    for place in fill {
        fillings = 2 * fillings + filling(*place, sig);
    }
    (fillings << k) + choice
}

// Whether the list a is taken before the list b.
fn prefers(a: u32, b: u32) -> bool
    ensures { result ≡ true ↔ Prefers a b }
{
    a < b
}

// The better of the best list so far and another.
fn better(kept: Option<u32>, list: u32) -> u32
    ensures { Better kept list result }
{
    match kept {
        Some(best) if !prefers(list, best) => best,
        _ => list,
    }
}

// "A choice is dropped at its first register value that disagrees": then the search goes on with the next choice that differs in a bit on which
// that value depends. Where all agree, the choice's list is compared with the best so far; one whose fillings are all 0 ends the search, as no later one is preferred.
pub fn best_list(
    cells: Cells<'_>,
    rows: Rows<'_>,
    fill: &[Option<u16>],
    e: Extent,
    sig: &mut [u8],
) -> Option<u32>
    requires planned { Plan cells.program.bits e (columns_of cells.program) rows.level.now rows.row.now rows.left.now }
    requires fresh { Fresh (length cells.program.kind.now) sig.old }
    requires fillable { Fillable (length cells.program.kind.now) cells.program.bits fill.now }
    ensures { SolvesLists cells.entry.program.bits (columns_of cells.entry.program) rows.entry.row.now e.dues fill.now result }
{
    let k = cells.program.bits;
    let mut best = None;
    let mut turn = Turn {
        choice: 0,
        cell: 0,
        due: 0,
    };
    // Kept: the search goes on where a jump says, so no range counts its loops: they nest over edges and their moved clocks, and are left by a label.
    // The inner one counts its due itself, as that is where the search goes on.
    'search: while turn.choice < e.limit {
        // Edges, those first whose values depend on few leading bits; and of each its moved clocks.
        while turn.due < e.dues {
            let end = turn.due + rows.left[turn.due] as usize;
            while turn.due < end {
                let due = rows.row[turn.due];
                let i = (due / 2) as usize;
                turn.cell = evaluate(&cells, turn.cell, i + 1, sig);
                if u16::from(sig[SHOWN + i]) != due % 2 {
                    turn = jump(turn.choice, k, u32::from(rows.level[i]), &e, sig);
                    continue 'search;
                }
                turn.due += 1;
            }
        }
        evaluate(&cells, turn.cell, cells.program.kind.len(), sig);
        let list = list_of(turn.choice, k, fill, sig);
        best = Some(better(best, list));
        if list < e.limit {
            return best;
        }
        turn = jump(turn.choice, k, k, &e, sig);
    }
    best
}
