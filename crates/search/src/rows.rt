// What is due, put in rows: a row is what is due of one edge at one level, a moved clock each. Rows of lower levels come first.
// Private to the crate: `search_lists` has the levels that are asked for.
ghost use Rattle.std.specs.Prelude.{◌≡◌, [], ◌++◌, ℕ, suc, ◌+◌, ◌-◌, ◌/◌, ◌<◌, ◌≤◌, length, take};
ghost use Rattle.graph.specs.Columns.{at};
ghost use Rattle.search.specs.inner.Program.{rows_of, total_of};
ghost use Rattle.search.specs.inner.Rows.{Level, of_level, RowsEnd, Rows, SameDues};

use crate::LEVELS;
use crate::program::Problem;
use graph::Items;

// The level of each cell: those of level m stand from levels[m] up to levels[m + 1].
pub fn put_levels(levels: &[u16], level: &mut [u8])
    requires rising { (m : ℕ) → suc m < length levels.now → at levels.now m ≤ at levels.now (suc m) }
    requires room { (0 < length levels.now) × (length levels.now ≤ 257) × (at levels.now 0 ≡ 0) × (total_of levels.now ≤ length level.old) }
    ensures { (i : ℕ) → i < total_of levels.now → Level levels.now (rows_of levels.now) i (at level.new i) }
{
    for m in 0..levels.len() - 1 {
        level[levels[m] as usize..levels[m + 1] as usize].fill(m as u8);
    }
}

// Those of some dues that ask cells of level m.
// Kept: D is bounded where a size is named (`search_within`, `DueRows::new`), and here, where the items are lent without the rows; `DueRows` holds it as a fact.
fn push_dues<const D: usize>(due: &[u16], level: &[u8], m: u8, row: &mut Items<D>)
    requires asks { (x : ℕ) → x < length due.now → at due.now x / 2 < length level.now }
    requires room { (length row.old + length (of_level level.now m due.now) ≤ D) × (D ≤ 24576) }
    ensures { row.new ≡ row.old ++ of_level level.now m due.now }
{
    for x in due {
        if level[(*x / 2) as usize] == m {
            row.push(*x);
        }
    }
}

// How much of a row is left at each of its places.
fn put_left(left: &mut [u8])
    requires { length left.old ≤ 255 }
    ensures { (d : ℕ) → d < length left.old → d + at left.new d ≡ length left.old }
{
    let end = left.len();
    for d in 0..end {
        left[d] = (end - d) as u8;
    }
}

// The rows that are put so far, by the level of each cell: the dues, and at each of their places how much of its row is left.
// Kept: `left` beside `row`, and no column of pairs: `Items` holds numbers, and the laws (`SameDues`, `of_level`) are of the dues alone.
#[derive(Drop)]
pub struct DueRows<'a, const D: usize> {
    problem: Problem<'a>,
    level: &'a [u8],
    pub row: Items<D>,
    pub left: [u8; D],
    ghost few: { D ≤ 24576 },
    ghost leveled: { length problem.program.kind.now ≤ length level.now },
    ghost ends: { RowsEnd left 0 (length row) },
}

impl<'a, const D: usize> DueRows<'a, D> {
    // No row yet.
    pub fn new(problem: Problem<'a>, level: &'a [u8]) -> Self
        requires { (length problem.program.kind.now ≤ length level.now) × (D ≤ 24576) }
        ensures { (result.problem ≡ problem.entry) × (result.level ≡ level.entry) × (result.row ≡ []) }
    {
        DueRows {
            problem,
            level,
            row: Items::new(),
            left: [0; D],
        }
    }

    // The row of these dues, as far as they ask cells of level m.
    fn push_row(&mut self, due: &[u16], m: u8)
        requires asks { (x : ℕ) → x < length due.now → at due.now x / 2 < length self.old.level.now }
        requires room { length self.old.row + length (of_level self.old.level.now m due.now) ≤ D }
        requires few { length due.now ≤ 255 }
        ensures row { self.new.row ≡ self.old.row ++ of_level self.old.level.now m due.now }
        ensures same { (self.new.problem ≡ self.old.problem) × (self.new.level ≡ self.old.level) }
    {
        let start = self.row.len();
        push_dues(due, self.level, m, &mut self.row);
        let end = self.row.len();
        let left = &mut self.left[..];
        put_left(&mut left[start..end]);
    }

    // The rows of level m, edge by edge.
    fn push_level(&mut self, m: u8)
        requires { length self.old.row + length (of_level self.old.level.now m (take (total_of self.old.problem.owed.begin.now) self.old.problem.owed.due.now)) ≤ D }
        ensures row { self.new.row
            ≡ self.old.row ++ of_level self.old.level.now m (take (total_of self.old.problem.owed.begin.now) self.old.problem.owed.due.now) }
        ensures same { (self.new.problem ≡ self.old.problem) × (self.new.level ≡ self.old.level) }
    {
        let problem = self.problem;
        for e in 0..problem.owed.begin.len() - 1 {
            self.push_row(problem.row(e), m);
        }
    }

    // All rows, level by level. Where those of each level begin.
    // Kept: the levels stand whole, as in `Extent`.
    pub fn push_levels(&mut self, many: usize) -> [u16; LEVELS]
        requires none { self.old.row ≡ [] }
        requires asks { (x : ℕ) → x < total_of self.old.problem.owed.begin.now → at self.old.level.now (at self.old.problem.owed.due.now x / 2) < many }
        requires room { (total_of self.old.problem.owed.begin.now ≤ D) × (many < 26) }
        ensures rows { Rows many self.old.level.now self.new.row self.new.left result }
        ensures whole { at result many ≡ length self.new.row }
        ensures same_dues { SameDues self.old.problem.owed.due.now (total_of self.old.problem.owed.begin.now) self.new.row (at result many) }
    {
        let mut rows = [0u16; LEVELS];
        for m in 0..many {
            rows[m] = self.row.len() as u16;
            self.push_level(m as u8);
        }
        rows[many] = self.row.len() as u16;
        rows
    }
}
