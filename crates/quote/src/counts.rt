// What the counts of a netlist come to.
ghost use Rattle.std.specs.Prelude.{◌≡◌, ℕ, ◌<◌, ◌≤◌, ◌^◌, length, sum};
ghost use Rattle.graph.specs.Columns.{at};

// "the register total".
pub fn total(counts: &[u32]) -> u32
    requires { sum counts.now < 2 ^ 32 }
    ensures { result ≡ sum counts.now }
{
    counts.iter().sum()
}

// "the largest count on an edge"
pub fn largest(counts: &[u32]) -> u32
    ensures above { (i : ℕ) → i < length counts.now → at counts.now i ≤ result }
    ensures least { (b : ℕ) → ((i : ℕ) → i < length counts.now → at counts.now i ≤ b) → result ≤ b }
{
    counts.iter().copied().max().unwrap_or(0)
}
