// The search of rules 3, 4, 5 and 7: the lowest node or edge that breaks a rule.
// Private to the crate: what is required says that the test may be asked of each of them.
ghost use Rattle.std.specs.Prelude.{ℕ, ◌<◌};
ghost use Rattle.netlist.specs.inner.Stages.{Found};

// The lowest of the numbers below `n` that breaks the rule.
pub fn lowest<F: Fn(usize) -> bool>(n: usize, keeps: F) -> Option<usize>
    requires { (v : ℕ) → v < n → F.pre keeps v }
    ensures { Found n (F.post keeps) result }
{
    for v in 0..n {
        if !keeps(v) {
            return Some(v);
        }
    }
    None
}
