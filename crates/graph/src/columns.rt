// Columns: one number for each node or edge, made of what stands at its place elsewhere.
ghost use Rattle.std.specs.Prelude.{◌≡◌, ℕ, ◌≤◌, ◌<◌, slice_index_or};

// The first `count` places have what `of` makes of each; `empty` stands behind them.
pub fn column<T: Copy, const N: usize, F: Fn(usize) -> T>(count: usize, empty: T, of: F) -> [T; N]
    requires few { count ≤ N }
    requires made { (i : ℕ) → i < count → F.pre of i }
    ensures made_of { (i : ℕ) → i < count → F.post of i (slice_index_or result i empty) }
    ensures behind { (i : ℕ) → count ≤ i → slice_index_or result i empty ≡ empty }
{
    let mut out = [empty; N];
    for i in 0..count {
        out[i] = of(i);
    }
    out
}
