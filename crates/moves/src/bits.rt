// A word of start values, put together bit by bit.
// Required: a word that has no bit yet from place t up, which whoever puts its bits in order has.
ghost use Rattle.std.specs.Prelude.{◌≡◌, ◌+◌, ◌*◌, ◌^◌, ◌≤◌, ◌<◌};

// A word of t bits with one more on top.
pub fn put_bit(word: u32, t: u32, x: u32) -> u32
    requires { (t < 32) × (word < 2 ^ t) × (x ≤ 1) }
    ensures { result ≡ word + x * 2 ^ t }
{
    word + (x << t)
}
