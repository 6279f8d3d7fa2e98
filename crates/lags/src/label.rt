// Labels: a label is 16,384 and the lag, so that all labels are natural numbers.
// Required of `lag_of`: a label whose lag fits 16 bits, which `least` promises of every label.
ghost use Rattle.std.specs.Prelude.{◌≡◌, ◌<◌};
ghost use Rattle.theory.specs.Lag.{up};
ghost use Rattle.lags.specs.inner.Lags.{lag_of};

// Above every distance from a pin: 511 edges of 32 registers are 16,352.
pub const BIAS: u32 = 16384;

// The same, with a sign, as lags have.
const SIGNED_BIAS: i32 = BIAS as i32;

// The lag of a label where it is positive, else 0.
pub fn up_of(label: u32) -> u32
    ensures { result ≡ up (lag_of label) }
{
    label.saturating_sub(BIAS)
}

// The lag of a label.
// Kept: `as`, since no `From` makes an i32 of a u32; by what is required nothing is lost.
pub fn lag_of(label: u32) -> i32
    requires { label < 32768 }
    ensures { result ≡ lag_of label }
{
    (label as i32) - SIGNED_BIAS
}
