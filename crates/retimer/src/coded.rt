// Answers as numbers.
ghost use Rattle.std.specs.Prelude.{◌≡◌, ◌<◌};
ghost use Rattle.netlist.specs.Answer.{says, refusal};
ghost use Rattle.retimer.specs.Code.{code, place};

use netlist::{Place, Refusal};

// A place's kind and number.
// Kept, here and below: an answer is one number, as the C interface has no enum; specs/Code gives it by this sum, and its bytes would have to be put one by one for
// `from_be_bytes`.
fn place_code(p: Place) -> u64
    ensures value { result ≡ place p }
    ensures upper_bound { result < 262144 }
{
    u64::from(p.kind()) * 65536 + u64::from(p.index())
}

// A refusal's number.
pub fn refusal_code(reason: Refusal) -> u64
    ensures { result ≡ code (refusal reason) }
{
    9223372036854775808 + u64::from(reason.number()) * 4294967296 + place_code(reason.place())
}

// An answer's number.
pub fn answer_code(answer: Result<usize, Refusal>) -> u64
    ensures { result ≡ code (says answer) }
{
    match answer {
        Ok(n) => n as u64,
        Err(reason) => refusal_code(reason),
    }
}
