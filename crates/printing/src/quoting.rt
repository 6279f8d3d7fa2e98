// What is printed of a quote: its line, or the line of its refusal. The promise is in specs/Quoted.
ghost use Rattle.std.specs.Prelude.{◌≡◌, [], ◌∷◌, ◌++◌};
ghost use Rattle.io.specs.Counts.{IsPrefixLen};
ghost use Rattle.frame.specs.Frame.{bytes_of};
ghost use Rattle.printing.specs.Quoted.{PrintsQuote};

use crate::fronts::put_front;
use crate::refusals::put_refusal;
use quote::Quoted;

// The bytes of the line of a quote.
fn quote_bytes(quote: Quoted) -> [u8; 15]
    ensures { result ≡ (9 ∷ []) ++ bytes_of 2 quote.period ++ bytes_of 4 quote.registers ++ bytes_of 4 quote.largest ++ bytes_of 4 quote.number }
{
    let mut bytes = [9; 15];
    bytes[1..3].copy_from_slice(&quote.period.to_be_bytes());
    bytes[3..7].copy_from_slice(&quote.registers.to_be_bytes());
    bytes[7..11].copy_from_slice(&quote.largest.to_be_bytes());
    bytes[11..].copy_from_slice(&quote.number.to_be_bytes());
    bytes
}

// A text's quote, or the line of its refusal, at the front of `out`, where there is room for it; how many bytes that took.
pub fn put_quote(text: &[u8], out: &mut [u8]) -> usize
    ensures prints_quote { PrintsQuote text.now out.old result out.new }
    ensures prefix_len { IsPrefixLen result out.new }
{
    match quote::quote(text) {
        Ok(quote) => put_front(&quote_bytes(quote), out),
        Err(reason) => put_refusal(reason, out),
    }
}
