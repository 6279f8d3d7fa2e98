// What is printed of a refusal.
ghost use Rattle.std.specs.Prelude.{◌≡◌, ◌∷◌};
ghost use Rattle.io.specs.Counts.{IsPrefixLen};
ghost use Rattle.frame.specs.Frame.{bytes_of, placed};
ghost use Rattle.netlist.specs.Answer.{refused, kind_of, index_of, refusal};
ghost use Rattle.printing.specs.Shown.{refusal_line, line_in};

use crate::fronts::put_front;
use netlist::{Place, Refusal};

// The bytes of the line of a refusal.
fn refusal_bytes(number: u8, place: Place) -> [u8; 5]
    ensures { result ≡ 15 ∷ number ∷ kind_of place ∷ bytes_of 2 (index_of place) }
{
    let mut bytes = [15, number, place.kind(), 0, 0];
    bytes[3..].copy_from_slice(&place.index().to_be_bytes());
    bytes
}

// The line of a refusal of any number at any place, at the front of `out`, where there is room for it; how many bytes that took.
pub fn put_refused(number: u8, place: Place, out: &mut [u8]) -> usize
    ensures out_after { out.new ≡ placed out.old 0 (refusal_line (refused number (kind_of place) (index_of place))) }
    ensures value { result ≡ line_in (refusal_line (refused number (kind_of place) (index_of place))) out.old }
    ensures prefix_len { IsPrefixLen result out.new }
{
    put_front(&refusal_bytes(number, place), out)
}

// The same of one of the paper's refusals.
pub fn put_refusal(reason: Refusal, out: &mut [u8]) -> usize
    ensures out_after { out.new ≡ placed out.old 0 (refusal_line (refusal reason)) }
    ensures value { result ≡ line_in (refusal_line (refusal reason)) out.old }
    ensures prefix_len { IsPrefixLen result out.new }
{
    put_refused(reason.number(), reason.place(), out)
}
