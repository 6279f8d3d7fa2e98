// What the program `listing` prints of a text: the new text and a line for each node's lag, or the line of a refusal. The promise is in specs/Listed.
ghost use Rattle.std.specs.Prelude.{◌≡◌, [], ◌∷◌, ◌++◌, ℕ, ◌+◌, ◌≤◌, ◌<◌, length, get_or, pos};
ghost use Rattle.std.proofs.lemmas.List.Edits.{sets};
ghost use Rattle.theory.specs.Lag.{up, down};
ghost use Rattle.frame.specs.Frame.{bytes_of};
ghost use Rattle.netlist.specs.Write.{joined};
ghost use Rattle.printing.specs.Listed.{twos, lag_line, PrintsWhole};
ghost use Rattle.printing.specs.inner.Lists.{Lists};

use crate::refusals::put_refusal;
use crate::{LAG_LINE, LONGEST, Printed, ROOM};
use graph::NODES;
use netlist::written_len;

// The bytes of the line of a node's lag: "lag (2, two's complement)".
fn lag_bytes(node: u16, lag: i16) -> [u8; 5]
    ensures { result ≡ (4 ∷ []) ++ bytes_of 2 node ++ bytes_of 2 (twos lag) }
{
    let mut bytes = [4; 5];
    bytes[1..3].copy_from_slice(&node.to_be_bytes());
    bytes[3..].copy_from_slice(&lag.to_be_bytes());
    bytes
}

// The lines of the lags, from the cursor `at`; the cursor past them.
// Kept: as netlist `put_nodes`: a bound `Fn` that names a const parameter gets no proof.
fn put_lag_lines(lags: &[i32], out: &mut [u8], at: usize) -> usize
    requires nodes_bound { (length lags.now ≤ 512) × (at + length (joined (lag_line lags.now) (length lags.now)) ≤ length out.old) }
    requires by_index { (v : ℕ) → v < length lags.now → (up (get_or lags.now v (pos 0)) < 32768) × (down (get_or lags.now v (pos 0)) ≤ 32768) }
    ensures out_after { out.new ≡ sets out.old at (joined (lag_line lags.now) (length lags.now)) }
    ensures value { result ≡ at + length (joined (lag_line lags.now) (length lags.now)) }
{
    for (v, lag) in lags.iter().enumerate() {
        let line = lag_bytes(v as u16, *lag as i16);
        frame::put_line(out, at + LAG_LINE * v, &line);
    }
    at + LAG_LINE * lags.len()
}

// A text retimed and listed at the front of `out`, which has room for the text and the lags of 512 nodes; how many bytes that took.
// The lines of the lags begin where the new text ends.
fn list(text: &[u8], out: &mut [u8]) -> usize
    requires { length text.now + 5632 ≤ length out.old }
    ensures { Lists text.now out.old result out.new }
{
    let mut lags = [0; NODES];
    if let Err(reason) = retime::retime(text, out, &mut lags) {
        return put_refusal(reason, out);
    }
    // Kept: retiming promises no netlist, so how many nodes there are is read again.
    match netlist::read(text) {
        Ok(net) => put_lag_lines(&lags[..usize::from(net.nodes)], out, written_len(net)),
        Err(reason) => put_refusal(reason, out),
    }
}

// What the program `listing` prints of a text, of any length.
pub fn listing(text: &[u8]) -> Printed
    ensures { PrintsWhole text.now result }
{
    let mut bytes = [0; ROOM];
    let looked_at = text.len().min(LONGEST);
    let len = list(&text[..looked_at], &mut bytes);
    Printed { len, bytes }
}
