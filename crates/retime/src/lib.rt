// Retiming. The promises are in specs/: Retime, Demand, Theorems, Card.
#![tactic(auto)]

ghost use Rattle.std.specs.Prelude.{◌≡◌, [], ◌∷◌, ◌++◌, ℕ, ◌≤◌, ◌<◌, length, drop, All};
ghost use Rattle.std.proofs.lemmas.List.Edits.{sets};
ghost use Rattle.graph.specs.Columns.{at};
ghost use Rattle.netlist.specs.Answer.{value, says, holds};
ghost use Rattle.netlist.specs.Read.{Reads};
ghost use Rattle.netlist.specs.Write.{joined, text_of, text_in};
ghost use Rattle.netlist.specs.Circuit.{SoundIn};
ghost use Rattle.simulate.specs.inner.Ran.{Steppable};
ghost use Rattle.lags.specs.inner.Lags.{Sure};
ghost use Rattle.moves.specs.inner.Labels.{lags_of};
ghost use Rattle.retime.specs.Retime.{LeastLags, lag_table, MovedBy, Room, Retimes};
ghost use Rattle.retime.specs.Demand.{Demand3};
ghost use Rattle.retime.specs.inner.Leaves.{FromShort, Leaves, MovesTo};

use choose::choose;
use lags::{lag_of, least};
use moves::{MOST_CHOSEN, Move, too_wide};
use netlist::{Netlist, Refusal, written_len};
use starts::moved;

// A moved netlist, and how many start values were chosen.
#[derive(Clone, Copy)]
struct Retimed {
    net: Netlist,
    chosen: usize,
}

// A netlist moved by its least labels: 9, 10 or 11, or the moved netlist.
fn moved_by(least: Move<'_>) -> Result<Retimed, Refusal>
    requires sure { Steppable least.net.now × Sure least.net.now × SoundIn least.net.now }
    requires least_lags { LeastLags least.net.now (lags_of least.lab.now) }
    ensures { MovesTo least.entry.net.now (lags_of least.entry.lab.now) result }
{
    let edges = least.net.edges as usize;
    let counts = least.new_counts();
    if let Some(wide) = too_wide(&counts[..edges]) {
        return Err(Refusal::Count(wide as u16));
    }
    let base = least.chosen(&counts);
    let k = base[edges];
    if MOST_CHOSEN < k {
        return Err(Refusal::Choices);
    }
    let Some(words) = choose(least, &counts, &base, k) else {
        return Err(Refusal::Start);
    };
    Ok(Retimed {
        net: moved(least, &counts, &words),
        chosen: k as usize,
    })
}

// The lags of these labels at the front of the table.
fn put_lags(lab: &[u32], lags: &mut [i32])
    requires { (length lab.now ≤ length lags.old) × All (λ label. label < 32768) lab.now }
    ensures { lags.new ≡ joined (λ v. lags_of lab.now v ∷ []) (length lab.now) ++ drop (length lab.now) lags.old }
{
    for (v, label) in lab.iter().enumerate() {
        lags[v] = lag_of(*label);
    }
}

// Kept, here and below: two buffers that C lends side by side (`retimer_retime`); a struct of the two would be made at the top and taken apart at the end. The labels are the
// whole column that `least` gives.
// The text of a moved netlist, where there is room, and its lags at the fronts of `out` and `lags`.
fn put_both(net: Netlist, lab: &[u32], out: &mut [u8], lags: &mut [i32])
    requires nodes_in_bounds { (net.nodes ≤ length lab.now) × (net.nodes ≤ length lags.old) }
    requires by_index { (v : ℕ) → v < net.nodes → at lab.now v < 32768 }
    ensures out_after { out.new ≡ sets out.old 0 (text_in net (length out.old)) }
    ensures lags_after { lags.new ≡ holds (value 0) (lag_table net (lags_of lab.now)) lags.old }
{
    netlist::put_text(net, out);
    put_lags(&lab[..net.nodes as usize], lags);
}

// A netlist moved by its least labels and put out, with how many start values were chosen; or 9, 10 or 11.
fn retime_by(least: Move<'_>, out: &mut [u8], lags: &mut [i32]) -> Result<usize, Refusal>
    requires reads { Reads (text_of least.net.now) (value 0) least.net.now × LeastLags least.net.now (lags_of least.lab.now) }
    requires room { Room out.old lags.old least.net.now }
    ensures { Leaves (MovedBy least.entry.net.now) least.entry.net.now out.old lags.old (says result) out.new lags.new }
{
    let new = moved_by(least)?;
    put_both(new.net, least.lab, out, lags);
    Ok(new.chosen)
}

// A netlist that was read, retimed: 12, 8, 9, 10 or 11, or it is put out.
fn retime_net(net: Netlist, out: &mut [u8], lags: &mut [i32]) -> Result<usize, Refusal>
    requires { Reads (text_of net) (value 0) net }
    ensures { Leaves (FromShort out.old lags.old net) net out.old lags.old (says result) out.new lags.new }
{
    let nodes = usize::from(net.nodes);
    if out.len() < written_len(net) || lags.len() < nodes {
        return Err(Refusal::Room);
    }
    let Some(lab) = least(net, u32::from(net.period)) else {
        return Err(Refusal::Period);
    };
    let least = Move {
        net: &net,
        lab: &lab,
    };
    retime_by(least, out, lags)
}

// A text retimed: the new text at the front of `out`, each node's lag at the front of `lags`, and how many start values were chosen;
// or a refusal (1 to 7, 12, 8 to 11), which leaves both.
pub fn retime(text: &[u8], out: &mut [u8], lags: &mut [i32]) -> Result<usize, Refusal>
    ensures retimes { Retimes text.now out.old lags.old (says result) out.new lags.new }
    ensures demand3 { Demand3 text.now out.old lags.old (says result) out.new lags.new }
{
    let net = netlist::read(text)?;
    retime_net(net, out, lags)
}
