// Two questions about a graph: how many edges enter each node, whether a time is above the period.
ghost use Rattle.std.specs.Prelude.{◌≡◌, List, ℕ, ◌<◌, length};
ghost use Rattle.graph.specs.Columns.{at, fan_in};
ghost use Rattle.graph.specs.Wires.{wires_graph};
ghost use Rattle.graph.specs.Layers.{Told};
ghost use Rattle.graph.specs.inner.Marks.{Above};

use crate::sort::count_keys;
use crate::{NODES, Wires};

// How many edges enter each node.
pub fn fan_ins(wires: Wires<'_>) -> [u16; NODES]
    ensures { (kind : List ℕ) (v : ℕ) → v < wires.entry.nodes → at result v ≡ fan_in (wires_graph kind wires.entry) v }
{
    let mut ins = [0u16; NODES];
    count_keys(&wires.to[..wires.edges], &mut ins);
    ins
}

// Whether one of the times is above the period.
pub fn any_above(time: &[u32], period: u32) -> bool
    ensures { Told result (Above time.now (length time.now) period) }
{
    time.iter().any(|t| period < *t)
}
