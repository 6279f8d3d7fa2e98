// The edges in the evaluation order of the nodes that they leave.
// Required: columns that are long enough, ends of edges and places of the order that are nodes. Whatever the order, the list has every edge.
ghost use Rattle.std.specs.Prelude.{◌≡◌, ℕ, ◌≤◌, ◌<◌, length, All};
ghost use Rattle.graph.specs.Columns.{at};
ghost use Rattle.graph.specs.inner.Sort.{EachEdge, Places, place_at};

use crate::{EDGES, NODES, column, edges_by_node};

// For each node the last place at which it stands in a list of nodes; none where it stands nowhere.
pub fn places_of(list: &[u16]) -> [Option<u16>; NODES]
    requires { (length list.now ≤ 512) × All (λ v. v < 512) list.now }
    ensures { Places list.now (length list.now) result }
{
    let mut place = [None; NODES];
    for (p, v) in list.iter().enumerate() {
        place[*v as usize] = Some(p as u16);
    }
    place
}

// For each edge the place of the node that it leaves. (Each node has a place, so 0 is none's.)
fn place_keys(from: &[u16], place: &[Option<u16>; NODES]) -> [u16; EDGES]
    requires { (length from.now ≤ 1024) × All (λ v. v < 512) from.now }
    ensures { (e : ℕ) → e < length from.now → at result e ≡ place_at place.now (at from.now e) }
{
    column(from.len(), 0, |e| place[from[e] as usize].unwrap_or(0))
}

// `from` has all edges and no more, and `order` all nodes.
pub fn edges_along(from: &[u16], order: &[u16]) -> [u16; EDGES]
    requires nodes_bound { (length order.now ≤ 512) × ((p : ℕ) → p < length order.now → at order.now p < length order.now) }
    requires edges_bound { (length from.now ≤ 1024) × ((e : ℕ) → e < length from.now → at from.now e < length order.now) }
    ensures { EachEdge result (length from.now) }
{
    let place = places_of(order);
    let key = place_keys(from, &place);
    edges_by_node(&key, order.len(), from.len()).list
}
