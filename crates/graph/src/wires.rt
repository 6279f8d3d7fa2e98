// The wires of a graph in columns: for each edge the node that it leaves and the node that it enters.
ghost use Rattle.std.specs.Prelude.{◌≡◌, ◌<◌, ◌≤◌, length};
ghost use Rattle.graph.specs.inner.Laid.{Laid};

// `laid` is what reading makes sure of, and what every walk over the columns goes by.
// Kept: the columns stand whole beside how many edges count: cut, each law of the crates above would speak of `take edges net.from`, no plainer.
#[derive(Clone, Copy)]
pub struct Wires<'a> {
    pub nodes: usize,
    pub edges: usize,
    pub from: &'a [u16],
    pub to: &'a [u16],
    pub ghost laid: { Laid nodes edges from.now to.now },
}

impl<'a> Wires<'a> {
    // Every edge turned round.
    pub fn reversed(self) -> Wires<'a>
        ensures nodes { (result.nodes ≡ self.entry.nodes) × (result.edges ≡ self.entry.edges) }
        ensures ends { (result.from.now ≡ self.entry.to.now) × (result.to.now ≡ self.entry.from.now) }
    {
        Wires {
            nodes: self.nodes,
            edges: self.edges,
            from: self.to,
            to: self.from,
        }
    }
}
