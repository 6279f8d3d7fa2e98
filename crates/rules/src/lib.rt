// The rules of one line: numbers in range, the gate table, bits below the count. Definitions: specs/Rules.
#![tactic(auto)]

ghost use Rattle.std.specs.Prelude.{◌≡◌, ◌^◌, ltb, leb, get_or};
ghost use Rattle.frame.specs.Frame.{within};
ghost use Rattle.rules.specs.Rules.{rule_of, head_fits, node_fits, edge_fits};

mod kind;

pub use kind::{Kind, UnknownKind};

// What a gate kind allows: smallest and largest number of in-edges, smallest and largest delay.
#[derive(Clone, Copy)]
pub struct Rule {
    pub fewest: u8,
    pub most: u8,
    pub low: u8,
    pub high: u8,
}

impl Rule {
    fn allows_ins(self, ins: u16) -> bool
        ensures { result ≡ within self.fewest self.most ins }
    {
        (u16::from(self.fewest)..=u16::from(self.most)).contains(&ins)
    }

    fn allows_delay(self, delay: u8) -> bool
        ensures { result ≡ within self.low self.high delay }
    {
        (self.low..=self.high).contains(&delay)
    }
}

// "N 2 to 512, E 1 to 1,024."
// Kept: graph's `NODES` and `EDGES`, as a head's numbers: neither of the two crates lies below the other.
const NODES: u16 = 512;

const EDGES: u16 = 1024;

// Rule 2.
// Kept: four numbers and no struct: the record that C lends has them side by side, so a head would be filled at each call and taken apart at once.
#[tactic(auto, unfolding(crate::specs::Rules::head_fits))]
pub fn head_fits(period: u16, derate: u8, nodes: u16, edges: u16) -> bool
    ensures { result ≡ head_fits period derate nodes edges }
{
    1 <= period
        && (50..=250).contains(&derate)
        && (2..=NODES).contains(&nodes)
        && (1..=EDGES).contains(&edges)
}

// Rule 3.
// Kept: the number as a line has it, not a `Kind`: that it is a kind's is what the rule decides.
#[tactic(auto, unfolding(crate::specs::Rules::node_fits))]
pub fn node_fits(kind: u8, delay: u8) -> bool
    ensures { result ≡ node_fits kind delay }
{
    Kind::try_from(kind).is_ok_and(|kind| kind.rule().allows_delay(delay))
}

// "Bits at or above the count are 0", by leading zeros.
pub fn bits_fit(word: u32, count: u8) -> bool
    ensures { result ≡ ltb word (2 ^ count) }
{
    32u32.saturating_sub(u32::from(count)) <= word.leading_zeros()
}

// Rule 4. `kinds` are the gate kinds of the nodes; a node past the last of them is taken for an input, as specs/Rules takes it.
// Kept: an edge's numbers and no struct, as in `head_fits`.
#[tactic(auto, unfolding(crate::specs::Rules::edge_fits))]
pub fn edge_fits(kinds: &[u8], nodes: u16, u: u16, v: u16, count: u8, start: u32) -> bool
    ensures { result ≡ edge_fits nodes (λ i. get_or kinds.now i 0) u v count start }
{
    u < nodes
        && v < nodes
        && count <= 32
        && bits_fit(start, count)
        && kinds
            .get(u as usize)
            .is_none_or(|kind| *kind != Kind::Output as u8)
        && kinds
            .get(v as usize)
            .is_some_and(|kind| *kind != Kind::Input as u8)
}

// Rule 5: whether a node of this kind may have so many in-edges.
// Kept: the number as the record has it. The contract holds of every number, and specs/Rules gives those past the last kind the last kind's rule.
pub fn fan_fits(kind: u8, ins: u16) -> bool
    ensures { result ≡ within (rule_of kind).fewest (rule_of kind).most ins }
{
    let known = Kind::try_from(kind).unwrap_or(Kind::Selector);
    known.rule().allows_ins(ins)
}

// Whether a node of this kind is an input or an output.
// Kept: the number as the record that C lends has it; a `Kind` would be made of it at each call, to be compared once.
pub fn is_pin(kind: u8) -> bool
    ensures { result ≡ leb kind 1 }
{
    kind <= Kind::Output as u8
}
