// The nodes that are followed: those that are still asked for, in evaluation order.
// Private to the crate: `follow` has them of a netlist that passed the rules.
ghost use Rattle.std.specs.Prelude.{◌≡◌, ◌⊎◌, ◌%◌, ◌<◌, ◌≤◌, length, All};
ghost use Rattle.graph.specs.inner.Lists.{Filtered};
ghost use Rattle.starts.specs.inner.Ring.{AskedAt};

use crate::BIAS;
use crate::ahead::SPELL;
use graph::{Items, NODES};

// Those of the nodes that are asked for at clock s, whose lag is below −s. They stay in their order.
// Kept, here and in `refresh`, `place`, `turn` and `stride`: the list and the clock side by side, with what is asked of the list: in `follow` the clock goes on and the
// list is looked through at times of their own, so a struct of the two would be made anew for each call. The slots beside them are lent for writing.
pub fn asked(list: &[u16], lab: &[u32], s: usize) -> Items<NODES>
    requires { (length list.now ≤ 512) × (s < 32768) × All (λ v. v < length lab.now) list.now }
    ensures { Filtered (AskedAt lab.now s) list.now (length list.now) result (length result) }
{
    Items::picked(list.len() as u16, |i| {
        let v = list[i as usize];
        (s + (lab[v as usize] as usize) < BIAS).then_some(v)
    })
}

// For clock s: every 32 clocks they are looked through for nodes that are asked for no more.
pub fn refresh(list: &mut Items<NODES>, lab: &[u32], s: usize)
    requires { (length list.old ≤ 512) × (s < 32768) × All (λ v. v < length lab.now) list.old }
    ensures { ((0 < s % 32) × (list.new ≡ list.old)) ⊎ Filtered (AskedAt lab.now s) list.old (length list.old) list.new (length list.new) }
{
    if s % SPELL == 0 {
        *list = asked(list.as_slice(), lab, s);
    }
}
