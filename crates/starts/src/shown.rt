// Where in the ring the value stands that an edge shows.
// Private to the crate: `follow` has the edges of a netlist that passed the rules.
ghost use Rattle.std.specs.Prelude.{◌≡◌, ℕ, ◌+◌, ◌%◌, ◌<◌, ◌≤◌, length, All};
ghost use Rattle.graph.specs.Columns.{at};
ghost use Rattle.starts.specs.inner.Ring.{EdgeRows, slot_of};
ghost use Rattle.starts.specs.inner.Wired.{NodeSlots, ListSlots};

use crate::ahead::{SPELL, advance};
use crate::wiring::Wiring;
use graph::{EDGES, NODES};
use moves::MOST_REGISTERS;
use netlist::Netlist;

// The ring holds the last 64 clocks, a row of one value for each node.
pub const CLOCKS: usize = 64;

// Behind the rows stand 0 and 1.
pub const ZERO: usize = CLOCKS * NODES;

pub const ONE: usize = ZERO + 1;

pub const SLOTS: usize = ZERO + 2;

// From this clock on no start value shows any more.
const SPENT: usize = MOST_REGISTERS as usize;

// What an edge shows: its source behind so many registers, with their start values.
#[derive(Clone, Copy)]
pub struct Shown {
    pub from: u16,
    pub registers: u8,
    pub start: u32,
    pub ghost source: { from < 512 },
    pub ghost narrow: { registers ≤ 32 },
}

impl Shown {
    // Of edge e.
    pub fn of(net: &Netlist, e: usize) -> Shown
        requires { EdgeRows net.now e }
        ensures from { result.from ≡ at net.now.from e }
        ensures registers { result.registers ≡ at net.now.count e }
        ensures start { result.start ≡ at net.now.start e }
    {
        Shown {
            from: net.from[e],
            registers: net.count[e],
            start: net.start[e],
        }
    }

    // Where the value stands that it shows in clock s.
    pub fn slot(self, s: usize) -> usize
        ensures { result ≡ slot_of self.from self.registers self.start s }
    {
        let count = self.registers as usize;
        if s < count {
            return ZERO + ((self.start >> (s as u32)) % 2) as usize;
        }
        (s - count) % CLOCKS * NODES + self.from as usize
    }
}

impl<'a> Wiring<'a> {
    // The slots of clock s, for the edges that enter node v.
    // Kept: a range of places and not `ins.of(v)`, which gives the edges without their places: the slot of each stands at its place.
    fn place_node(&self, v: usize, s: usize, slots: &mut [u16; EDGES])
        requires { v < self.now.net.now.nodes }
        ensures { NodeSlots self.now v s slots.old slots.new }
    {
        for k in self.ins.begin[v] as usize..self.ins.begin[v + 1] as usize {
            let e = self.ins.list[k] as usize;
            slots[k] = Shown::of(self.net, e).slot(s) as u16;
        }
    }

    // For the edges that enter the nodes of the list.
    fn place(&self, list: &[u16], s: usize, slots: &mut [u16; EDGES])
        requires { All (λ v. v < self.now.net.now.nodes) list.now }
        ensures { ListSlots self.now list.now (length list.now) s slots.new }
    {
        for v in list {
            self.place_node(*v as usize, s, slots);
        }
    }

    // The slots of clock s, for the nodes of the list: found anew every 32 clocks, and while a start value may show; else a row further than those of the clock
    // before.
    pub fn turn(&self, list: &[u16], s: usize, slots: &mut [u16; EDGES])
        requires nodes { All (λ v. v < self.now.net.now.nodes) list.now }
        requires before { (t : ℕ) → 32 ≤ t → t + 1 ≡ s → 0 < s % 32 → ListSlots self.now list.now (length list.now) t slots.old }
        ensures { ListSlots self.now list.now (length list.now) s slots.new }
    {
        if SPENT < s && 0 < s % SPELL {
            advance(&mut slots[..self.net.edges as usize]);
        } else {
            self.place(list, s, slots);
        }
    }
}
