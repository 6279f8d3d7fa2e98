// What a clock touches.
// The struct stands in a file of its own, as its ghost fields may not need what is said of it.
ghost use Rattle.simulate.specs.inner.Signals.{Within};

use graph::{EDGES, Items, NODES};

// The inputs, the outputs and the edges with a register, each in rising order.
#[derive(Drop)]
pub struct Lists {
    pub inputs: Items<NODES>,
    pub outputs: Items<NODES>,
    pub registers: Items<EDGES>,
    pub ghost inputs_in: { Within inputs 512 },
    pub ghost outputs_in: { Within outputs 512 },
    pub ghost registers_in: { Within registers 1024 },
}
