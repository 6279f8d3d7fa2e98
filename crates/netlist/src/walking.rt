// The walk from the inputs of a text, in passes, as a debugger shows it: the netlist need not keep rules 5, 6 and 7.
ghost use Rattle.netlist.specs.Walk.{says_walked, layer_of, Walks};

use crate::lines::read_lines;
use crate::{Refusal, Walked};
use frame::DigitTable;
use rules::Kind;

// The layer after `most` passes, or after the first pass that marks nothing, and how many nodes there are; or a refusal (1 to 4).
pub fn walk(text: &[u8], most: usize) -> Result<Walked, Refusal>
    ensures { Walks text.now most (says_walked result) (layer_of result) }
{
    let net = read_lines(&DigitTable::new(), text)?;
    let layer = graph::walk(net.wires(), &net.kind, Kind::Input as u8, most);
    Ok(Walked {
        nodes: net.nodes as usize,
        layer,
    })
}
