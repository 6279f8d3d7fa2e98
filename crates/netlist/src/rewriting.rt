// Reading and writing in one call.
ghost use Rattle.netlist.specs.Answer.{says};
ghost use Rattle.netlist.specs.Write.{Rewrites};

use crate::Refusal;
use crate::lines::read;
use crate::writing::write;

// A text read and written again: how many bytes, or a refusal (1 to 7, 12), which leaves `out`.
pub fn rewrite(text: &[u8], out: &mut [u8]) -> Result<usize, Refusal>
    ensures { Rewrites text.now out.old (says result) out.new }
{
    let net = read(text)?;
    write(net, out)
}
