// What the program `reread` prints of a text: the text read and written again, or the line of its refusal. The promise is in specs/Shown.
ghost use Rattle.io.specs.Counts.{IsPrefixLen};
ghost use Rattle.printing.specs.Shown.{Rereads};

use crate::refusals::put_refusal;

// A text read and written again, or the line of its refusal, at the front of `out`; how many bytes that took.
pub fn reread(text: &[u8], out: &mut [u8]) -> usize
    ensures rereads { Rereads text.now out.old result out.new }
    ensures prefix_len { IsPrefixLen result out.new }
{
    match netlist::rewrite(text, out) {
        Ok(len) => len,
        Err(reason) => put_refusal(reason, out),
    }
}
