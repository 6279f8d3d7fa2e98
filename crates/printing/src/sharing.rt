// What is printed of a text's rails: a line of the total and one for each node, or the line of the refusal. The promise is in specs/Shared.
ghost use Rattle.std.specs.Prelude.{◌≡◌, [], ◌∷◌, ◌++◌, ◌+◌, ◌*◌, ◌≤◌, length};
ghost use Rattle.std.proofs.lemmas.List.Edits.{sets};
ghost use Rattle.io.specs.Counts.{IsPrefixLen};
ghost use Rattle.frame.specs.Frame.{bytes_of, placed};
ghost use Rattle.netlist.specs.Write.{joined};
ghost use Rattle.printing.specs.Shown.{line_in};
ghost use Rattle.printing.specs.Shared.{rail_line, rail_lines, PrintsRails};

use crate::refusals::put_refusal;

// The line of the total: five bytes as digits, and the line feed.
const TOTAL_LINE: usize = 11;

// The line of a node's rails: seven bytes.
const RAIL_LINE: usize = 15;

// The bytes of the line of the total.
fn total_bytes(total: usize) -> [u8; 5]
    ensures { result ≡ (10 ∷ []) ++ bytes_of 4 total }
{
    let mut bytes = [10; 5];
    bytes[1..].copy_from_slice(&total.to_be_bytes()[4..]);
    bytes
}

// The bytes of the line of a node's rails.
fn rail_bytes(node: u16, rails: u32) -> [u8; 7]
    ensures { result ≡ (11 ∷ []) ++ bytes_of 2 node ++ bytes_of 4 rails }
{
    let mut bytes = [11; 7];
    bytes[1..3].copy_from_slice(&node.to_be_bytes());
    bytes[3..].copy_from_slice(&rails.to_be_bytes());
    bytes
}

// The lines of the nodes' rails, behind that of the total.
// Kept: as netlist `put_nodes`: a bound `Fn` that names a const parameter gets no proof.
fn put_nodes(table: &[u32], out: &mut [u8])
    requires { (length table.now ≤ 512) × (11 + 15 * length table.now ≤ length out.old) }
    ensures { out.new ≡ sets out.old 11 (joined (rail_line table.now) (length table.now)) }
{
    for (v, rails) in table.iter().enumerate() {
        let line = rail_bytes(v as u16, *rails);
        frame::put_line(out, TOTAL_LINE + RAIL_LINE * v, &line);
    }
}

// The line of the total and those of the nodes' rails at the front of `out`, where there is room for all; how many bytes that took.
fn put_counted(total: usize, table: &[u32], out: &mut [u8]) -> usize
    requires { length table.now ≤ 512 }
    ensures out_after { out.new ≡ placed out.old 0 (rail_lines total table.now (length table.now)) }
    ensures value { result ≡ line_in (rail_lines total table.now (length table.now)) out.old }
{
    let len = TOTAL_LINE + RAIL_LINE * table.len();
    if out.len() < len {
        return 0;
    }
    frame::put_line(out, 0, &total_bytes(total));
    put_nodes(table, out);
    len
}

// A text's rails counted into `table`, and what is printed of that at the front of `out`, where there is room for it; how many bytes it took.
pub fn put_rails(text: &[u8], table: &mut [u32], out: &mut [u8]) -> usize
    ensures prints_rails { PrintsRails text.now table.old table.new out.old result out.new }
    ensures prefix_len { IsPrefixLen result out.new }
{
    let total = match rails::rails(text, table) {
        Ok(total) => total,
        Err(reason) => return put_refusal(reason, out),
    };
    // Kept: counting promises no netlist, so how many nodes there are is read again.
    match netlist::read(text) {
        Ok(net) => put_counted(total, &table[..usize::from(net.nodes)], out),
        Err(reason) => put_refusal(reason, out),
    }
}
