// Reads one text of up to 32,768 bytes from standard input, and prints it retimed: the new text, then per node a frame `04`: node (2), lag (2, two's
// complement); or its refusal: `0F`, number (1), place kind (1: 00 whole, 01 line, 02 node, 03 edge), place (2, 0 for whole).
// Kept: the kit's `io`, over C's `read` and `write`, with a buffer in the frame, and no std::io: a read that fails is the end of the input, and no memory is asked for.
#![tactic(auto)]

use printing::LONGEST;

// File descriptors.
const STDIN: i32 = 0;

const STDOUT: i32 = 1;

fn main() {
    let mut text = [0u8; LONGEST];
    let n = io::read_full(STDIN, &mut text);
    let listing = printing::listing(&text[..n]);
    io::write_all(STDOUT, &listing.bytes[..listing.len]);
}
