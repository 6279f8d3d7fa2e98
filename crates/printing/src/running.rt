// What is printed of a run: its outputs as digits and a line feed, or the line of its refusal. The promise is in specs/Printed.
ghost use Rattle.std.specs.Prelude.{◌≡◌, ◌<◌, length};
ghost use Rattle.std.proofs.lemmas.List.Edits.{sets};
ghost use Rattle.io.specs.Counts.{IsPrefixLen};
ghost use Rattle.frame.specs.Frame.{placed};
ghost use Rattle.printing.specs.Shown.{line_in};
ghost use Rattle.printing.specs.Printed.{bit_digit, digit_line, PrintsRun};

use crate::refusals::put_refusal;

// The digit of a bit.
// Kept: by hand: the library's formatting writes to a writer, and this is one byte.
fn digit(bit: u8) -> u8
    ensures { result ≡ bit_digit bit }
{
    if bit == 0 { b'0' } else { b'1' }
}

// The digits of `bits` and a line feed, at the front of `out`.
fn put_digits(bits: &[u8], out: &mut [u8])
    requires { length bits.now < length out.old }
    ensures { out.new ≡ sets out.old 0 (digit_line bits.now) }
{
    for (i, bit) in bits.iter().enumerate() {
        out[i] = digit(*bit);
    }
    out[bits.len()] = b'\n';
}

// The digits of `bits` and a line feed, at the front of `out`, where there is room for it; how many bytes that took.
pub fn put_bits(bits: &[u8], out: &mut [u8]) -> usize
    ensures out_after { out.new ≡ placed out.old 0 (digit_line bits.now) }
    ensures value { result ≡ line_in (digit_line bits.now) out.old }
    ensures prefix_len { IsPrefixLen result out.new }
{
    if out.len() <= bits.len() {
        return 0;
    }
    put_digits(bits, out);
    bits.len() + 1
}

// A text run on these vectors into `ran`, and what is printed of that at the front of `out`, where there is room for it; how many bytes it took.
pub fn put_run(text: &[u8], vectors: &[u8], ran: &mut [u8], out: &mut [u8]) -> usize
    ensures prints_run { PrintsRun text.now vectors.now ran.old ran.new out.old result out.new }
    ensures prefix_len { IsPrefixLen result out.new }
{
    match simulate::run(text, vectors, ran) {
        Ok(len) => put_bits(&ran[..len], out),
        Err(reason) => put_refusal(reason, out),
    }
}
