// Frames: lines of hex digits, read at a cursor into bytes and written from bytes. Definitions: specs/Frame.
// A cursor is an offset into the text; no offset is computed in closed form.
#![tactic(auto)]

ghost use Rattle.std.specs.Prelude.{◌≡◌, ◌∷◌, [], ◌+◌, ◌*◌, ◌<◌, ◌≤◌, leb, length, drop};
ghost use Rattle.std.proofs.lemmas.List.Edits.{sets};
ghost use Rattle.frame.specs.Frame.{line_at, frame_at, char_of, hex_of, line_of, placed};
ghost use Rattle.frame.specs.inner.Decoded.{Digits, byte_of, filled_up, framed, framed_within};

// The byte that ends a line.
const LINE_FEED: u8 = b'\n';

// The digits of the values below 16.
// Kept: a table of our own: the library's `from_digit` gives small letters.
const DIGITS: [u8; 16] = *b"0123456789ABCDEF";

// What stands for the value of a byte that is no digit: above each digit's.
const NO_DIGIT: u8 = 16;

// The digit of a value below 16.
fn char_of(d: u8) -> u8
    requires { d < 16 }
    ensures { result ≡ char_of d }
{
    DIGITS[d as usize]
}

// Whether the digits of n bytes and a line feed fit into so much room.
fn has_room(room: usize, n: usize) -> bool
    ensures { result ≡ leb (2 * n + 1) room }
{
    n < room.div_ceil(2)
}

// Each byte's value as a hex digit, 0-9 A-F. It is made once for many lines, so that a digit is looked up.
// Kept: `NO_DIGIT` in place of None: the table has what specs/Frame `digit_of` gives each byte, 16 for one that is no digit, so one equation says it; and a table in place of
// a match on the byte. Both were tried. With a table of Options the largest text takes 8 in 100
// longer to read and a small one 2 in 100, with a match 55 and 5 in 100.
#[derive(Clone, Copy)]
pub struct DigitTable {
    pub values: [u8; 256],
    ghost digits: { Digits values },
}

impl DigitTable {
    pub fn new() -> DigitTable
        ensures { Digits result.values }
    {
        let mut values = [NO_DIGIT; 256];
        for d in 0..16u8 {
            values[char_of(d) as usize] = d;
        }
        DigitTable { values }
    }

    // The byte of two digits; none where one of them is no digit.
    fn byte(&self, high: u8, low: u8) -> Option<u8>
        ensures { result ≡ byte_of high low }
    {
        let high = self.values[high as usize];
        let low = self.values[low as usize];
        if high < NO_DIGIT && low < NO_DIGIT {
            Some(high * 16 + low)
        } else {
            None
        }
    }

    // The line of `n` bytes at `at`, where there is room for one.
    fn bytes_at<const M: usize>(&self, text: &[u8], at: usize, n: usize) -> Option<[u8; M]>
        requires { (n ≤ M) × (at + (2 * n + 1) ≤ length text.now) }
        ensures { result ≡ filled_up M (line_at n (drop at text.now)) }
    {
        let mut bytes = [0u8; M];
        for i in 0..n {
            bytes[i] = self.byte(text[at + 2 * i], text[at + 2 * i + 1])?;
        }
        if text[at + 2 * n] != LINE_FEED {
            return None;
        }
        Some(bytes)
    }

    // The line of kind `kind` with `n` more bytes at `at`: those, with zeros behind them up to M.
    fn line_within<const M: usize>(
        &self,
        text: &[u8],
        at: usize,
        kind: u8,
        n: usize,
    ) -> Option<[u8; M]>
        requires { n ≤ M }
        ensures { result ≡ filled_up M (frame_at kind n (drop at text.now)) }
    {
        let left = text.len().saturating_sub(at);
        if !has_room(left.saturating_sub(2), n) {
            return None;
        }
        let b = self.byte(text[at], text[at + 1])?;
        if b != kind {
            return None;
        }
        self.bytes_at(text, at + 2, n)
    }

    // The line of kind `kind` with N more bytes at `at`: those N.
    pub fn line<const N: usize>(&self, text: &[u8], at: usize, kind: u8) -> Option<[u8; N]>
        ensures { result ≡ framed kind N (drop at text.now) }
    {
        self.line_within(text, at, kind, N)
    }

    // The same where how many bytes a line has is known at run time alone: those bytes, and zeros behind them. There is none of more than 16.
    #[tactic(auto, using(crate::proofs::Steps::framed_room, crate::proofs::Steps::framed_over))]
    pub fn frame(&self, text: &[u8], at: usize, kind: u8, n: usize) -> Option<[u8; 16]>
        ensures { result ≡ framed_within 16 kind n (drop at text.now) }
    {
        if 16 < n {
            return None;
        }
        self.line_within(text, at, kind, n)
    }
}

// A line by a table of its own.
pub fn line_at<const N: usize>(text: &[u8], at: usize, kind: u8) -> Option<[u8; N]>
    ensures { result ≡ framed kind N (drop at text.now) }
{
    DigitTable::new().line(text, at, kind)
}

// The same where how many bytes the line has is known at run time alone.
pub fn frame_at(text: &[u8], at: usize, kind: u8, n: usize) -> Option<[u8; 16]>
    ensures { result ≡ framed_within 16 kind n (drop at text.now) }
{
    DigitTable::new().frame(text, at, kind, n)
}

// A byte's two digits at `at`, where there is room.
fn put_byte(out: &mut [u8], at: usize, b: u8)
    requires { at + 2 ≤ length out.old }
    ensures { out.new ≡ sets out.old at (hex_of (b ∷ [])) }
{
    out[at] = char_of(b / 16);
    out[at + 1] = char_of(b % 16);
}

// The digits of `bytes`, from `at` on, where there is room.
fn put_bytes(out: &mut [u8], at: usize, bytes: &[u8])
    requires { at + 2 * length bytes.now ≤ length out.old }
    ensures { out.new ≡ sets out.old at (hex_of bytes.now) }
{
    for (i, b) in bytes.iter().enumerate() {
        put_byte(out, at + 2 * i, *b);
    }
}

// The line of `bytes`, from place `at` of `out` on; where there is no room for it `out` stays as it was.
pub fn put_line(out: &mut [u8], at: usize, bytes: &[u8])
    ensures { out.new ≡ placed out.old at (line_of bytes.now) }
{
    let left = out.len().saturating_sub(at);
    if !has_room(left, bytes.len()) {
        return;
    }
    put_bytes(out, at, bytes);
    out[at + 2 * bytes.len()] = LINE_FEED;
}
