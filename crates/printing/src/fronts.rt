// A line put at the front of a buffer.
ghost use Rattle.std.specs.Prelude.{◌≡◌, ◌≤◌, length};
ghost use Rattle.io.specs.Counts.{IsPrefixLen};
ghost use Rattle.frame.specs.Frame.{line_of, placed};
ghost use Rattle.printing.specs.Shown.{line_in};

// The line of these bytes at the front of `out`, where there is room for it; how many bytes that took.
// Kept: 0 is no number for none here: it is how many bytes were put. So in all that prints; and each has its own test for room: one function with the putting handed in
// would take a closure that writes into `out`, no plainer.
pub fn put_front(bytes: &[u8], out: &mut [u8]) -> usize
    requires { length bytes.now ≤ 16 }
    ensures out_after { out.new ≡ placed out.old 0 (line_of bytes.now) }
    ensures value { result ≡ line_in (line_of bytes.now) out.old }
    ensures prefix_len { IsPrefixLen result out.new }
{
    let len = 2 * bytes.len() + 1;
    frame::put_line(out, 0, bytes);
    if out.len() < len { 0 } else { len }
}
