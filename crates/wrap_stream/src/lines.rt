//! Characters in lines.

ghost use Rattle.std.specs.Prelude.{◌≡◌, ◌<◌, ◌≤◌, ◌+◌, ◌-◌, ◌*◌, ◌++◌, [], ◌∷◌, length, min, take};
ghost use Rattle.base64ct.specs.Encoders.{room_after, wrap_from};

// Writes as many of `chars` as the line takes behind the first `at` bytes of `out`, or as the next line takes where this
// one is full. It tells the place behind them, how many they are, and how many more the line takes then.
fn put_line(
    chars: &[u8],
    out: &mut [u8],
    at: usize,
    width: usize,
    left: usize,
) -> (usize, usize, usize)
    requires some { 0 < length chars.now }
    requires width { 4 ≤ width }
    requires line { left ≤ width }
    requires fits { 4 * at + 5 * length chars.now + 4 ≤ 4 * length out.old + min left 4 }
    ensures some { (0 < result.1) × (result.1 ≤ length chars.now) }
    ensures put { take result.0 out.new ≡ take at out.old ++ wrap_from width (10 ∷ []) left (take result.1 chars.now) }
    ensures line { (result.2 ≡ room_after width left result.1) × (result.2 ≤ width) }
    ensures fits { 4 * result.0 + 5 * (length chars.now - result.1) + 4 ≤ 4 * length out.old + min result.2 4 }
{
    if left == 0 {
        out[at] = b'\n';
        let start = at + 1;
        let n = width.min(chars.len());
        out[start..start + n].copy_from_slice(&chars[..n]);
        return (start + n, n, width - n);
    }
    let n = left.min(chars.len());
    out[at..at + n].copy_from_slice(&chars[..n]);
    (at + n, n, left - n)
}

/// Writes `chars` at the front of `out` in lines of `width` characters with a line feed between two lines, where the first
/// line takes `room` characters. It tells how many bytes these are, and how many more characters the last line takes.
pub(crate) fn put_lines(chars: &[u8], out: &mut [u8], width: usize, room: usize) -> (usize, usize)
    requires width { 4 ≤ width }
    requires line { room ≤ width }
    requires fits { 5 * length chars.now + 4 ≤ 4 * length out.old }
    ensures within { result.0 ≤ length out.new }
    ensures put { take result.0 out.new ≡ wrap_from width (10 ∷ []) room chars.now }
    ensures line { (result.1 ≡ room_after width room (length chars.now)) × (result.1 ≤ width) }
{
    let mut done = 0;
    let mut at = 0;
    let mut left = room;
    'lines: while done < chars.len() {
        let (to, n, more) = put_line(&chars[done..], out, at, width, left);
        at = to;
        done += n;
        left = more;
    }
    (at, left)
}
