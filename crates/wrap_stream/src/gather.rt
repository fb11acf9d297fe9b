//! Characters of lines gathered without the endings between them.

ghost use Rattle.std.specs.Prelude.{◌<◌, ◌≤◌, ◌+◌, length, take};
ghost use Rattle.wrap_stream.specs.Reading.{at};
ghost use Rattle.wrap_stream.specs.Turns.{AreGathered, EndsLine};
ghost use Rattle.wrap_stream.specs.declared.place.Place.{Place};

/// Characters that were gathered.
#[derive(Clone, Copy)]
pub(crate) struct Gathered {
    /// How many they are, with those that waited.
    pub(crate) len: usize,
    /// How many bytes of the text they take up with the endings before them.
    pub(crate) taken: usize,
    /// How many more the line takes behind them.
    pub(crate) room: usize,
}

// The length of the ending before the next character of `text`, in a line that takes `room` more, and how many the line
// of this character takes.
fn end_line(width: usize, room: usize, text: &[u8]) -> (usize, usize)
    ensures ends { EndsLine width room (take result.0 text.now) result.1 }
    ensures within { result.0 ≤ length text.now }
{
    if room > 0 {
        return (0, room);
    }
    match *text {
        [b'\r', b'\n', ..] => (2, width),
        [b'\r' | b'\n', ..] => (1, width),
        _ => (0, 0),
    }
}

/// Gathers in `chars` the characters that wait and behind them those of `text`, as many as there is room for, from a
/// line that takes `room` more and the lines behind it.
pub(crate) fn gather(
    width: usize,
    room: usize,
    waiting: &[u8],
    text: &[u8],
    chars: &mut [u8],
) -> Gathered
    requires width { 4 ≤ width }
    requires fits { length waiting.now ≤ length chars.old }
    ensures gathered { AreGathered width (at (Place.Within room) waiting.now) (take result.taken text.now)
        (take result.len chars.new) result.room }
    ensures within { (result.taken ≤ length text.now) × (result.len ≤ length chars.new) }
    ensures few { result.len ≤ length waiting.now + result.taken }
{
    let mut len = waiting.len();
    let mut taken = 0;
    let mut left = room;
    chars[..len].copy_from_slice(waiting);
    'lines: while len < chars.len() {
        let (end, line) = end_line(width, left, &text[taken..]);
        let start = taken + end;
        let n = line.min(chars.len() - len).min(text.len() - start);
        if n == 0 {
            break;
        }
        chars[len..len + n].copy_from_slice(&text[start..start + n]);
        len += n;
        taken = start + n;
        left = line - n;
    }
    Gathered {
        len,
        taken,
        room: left,
    }
}
