//! An entry of a dump, by the lines of it that were read.

ghost use Rattle.std.specs.Prelude.{◌≡◌, ◌≤◌, ◌<◌, ◌+◌, ◌++◌, ◌∷◌, [], Some, false, length, true};
ghost use Rattle.ldif_lines.specs.Entries.{too_long};
ghost use Rattle.ldif_lines.specs.Limits.{line_most, rows_most};
ghost use Rattle.ldif_lines.specs.Rests.{fresh, held_rows, named, row_begin, rows_from, with_line, with_password, with_text, with_uid};
ghost use Rattle.ldif_lines.specs.Steps.{held, held_texts};

use crate::attribute::{Value, is_password, is_uid, line_name, line_text};
use crate::room::Room;
use pieces::short_bytes::ShortBytes;

/// The most bytes of the lines of an entry.
pub(crate) const ROWS_MOST: usize = 16_384;

/// The lines of one entry.
pub(crate) type Rows = Room<ROWS_MOST>;

/// The lines that are ready: at most those of two entries.
pub(crate) type Ready = Room<32_768>;

/// What was read of an entry.
#[derive(Drop)]
pub(crate) struct Entry {
    /// A `uid` gave the name.
    pub has_uid: bool,
    pub name: Value,
    /// The texts, of which a line feed ends each.
    pub texts: Rows,
    /// There are more texts than `texts` has room for.
    pub is_long: bool,
}

// Pushes bytes, or answers that there is no room.
fn push_fitting(rows: &mut Rows, bytes: &[u8]) -> bool
    ensures pushed { result ≡ true → rows.new ≡ rows.old ++ bytes.now }
    ensures full { result ≡ false → rows_most < length rows.old + length bytes.now }
{
    if bytes.len() > ROWS_MOST - rows.len() {
        return false;
    }
    rows.push_all(bytes);
    true
}

// Pushes a byte of a text, after the name and a colon where the text begins; or answers that there is no room.
fn push_byte(rows: &mut Rows, name: &[u8], begins: bool, b: u8) -> bool
    ensures pushed { result ≡ true → rows.new ≡ rows.old ++ (row_begin begins name.now ++ b ∷ []) }
    ensures full { result ≡ false → rows_most < length rows.old + length (row_begin begins name.now ++ b ∷ []) }
{
    if begins {
        push_fitting(rows, name) && push_fitting(rows, &[b':', b])
    } else {
        push_fitting(rows, &[b])
    }
}

// Puts the lines of a name and texts into `rows`, or answers that they don't fit.
fn push_rows(rows: &mut Rows, name: &[u8], texts: &[u8]) -> bool
    requires none { rows.old ≡ [] }
    ensures pushed { result ≡ true → rows.new ≡ rows_from name.now true texts.now }
    ensures full { result ≡ false → rows_most < length (rows_from name.now true texts.now) }
{
    let mut begins = true;
    for b in texts {
        if !push_byte(rows, name, begins, *b) {
            return false;
        }
        begins = *b == b'\n';
    }
    true
}

// One line that is too long for a program over lines.
#[tactic(auto, unfolding(crate::specs::Entries::too_long))]
fn push_too_long(rows: &mut Rows)
    requires none { rows.old ≡ [] }
    ensures pushed { rows.new ≡ too_long }
{
    rows.push_all(&[b'x'; 8_193]);
    rows.push(b'\n');
}

// One more text.
fn push_text(texts: &mut Rows, is_long: bool, text: &[u8]) -> bool
    ensures texts { held_texts result texts.new ≡ with_text (held_texts is_long texts.old) text.now }
{
    if is_long || text.len() + 1 > ROWS_MOST - texts.len() {
        return true;
    }
    texts.push_all(text);
    texts.push(b'\n');
    false
}

impl Entry {
    /// Nothing was read.
    pub fn new() -> Entry
        ensures fresh { held result ≡ fresh }
    {
        Entry {
            has_uid: false,
            name: ShortBytes::from_slice(b"\t"),
            texts: Room::new(),
            is_long: false,
        }
    }

    // Begins a new one.
    fn begin_with(&mut self, name: Value)
        ensures named { held self.new ≡ record { has_uid = false; name = name; texts = Some [] } }
    {
        self.has_uid = false;
        self.name = name;
        self.texts.clear();
        self.is_long = false;
    }

    /// Begins a new one without a name.
    pub fn clear(&mut self)
        ensures fresh { held self.new ≡ fresh }
    {
        self.begin_with(ShortBytes::from_slice(b"\t"));
    }

    /// Begins a new one with the line of its distinguished name.
    pub fn begin(&mut self, line: &[u8])
        requires short { length line.now ≤ line_most }
        ensures named { held self.new ≡ named line.now }
    {
        self.begin_with(line_name(line));
    }

    // The name by the line of a `uid`.
    fn take_uid(&mut self, line: &[u8])
        requires short { length line.now ≤ line_most }
        ensures held { held self.new ≡ with_uid (held self.old) line.now }
    {
        if !self.has_uid {
            self.has_uid = true;
            self.name = line_name(line);
        }
    }

    // One more text by its line.
    fn take_password(&mut self, line: &[u8])
        requires short { length line.now ≤ line_most }
        ensures held { held self.new ≡ with_password (held self.old) line.now }
    {
        let text = line_text(line);
        self.is_long = push_text(&mut self.texts, self.is_long, text.as_slice());
    }

    /// One more line.
    pub fn take(&mut self, line: &[u8])
        requires short { length line.now ≤ line_most }
        ensures held { held self.new ≡ with_line (held self.old) line.now }
    {
        if is_uid(line) {
            self.take_uid(line);
        } else if is_password(line) {
            self.take_password(line);
        }
    }

    // Puts the lines of the entry into `rows`.
    fn rows_into(&self, rows: &mut Rows)
        ensures rows { rows.new ≡ held_rows (held self.now) }
    {
        rows.clear();
        if self.is_long {
            push_too_long(rows);
            return;
        }
        if !push_rows(rows, self.name.as_slice(), self.texts.as_slice()) {
            rows.clear();
            push_too_long(rows);
            return;
        }
        // That they fit is known by their length.
        let _count = rows.len();
    }

    /// Puts the lines of the entry after those that are ready, by way of `rows`.
    pub fn put(&self, rows: &mut Rows, ready: &mut Ready)
        requires room { length ready.old ≤ rows_most }
        ensures put { ready.new ≡ ready.old ++ held_rows (held self.now) }
        ensures length { length ready.new ≤ length ready.old + rows_most }
    {
        self.rows_into(rows);
        ready.push_all(rows.as_slice());
    }
}
