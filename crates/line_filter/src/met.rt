//! What was met in a text, in words.

ghost use Rattle.std.specs.Prelude.{◌≡◌, ◌≤◌, ◌++◌, length};
ghost use Rattle.line_filter.specs.Met.{message, returns_words};
ghost use Rattle.line_filter.specs.Passed.{passed_message};

use pieces::short_bytes::ShortBytes;

/// The most bytes of a message.
pub const MESSAGE_MAX: usize = 112;

/// What was met in a text that its lines may not be meant to have.
#[derive(Clone, Copy, Debug, PartialEq, Eq)]
pub struct Met {
    /// The lines that end with a carriage return and a line feed; the count stays at the greatest number of its type.
    pub returns: u64,
    /// Whether the text begins with the byte order mark of UTF-8.
    pub has_mark: bool,
}

// How many lines end with a carriage return.
fn push_returns(words: &mut ShortBytes<MESSAGE_MAX>, returns: u64)
    requires room { length words.old ≤ 46 }
    ensures pushed { words.new ≡ words.old ++ returns_words returns }
{
    if returns == 1 {
        words.push_all(b"1 line ends with a carriage return");
    } else {
        words.push_decimal(returns);
        words.push_all(b" lines end with a carriage return");
    }
}

impl Met {
    /// What was met, in a few words of ASCII; none where nothing was met.
    pub fn message(&self) -> ShortBytes<MESSAGE_MAX>
        ensures words { result ≡ message self.now }
    {
        let mut words = ShortBytes::new();
        if self.has_mark {
            words.push_all(b"the first line begins with a byte order mark");
            if self.returns != 0 {
                words.push_all(b", ");
            }
        }
        if self.returns != 0 {
            push_returns(&mut words, self.returns);
        }
        words
    }
}

/// How many lines are empty or begin with `#`, in a few words of ASCII; none where there is no such line.
pub fn passed_message(count: u64) -> ShortBytes<MESSAGE_MAX>
    ensures words { result ≡ passed_message count }
{
    let mut words = ShortBytes::new();
    if count == 1 {
        words.push_all(b"1 line is empty or begins with #");
    } else if count != 0 {
        words.push_decimal(count);
        words.push_all(b" lines are empty or begin with #");
    }
    words
}
