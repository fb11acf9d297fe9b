//! What the bytes of a file have beside its lines.

ghost use Rattle.std.specs.Prelude.{◌≡◌};
ghost use Rattle.line_filter.specs.Steps.{is_plain};

/// What is left out of a text before it is cut into lines.
#[derive(Clone, Copy, Debug, PartialEq, Eq)]
pub struct LineForms {
    /// As Windows' editors write it: the byte order mark of UTF-8 at the beginning, and each carriage return before a line feed. A
    /// carriage return elsewhere stays, also at the end of a last line without a line feed.
    pub crlf: bool,
    /// As files of htpasswd(1) have them: lines that are empty or begin with `#`, with their line feeds. An empty line is one that
    /// is empty once its carriage return is left out.
    pub htpasswd: bool,
}

impl LineForms {
    /// Nothing is left out.
    pub const PLAIN: LineForms = LineForms {
        crlf: false,
        htpasswd: false,
    };

    /// Whether nothing is left out.
    pub fn is_plain(&self) -> bool
        ensures plain { result ≡ is_plain self.now }
    {
        !self.crlf && !self.htpasswd
    }
}
