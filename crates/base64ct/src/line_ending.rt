//! Line endings.

ghost use Rattle.std.specs.Prelude.{◌≡◌, length};
ghost use Rattle.base64ct.specs.LineEndings.{ending_bytes};
ghost use Rattle.base64ct.specs.declared.line_ending.LineEnding.TheVariants.{LF};

/// What stands between two lines.
#[derive(Clone, Copy, Debug, PartialEq, Eq, PartialOrd, Ord, Drop)]
pub enum LineEnding {
    /// Carriage return.
    CR,
    /// Line feed.
    LF,
    /// Both.
    CRLF,
}

impl Default for LineEnding {
    ghost is_default = { λ e. e ≡ LF };

    fn default() -> LineEnding {
        LineEnding::LF
    }
}

impl LineEnding {
    /// Its bytes.
    pub fn as_bytes(self) -> &'static [u8]
        ensures { result.now ≡ ending_bytes self }
    {
        match self {
            LineEnding::CR => b"\r",
            LineEnding::LF => b"\n",
            LineEnding::CRLF => b"\r\n",
        }
    }

    /// The number of its bytes.
    pub fn len(self) -> usize
        ensures { result ≡ length (ending_bytes self) }
    {
        self.as_bytes().len()
    }
}
