//! Which piece of a text is what part of a record.

ghost use Rattle.std.specs.Prelude.{◌≡◌, ◌==◌};
ghost use Rattle.pieces.specs.Characters.{dollar};
ghost use Rattle.pieces.specs.Pieces.{lent, pieces_left};
ghost use Rattle.phc.specs.Grammar.{pieces_behind, read_first, has_byte, layout, params_text, layout_from_salt, version_digits};
ghost use Rattle.phc.specs.Views.{parts_of, pieces_of};

use pieces::{behind, first_piece, next_piece};

/// The pieces behind the identifier, each with its part in the form.
#[derive(Clone, Copy, Debug)]
pub(crate) struct FormParts<'a> {
    pub version: Option<&'a str>,
    pub params: Option<&'a str>,
    pub salt: Option<&'a str>,
    pub hash: Option<&'a str>,
    pub rest: Option<&'a str>,
}

// Whether a byte occurs.
fn has_byte(c: u8, bytes: &[u8]) -> bool
    ensures { result ≡ has_byte c bytes.now }
{
    bytes.iter().any(|b| *b == c)
}

// The digits of a version, where a piece is one.
fn version_digits<'a>(piece: &'a str) -> Option<&'a str>
    ensures { lent result ≡ version_digits piece.now }
{
    // Few pieces begin with `v=`, so that most aren't searched for a comma.
    let Some(digits) = behind(piece, "v=") else {
        return None;
    };
    if has_byte(b',', piece.as_bytes()) {
        None
    } else {
        Some(digits)
    }
}

// The text of parameters, where a piece is that.
fn params_text<'a>(piece: &'a str) -> Option<&'a str>
    ensures { lent result ≡ params_text piece.now }
{
    if has_byte(b'=', piece.as_bytes()) {
        Some(piece)
    } else {
        None
    }
}

/// A piece, and the pieces behind it.
#[derive(Clone, Copy, Debug)]
pub(crate) struct Cut<'a> {
    pub piece: &'a str,
    pub others: Option<&'a str>,
}

// The next piece cut off, where there is one.
fn cut_off<'a>(pieces: Option<&'a str>) -> Option<Cut<'a>>
    ensures { pieces_of result ≡ pieces_left dollar pieces.entry }
{
    let Some(text) = pieces else {
        return None;
    };
    let (piece, others) = first_piece(text, '$');
    Some(Cut { piece, others })
}

// The digits of a version, and the pieces behind it.
fn take_version<'a>(pieces: Option<Cut<'a>>) -> (Option<&'a str>, Option<Cut<'a>>)
    ensures taken { lent result.0 ≡ read_first version_digits (pieces_of pieces.entry) }
    ensures others { pieces_of result.1 ≡ pieces_behind (lent result.0) (pieces_of pieces.entry) }
{
    let Some(next) = pieces else {
        return (None, None);
    };
    match version_digits(next.piece) {
        Some(digits) => (Some(digits), cut_off(next.others)),
        None => (None, pieces),
    }
}

// The parameters, and the pieces behind them.
fn take_params<'a>(pieces: Option<Cut<'a>>) -> (Option<&'a str>, Option<Cut<'a>>)
    ensures taken { lent result.0 ≡ read_first params_text (pieces_of pieces.entry) }
    ensures others { pieces_of result.1 ≡ pieces_behind (lent result.0) (pieces_of pieces.entry) }
{
    let Some(next) = pieces else {
        return (None, None);
    };
    match params_text(next.piece) {
        Some(params) => (Some(params), cut_off(next.others)),
        None => (None, pieces),
    }
}

// The parts from the salt on, behind these.
fn layout_from_salt<'a>(
    version: Option<&'a str>,
    params: Option<&'a str>,
    pieces: Option<Cut<'a>>,
) -> FormParts<'a>
    ensures { parts_of result ≡ layout_from_salt (lent version.entry) (lent params.entry) (pieces_of pieces.entry) }
{
    let Some(salt) = pieces else {
        return FormParts {
            version,
            params,
            salt: None,
            hash: None,
            rest: None,
        };
    };
    let (hash, rest) = next_piece(salt.others, '$');
    FormParts {
        version,
        params,
        salt: Some(salt.piece),
        hash,
        rest,
    }
}

/// Which of the pieces behind the identifier is what.
pub(crate) fn layout<'a>(pieces: Option<&'a str>) -> FormParts<'a>
    ensures { parts_of result ≡ layout (pieces_left dollar pieces.entry) }
{
    let (version, pieces) = take_version(cut_off(pieces));
    let (params, pieces) = take_params(pieces);
    layout_from_salt(version, params, pieces)
}
