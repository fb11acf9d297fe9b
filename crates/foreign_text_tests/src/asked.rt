//! What tests ask about a text.

use foreign_text::{Foreign, ForeignFault, MadeText, stored_text};

/// Whether the stored text is this one.
pub(crate) fn is_converted(foreign: Foreign, text: &str, stored: &str) -> bool {
    let mut made = MadeText::new();
    match stored_text(foreign, text, &mut made) {
        Ok(Some(held)) => held == stored,
        Ok(None) => made.as_slice() == stored.as_bytes(),
        Err(_) => false,
    }
}

/// The fault, if there is one, and nothing was put into the buffer that was lent.
pub(crate) fn fault_of(foreign: Foreign, text: &str) -> Option<ForeignFault> {
    let mut made = MadeText::from_slice(b"as it was");
    let fault = stored_text(foreign, text, &mut made).err();
    if made.as_slice() == b"as it was".as_slice() {
        fault
    } else {
        None
    }
}
