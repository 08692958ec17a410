//! Names, as they are written.

use csp_lex::Place;

/// A name as it is written, with the place of its token.
#[derive(Clone, Copy)]
pub struct Name<'a> {
    /// The name, as it is written.
    pub text: &'a str,
    /// The place of its first character.
    pub place: Place,
}
