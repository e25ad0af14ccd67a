//! What is found in a file.

use crate::kind::Kind;
use crate::place::Place;

/// Something that is found in a file. It holds no text of it.
///
/// ```text
/// // `A=two words`: Kind::SpaceInValue at line 1, column 6
/// ```
#[derive(Clone, Copy, Debug, PartialEq, Eq)]
pub struct Finding {
    /// What is found.
    pub kind: Kind,
    /// Where the hand has to go.
    pub place: Place,
    /// The physical line of the other declaration, for the kinds that name one; else 0.
    pub other: u64,
    /// Whether it stands behind a quote that stays open, and is told as if that quote had not been opened.
    pub is_guess: bool,
}

/// Why a line is no declaration. It holds no text of the line.
///
/// ```text
/// // `A="x`, then `B=1`, and the file ends: Kind::OpenDoubleQuote at line 1, column 3, behind: Some(2)
/// ```
#[derive(Clone, Copy, Debug, PartialEq, Eq)]
pub struct LineFault {
    /// The cause.
    pub kind: Kind,
    /// Where the hand has to go.
    pub place: Place,
    /// The physical line from which on the rest of the line is to be read as a guess, if it is.
    pub behind: Option<u64>,
}
