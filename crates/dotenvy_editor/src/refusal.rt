//! Why an edit is refused.

ghost use Rattle.std.specs.Prelude.{◌≡◌};

use std::alloc::AllocError;

/// Why no form of a value is read alike by Python's, Node's and Ruby's readers.
///
/// ```
/// // of `it's $5`, Unportable::Apostrophe; of `a\`, Unportable::LastBackslash
/// ```
#[derive(Clone, Copy, Debug, PartialEq, Eq, Drop)]
pub enum Unportable {
    /// The file begins with a byte order mark, which Python and Node read as a part of the first name.
    Mark,
    /// The value has a carriage return.
    CarriageReturn,
    /// The value has a single quote, and a double quote, a dollar or a backslash.
    Apostrophe,
    /// The value has a line feed, and a double quote, a dollar or a backslash.
    LineFeed,
    /// The value has two backslashes in a row.
    Backslashes,
    /// The value ends with a backslash.
    LastBackslash,
    /// The value has `${` and a later `}`.
    Substitution,
    /// The line has white space other than spaces around the name or after the value, or a carriage return alone ends
    /// it.
    WhiteSpace,
    /// The comment of the line has the quotes that the value needs.
    Comment,
}

/// Why an edit is refused.
///
/// ```
/// // setting `B` in a file that ends in `A="x` gives Reason::QuoteOpen
/// ```
#[derive(Clone, Copy, Debug, PartialEq, Eq, Drop)]
pub enum Reason {
    /// The name is no key.
    Key,
    /// The value has a NUL.
    Nul,
    /// No line assigns the key that is to be unset or renamed.
    Absent,
    /// A line assigns the new key of a rename already.
    Present,
    /// A quote stays open up to the end of the file, so nothing can be appended.
    QuoteOpen,
    /// The file ends after a backslash, or after a single blank, so nothing can be appended. End it with a line feed.
    EndOpen,
    /// No line assigns the key, and a line that begins with the key and `=` can't be read: it stays open up to the end
    /// of the file, or it isn't UTF-8.
    Unreadable,
    /// The comment of the line goes on over several lines, and it would be cut, or go.
    LongComment,
    /// No form of the value is read alike by the readers of Python, Node and Ruby.
    Unportable(Unportable),
}

/// An edit that is refused: why, and where.
///
/// ```
/// match set(alloc, bytes, "B", "1", how) {
///     Err(Unedited::Refused(refusal)) => println!(rt; "line {}", refusal.line)?,
///     outcome => { outcome?; }
/// }
/// ```
#[derive(Clone, Copy, Debug, PartialEq, Eq, Drop)]
pub struct Refusal {
    /// Why.
    pub reason: Reason,
    /// The physical line at which the logical line begins, counted from 1, or 0 where no line is the reason.
    pub line: u64,
}

/// Why there is no edited file.
///
/// ```
/// // set(alloc, b"A=1\n", "1A", "2", how) gives Unedited::Refused, with Reason::Key
/// ```
#[derive(Debug, Drop)]
pub enum Unedited {
    /// The edit is refused.
    Refused(Refusal),
    /// An allocation failed.
    Memory(AllocError),
}

impl From<AllocError> for Unedited {
    ghost use Rattle.dotenvy_editor.specs.Refusals.{IsMemory};

    ghost from_gives = { λ _ unedited. IsMemory unedited };

    fn from(failed: AllocError) -> Unedited {
        Unedited::Memory(failed)
    }
}

/// The edit is refused for this reason, at this line.
pub(crate) fn refused(reason: Reason, line: u64) -> Unedited
    ensures { result ≡ Unedited.Refused (record { reason = reason; line = line }) }
{
    Unedited::Refused(Refusal { reason, line })
}
