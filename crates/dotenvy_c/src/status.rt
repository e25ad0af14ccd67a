//! What C is told of errors.

ghost use Rattle.std.specs.Prelude.{◌≡◌, option_map};
ghost use Rattle.dotenvy_c.specs.Refused.{reason_status, unportable_status};
ghost use Rattle.dotenvy_c.specs.Told.{error_told, item_told, kind_status, outcome_told, told_of};

use dotenvy::{Error, Result};
use dotenvy_editor::refusal::{Reason, Unportable};
use std::io::ErrorKind;

/// Done: no error.
pub const DONE: u32 = 0;

/// A line of the file is wrong.
pub const LINE_PARSE: u32 = 1;

/// A line of the file, or a value that was to be set or written, is not UTF-8.
pub const NOT_UTF8: u32 = 2;

/// A value that was to be set has a NUL.
pub const NUL: u32 = 3;

/// The number of reads reached its bound.
pub const TOO_MANY_READS: u32 = 4;

/// An allocation failed.
pub const NO_MEMORY: u32 = 5;

/// An option is set that the call doesn't have.
pub const BAD_OPTION: u32 = 6;

/// The name is no key.
pub const NO_KEY: u32 = 7;

/// No line assigns the key.
pub const ABSENT: u32 = 8;

/// A quote stays open up to the end of the file, so nothing can be appended.
pub const QUOTE_OPEN: u32 = 9;

/// The file ends after a backslash, or after a single blank, so nothing can be appended.
pub const END_OPEN: u32 = 10;

/// No line assigns the key, and one that begins with it and `=` can't be read.
pub const UNREADABLE: u32 = 11;

/// The comment of a line goes on over several lines, and it would be cut, or go.
pub const LONG_COMMENT: u32 = 12;

/// No portable line, since the file begins with a byte order mark.
pub const UNPORTABLE_MARK: u32 = 13;

/// No portable form, since the value has a carriage return.
pub const UNPORTABLE_CARRIAGE_RETURN: u32 = 14;

/// No portable form, since the value has a single quote, and a double quote, a dollar or a backslash.
pub const UNPORTABLE_APOSTROPHE: u32 = 15;

/// No portable form, since the value has a line feed, and a double quote, a dollar or a backslash.
pub const UNPORTABLE_LINE_FEED: u32 = 16;

/// No portable form, since the value has two backslashes in a row.
pub const UNPORTABLE_BACKSLASHES: u32 = 17;

/// No portable form, since the value ends with a backslash.
pub const UNPORTABLE_LAST_BACKSLASH: u32 = 18;

/// No portable form, since the value has `${` and a later `}`.
pub const UNPORTABLE_SUBSTITUTION: u32 = 19;

/// No portable line, since its comment has the quotes that the value needs.
pub const UNPORTABLE_COMMENT: u32 = 20;

/// A line assigns the new key of a rename. No call here renames.
pub const PRESENT: u32 = 21;

/// No portable line, since it has white space other than spaces, or a carriage return alone ends it.
pub const UNPORTABLE_WHITE_SPACE: u32 = 22;

/// What C is told of an item, or of the result of a load.
#[derive(Clone, Copy)]
pub struct Told<'a> {
    /// `DONE`, or which error.
    pub status: u32,
    /// The key of a pair.
    pub key: &'a [u8],
    /// The value of a pair, or the text of an error.
    pub text: &'a [u8],
    /// The place in the text of a wrong line.
    pub index: usize,
}

// The status of an error of reading.
fn kind_status(kind: ErrorKind) -> u32
    ensures { result ≡ kind_status kind }
{
    match kind {
        ErrorKind::InvalidData => NOT_UTF8,
        _ => TOO_MANY_READS,
    }
}

// What C is told of an error. Refused memory is told by the call as a whole; an `EnvVar` is no error of a file.
fn error_told<'a>(error: &'a Error) -> Option<Told<'a>>
    ensures { option_map told_of result ≡ error_told error.now }
{
    let (status, text, index) = match error {
        Error::LineParse(text, index) => (LINE_PARSE, text.as_bytes(), *index),
        Error::Nul(key) => (NUL, key.as_bytes(), 0),
        Error::Io(fault) => (kind_status(fault.kind()), b"".as_slice(), 0),
        Error::EnvVar(_) | Error::Memory(_) => return None,
    };
    Some(Told {
        status,
        key: b"",
        text,
        index,
    })
}

/// What C is told of the result of a load, unless memory was refused.
pub fn outcome_told<'a>(outcome: &'a Result<()>) -> Option<Told<'a>>
    ensures { option_map told_of result ≡ outcome_told outcome.now }
{
    match outcome {
        Ok(()) => Some(Told {
            status: DONE,
            key: b"",
            text: b"",
            index: 0,
        }),
        Err(error) => error_told(error),
    }
}

/// What C is told of an item, unless memory was refused.
pub fn item_told<'a>(item: &'a Result<(String, String)>) -> Option<Told<'a>>
    ensures { option_map told_of result ≡ item_told item.now }
{
    match item {
        Ok((key, value)) => Some(Told {
            status: DONE,
            key: key.as_bytes(),
            text: value.as_bytes(),
            index: 0,
        }),
        Err(error) => error_told(error),
    }
}

// The status of a value, or a file, that has no portable form.
fn unportable_status(reason: Unportable) -> u32
    ensures { result ≡ unportable_status reason }
{
    match reason {
        Unportable::Mark => UNPORTABLE_MARK,
        Unportable::CarriageReturn => UNPORTABLE_CARRIAGE_RETURN,
        Unportable::Apostrophe => UNPORTABLE_APOSTROPHE,
        Unportable::LineFeed => UNPORTABLE_LINE_FEED,
        Unportable::Backslashes => UNPORTABLE_BACKSLASHES,
        Unportable::LastBackslash => UNPORTABLE_LAST_BACKSLASH,
        Unportable::Substitution => UNPORTABLE_SUBSTITUTION,
        Unportable::WhiteSpace => UNPORTABLE_WHITE_SPACE,
        Unportable::Comment => UNPORTABLE_COMMENT,
    }
}

/// The status of an edit that is refused.
pub fn reason_status(reason: Reason) -> u32
    ensures { result ≡ reason_status reason }
{
    match reason {
        Reason::Key => NO_KEY,
        Reason::Nul => NUL,
        Reason::Absent => ABSENT,
        Reason::Present => PRESENT,
        Reason::QuoteOpen => QUOTE_OPEN,
        Reason::EndOpen => END_OPEN,
        Reason::Unreadable => UNREADABLE,
        Reason::LongComment => LONG_COMMENT,
        Reason::Unportable(reason) => unportable_status(reason),
    }
}
