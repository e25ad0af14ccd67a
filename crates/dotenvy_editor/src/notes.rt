//! What is noted of the lines of a file.

ghost use Rattle.std.specs.Prelude.{◌≡◌, chars, take};
ghost use Rattle.std.specs.Str.Lossy.{utf8_valid_len};
ghost use Rattle.dotenvy_editor.specs.Assignments.{BeginsWithKey};
ghost use Rattle.dotenvy_editor.specs.inside.Noted.{GoesOn, NotesIf, OpensFor, fault_last, first_noted, is_inside, no_notes};

use crate::forms::ends_in;
use crate::lines::Slice;
use crate::refusal::Reason;
use crate::values::assigns;
use dotenvy_format::walk::{LineMode, Walked, walk_text};
use std::str::from_utf8;

/// What the last logical line is, as far as an append asks.
#[derive(Clone, Copy)]
pub(crate) enum Last {
    /// A line after which more can come.
    Closed,
    /// A line that is no statement and ends in a carriage return, which its fault quotes.
    Fault,
    /// An open end that begins at this line, in quotes or after a backslash or a blank.
    Open(Reason, u64),
}

/// What the lines so far are.
#[derive(Clone, Copy)]
pub(crate) struct Notes {
    /// The first line that begins with the key and `=` and can't be read.
    pub(crate) unreadable: Option<u64>,
    /// The first line that assigns the new key of a rename.
    pub(crate) present: Option<u64>,
    /// What the last line is.
    pub(crate) last: Last,
}

// The text at the front of the bytes, as far as these are UTF-8.
fn text_front(bytes: &[u8]) -> &str
    ensures { result.now ≡ take (utf8_valid_len bytes.now) bytes.now }
{
    match from_utf8(bytes) {
        Ok(text) => text,
        Err(error) => match from_utf8(&bytes[..error.valid_up_to()]) {
            Ok(text) => text,
            Err(_) => "",
        },
    }
}

// Whether the mode is in quotes.
fn is_inside(mode: LineMode) -> bool
    ensures { result ≡ is_inside mode }
{
    matches!(mode, LineMode::Inside(_) | LineMode::InsideEscaping(_))
}

/// What a text that is no statement is as a last line.
pub(crate) fn fault_last(text: &str) -> Last
    ensures { result ≡ fault_last (chars text.now) }
{
    if ends_in(text, '\r') {
        Last::Fault
    } else {
        Last::Closed
    }
}

/// Why nothing can be appended after a text that stays open.
pub(crate) fn open_reason(text: &str) -> Reason
    requires { GoesOn (chars text.now) }
    ensures { OpensFor result (chars text.now) }
{
    match walk_text(text, LineMode::Outside) {
        Walked::Going(mode) => {
            if is_inside(mode) {
                Reason::QuoteOpen
            } else {
                Reason::EndOpen
            }
        }
        Walked::EndedAt(_, _) => Reason::EndOpen,
    }
}

impl Notes {
    /// Nothing is noted yet.
    pub(crate) fn new() -> Notes
        ensures { result ≡ no_notes }
    {
        Notes {
            unreadable: None,
            present: None,
            last: Last::Closed,
        }
    }

    /// Notes a line that can't be read.
    pub(crate) fn note_unread(&mut self, slice: Slice<'_>, key: &str)
        ensures notes { NotesIf (BeginsWithKey (chars key.now) slice.entry.bytes.now) slice.entry.first
            self.old.unreadable self.new.unreadable }
        ensures others { self.new ≡ record self.old { unreadable = self.new.unreadable } }
    {
        if assigns(text_front(slice.bytes), key) {
            self.unreadable = self.unreadable.or(Some(slice.first));
        }
    }

    /// Notes a line that assigns the new key of a rename.
    pub(crate) fn note_present(&mut self, line: u64)
        ensures { self.new ≡ record self.old { present = first_noted self.old.present line } }
    {
        self.present = self.present.or(Some(line));
    }
}
