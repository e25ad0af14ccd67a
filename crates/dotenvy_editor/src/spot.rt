//! Where the value of an assignment is, in the text of its line.

ghost use Rattle.std.specs.Prelude.{◌≡◌, ◌++◌, List, ℕ, chars, encode_utf8_all, if◌then◌else◌};
ghost use Rattle.dotenvy.specs.Characters.{byte_len, is_empty_or_comment};
ghost use Rattle.dotenvy.specs.Dialect.{Dialect};
ghost use Rattle.dotenvy.specs.Outcome.{trimmed};
ghost use Rattle.dotenvy.specs.Statement.{IsStatement};
ghost use Rattle.dotenvy_editor.specs.Assignments.{IsOldValue, IsSpot};
ghost use Rattle.dotenvy_editor.specs.Forms.{comment_of, end_of, is_long};
ghost use Rattle.dotenvy_editor.specs.Slices.{HasLine};
ghost use Rattle.dotenvy_editor.specs.Told.{IsKeyEnd, TellsPart};
ghost use Rattle.dotenvy_editor.specs.inside.Tried.{texts_of};

use crate::forms::{ends_in, has};
use crate::values::Value;
use dotenvy_format::statement::Statement;
use dotenvy_format::text::is_empty_or_comment;

/// The text of an assignment's line: what comes before the value, the value, and what comes after it.
#[derive(Clone, Copy)]
pub(crate) struct Spot<'b> {
    pub(crate) front: &'b str,
    pub(crate) old: &'b str,
    pub(crate) rest: &'b str,
}

// The text up to what is assigned.
fn before_assigned<'t>(text: &'t str, assigned: &str) -> &'t str
    requires { (front : List ℕ) × (trimmed (chars text.now) ≡ front ++ chars assigned.now) }
    ensures { (front : List ℕ) → trimmed (chars text.now) ≡ front ++ chars assigned.now →
        result.now ≡ encode_utf8_all front }
{
    let trimmed = text.trim_end();
    let (before, _) = trimmed.split_at(trimmed.len() - assigned.len());
    before
}

// The text up to `=`, where nothing or a comment follows, and else up to what is assigned.
fn front_len(before: &str, assigned: &str) -> usize
    ensures { (front : List ℕ) → before.now ≡ encode_utf8_all front →
        result ≡ byte_len (if is_empty_or_comment (chars assigned.now) then trimmed front
        else front) }
{
    if is_empty_or_comment(assigned) {
        before.trim_end().len()
    } else {
        before.len()
    }
}

// The length of the old value, where a fault is all that is assigned.
fn old_len(assigned: &str, value: Option<Value>) -> usize
    ensures { (dialect : _) → TellsPart dialect (chars assigned.now) value →
        (old : List ℕ) × IsOldValue dialect (chars assigned.now) old
        × (result ≡ byte_len old) }
{
    match value {
        Some(value) => value.len,
        None => assigned.len(),
    }
}

/// How many bytes a statement with this text has up to the end of its key.
pub(crate) fn key_end(text: &str, statement: Statement<'_>) -> usize
    requires { IsStatement (trimmed (chars text.now)) (chars statement.key.now)
        (chars statement.rest.now) }
    ensures { IsKeyEnd (chars text.now) (chars statement.entry.key.now)
        (chars statement.entry.rest.now) result }
{
    let named = before_assigned(text, statement.rest).trim_end();
    match named.strip_suffix('=') {
        Some(key) => key.trim_end().len(),
        None => named.len(),
    }
}

// The end of a line: a line feed, a carriage return and a line feed, a carriage return, or nothing.
fn end_of(rest: &str) -> &'static str
    ensures { chars result.now ≡ end_of (chars rest.now) }
{
    match rest.strip_suffix('\n') {
        Some(before) if ends_in(before, '\r') => "\r\n",
        Some(_) => "\n",
        None if ends_in(rest, '\r') => "\r",
        None => "",
    }
}

// What begins at the first `#`.
fn comment_of(rest: &str) -> &str
    ensures { chars result.now ≡ comment_of (chars rest.now) }
{
    match rest.find('#') {
        Some(place) => {
            let (_, comment) = rest.split_at(place);
            comment
        }
        None => "",
    }
}

// Whether there is a line feed before the end of the line.
fn is_long(rest: &str) -> bool
    ensures { result ≡ is_long (chars rest.now) }
{
    match rest.strip_suffix('\n') {
        Some(before) => has(before, '\n'),
        None => has(rest, '\n'),
    }
}

impl<'b> Spot<'b> {
    /// The spot of this statement, whose line has this text. A value with a fault is all that is assigned.
    pub(crate) fn new(
        line: &'b str,
        text: &str,
        statement: Statement<'_>,
        value: Option<Value>,
    ) -> Spot<'b>
        requires line { HasLine line.now (chars text.now) }
        requires statement { IsStatement (trimmed (chars text.now)) (chars statement.key.now)
            (chars statement.rest.now) }
        requires part { (dialect : Dialect)
            × TellsPart dialect (chars statement.rest.now) value }
        ensures { (dialect : _) → TellsPart dialect (chars statement.entry.rest.now) value →
            IsSpot dialect (chars statement.entry.key.now) (chars text.now) line.entry.now
            (texts_of result) }
    {
        let before = before_assigned(text, statement.rest);
        let (front, back) = line.split_at(front_len(before, statement.rest));
        let (old, rest) = back.split_at(old_len(statement.rest, value));
        Spot { front, old, rest }
    }

    /// The end of the line: a line feed, a carriage return and a line feed, a carriage return, or nothing.
    pub(crate) fn end(self) -> &'static str
        ensures { chars result.now ≡ end_of (chars self.entry.rest.now) }
    {
        end_of(self.rest)
    }

    /// The comment after the value, with the end of the line; empty if there is none.
    pub(crate) fn comment(self) -> &'b str
        ensures { chars result.now ≡ comment_of (chars self.entry.rest.now) }
    {
        comment_of(self.rest)
    }

    /// Whether the comment goes on over several lines.
    pub(crate) fn has_long_comment(self) -> bool
        ensures { result ≡ is_long (chars self.entry.rest.now) }
    {
        is_long(self.rest)
    }
}
