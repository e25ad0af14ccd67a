//! Reads a value character by character, and tells what looks like a mistake in it.

ghost use Rattle.std.specs.Prelude.{◌≡◌, ◌==◌};
ghost use Rattle.dotenvy_findings.specs.Runs.{stays};
ghost use Rattle.dotenvy_findings.specs.States.{after_double, after_escape, after_name, after_outside, after_part, ends_name, escape_kind, inside, next_state};

use crate::characters::{is_plain, is_plain_or_space};
use crate::kind::Kind;
use dotenvy_format::classes::is_name_character;
use dotenvy_format::dialect::Dialect;
use dotenvy_format::text::Quoting;

/// What stands before a character outside quotes.
#[derive(Clone, Copy)]
pub(crate) enum Before {
    /// Nothing of the value.
    Start,
    /// A part of the value.
    Text,
    /// The quote that closes a part.
    Quote,
}

/// What the reading of a value is in the middle of.
#[derive(Clone, Copy)]
pub(crate) enum State {
    /// Nothing: it is outside quotes.
    Outside(Before),
    /// A backslash was read.
    Escaped(Quoting),
    /// A part in single quotes.
    Single,
    /// A part in double quotes.
    Double,
    /// A dollar was read.
    Dollar(Quoting),
    /// A bare name.
    Bare(Quoting),
    /// A name in braces.
    Braced(Quoting),
    /// The blanks behind a value.
    Tail,
    /// A comment behind a value.
    Comment,
    /// A comment behind a value, in which a quote was read.
    CommentQuote,
    /// A fault was read.
    Failed(Kind),
}

// The state behind a part in these quotes.
fn inside(quoting: Quoting) -> State
    ensures { result ≡ inside quoting }
{
    match quoting {
        Quoting::Unquoted => State::Outside(Before::Text),
        Quoting::DoubleQuoted => State::Double,
    }
}

// The state behind this character outside quotes.
fn after_outside(c: char) -> State
    ensures { result ≡ after_outside c }
{
    match c {
        '\\' => State::Escaped(Quoting::Unquoted),
        '\'' => State::Single,
        '"' => State::Double,
        '$' => State::Dollar(Quoting::Unquoted),
        ' ' | '\t' => State::Tail,
        _ => State::Outside(Before::Text),
    }
}

// The state behind this character in double quotes.
fn after_double(c: char) -> State
    ensures { result ≡ after_double c }
{
    match c {
        '\\' => State::Escaped(Quoting::DoubleQuoted),
        '"' => State::Outside(Before::Quote),
        '$' => State::Dollar(Quoting::DoubleQuoted),
        _ => State::Double,
    }
}

// The state behind this character, which is no part of what came before it.
fn after_part(quoting: Quoting, c: char) -> State
    ensures { result ≡ after_part quoting c }
{
    match quoting {
        Quoting::Unquoted => after_outside(c),
        Quoting::DoubleQuoted => after_double(c),
    }
}

// The fault of a backslash before this character, which is no escape.
fn escape_kind(quoting: Quoting, c: char) -> Kind
    ensures { result ≡ escape_kind quoting c }
{
    match (quoting, c) {
        (_, '\n') => Kind::LineContinuation,
        (Quoting::Unquoted, _) => Kind::BackslashInPlainValue,
        (Quoting::DoubleQuoted, 'r') => Kind::CarriageReturnEscape,
        (Quoting::DoubleQuoted, 't') => Kind::TabEscape,
        (Quoting::DoubleQuoted, _) => Kind::UnknownEscape,
    }
}

// The state behind a backslash and this character.
fn after_escape(quoting: Quoting, c: char) -> State
    ensures { result ≡ after_escape quoting c }
{
    match c {
        '\\' | '\'' | '"' | '$' | ' ' | 'n' => inside(quoting),
        _ => State::Failed(escape_kind(quoting, c)),
    }
}

// The state behind a bare name and this character, which is no part of it.
fn after_name(dialect: Dialect, quoting: Quoting, c: char) -> State
    ensures { result ≡ after_name dialect quoting c }
{
    match (dialect, quoting, c) {
        (_, _, '$') => State::Dollar(quoting),
        (Dialect::Next, Quoting::DoubleQuoted, '"') => State::Outside(Before::Quote),
        _ => inside(quoting),
    }
}

/// The state behind this character.
pub(crate) fn next_state(dialect: Dialect, state: State, c: char) -> State
    ensures { result ≡ next_state dialect state c }
{
    match state {
        State::Outside(_) => after_outside(c),
        State::Escaped(quoting) => after_escape(quoting, c),
        State::Single => {
            if c == '\'' {
                State::Outside(Before::Quote)
            } else {
                State::Single
            }
        }
        State::Double => after_double(c),
        State::Dollar(quoting) => {
            if c == '{' {
                State::Braced(quoting)
            } else if is_name_character(dialect, c) {
                State::Bare(quoting)
            } else {
                after_name(dialect, quoting, c)
            }
        }
        State::Bare(quoting) => {
            if is_name_character(dialect, c) {
                State::Bare(quoting)
            } else {
                after_name(dialect, quoting, c)
            }
        }
        State::Braced(quoting) => {
            if c == '}' {
                inside(quoting)
            } else {
                State::Braced(quoting)
            }
        }
        State::Tail => match c {
            ' ' | '\t' => State::Tail,
            '#' => State::Comment,
            _ => State::Failed(Kind::SpaceInValue),
        },
        State::Comment => match c {
            '\'' | '"' => State::CommentQuote,
            _ => State::Comment,
        },
        State::CommentQuote => State::CommentQuote,
        State::Failed(kind) => State::Failed(kind),
    }
}

/// Whether a name ends before or with this character.
pub(crate) fn ends_name(dialect: Dialect, state: State, c: char) -> bool
    ensures { result ≡ ends_name dialect state c }
{
    match state {
        State::Dollar(_) => c != '{' && !is_name_character(dialect, c),
        State::Bare(_) => !is_name_character(dialect, c),
        State::Braced(_) => c == '}',
        _ => false,
    }
}

/// Whether a reading in this state and behind this character stays in the state over one more character, of which
/// nothing is told.
pub(crate) fn stays(state: State, before: Option<char>, c: char) -> bool
    ensures { result ≡ stays state before c }
{
    match (state, before) {
        (State::Outside(Before::Text), Some('\r')) => false,
        (State::Outside(Before::Text), _) => is_plain(c),
        (State::Single | State::Double | State::Comment, _) => is_plain_or_space(c),
        _ => false,
    }
}
