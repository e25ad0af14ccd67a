//! Where the reading of a value is.

ghost use Rattle.std.specs.Prelude.{◌≡◌};
ghost use Rattle.dotenvy_findings.specs.Cursors.{begins_here, cursor_after, ended_after, is_of_escape, is_of_whole, opens_quote, state_after, swallowed_after, swallowed_kind, unless_swallowed, value_fault};

use crate::cause::tail_kind;
use crate::kind::Kind;
use crate::place::Place;
use crate::state::{Before, State, next_state};
use dotenvy_format::dialect::Dialect;
use dotenvy_format::text::Quoting;

/// Where the reading of a value is, and what it keeps of what was read.
#[derive(Clone, Copy)]
pub(crate) struct Cursor {
    /// How the value is read.
    pub(crate) dialect: Dialect,
    /// The place of its first character.
    pub(crate) start: Place,
    /// What the reading is in the middle of.
    pub(crate) state: State,
    /// The place of the next character.
    pub(crate) place: Place,
    /// The place of the last quote that was opened.
    pub(crate) quote: Place,
    /// The place of the last dollar or backslash, or of the first blank behind the value.
    pub(crate) opener: Place,
    /// The last character.
    pub(crate) before: Option<char>,
    /// The character before the blanks behind the value.
    pub(crate) ended: Option<char>,
    /// The name in double quotes that took the closing quote.
    pub(crate) swallowed: Option<(Kind, Place)>,
}

// Whether a character opens a quote, by the states around it.
fn opens_quote(state: State, next: State) -> bool
    ensures { result ≡ opens_quote state next }
{
    matches!(
        (state, next),
        (State::Outside(_), State::Single | State::Double) | (State::Comment, State::CommentQuote)
    )
}

// Whether a dollar, a backslash or the blanks behind a value begin with a character, by the states around it.
fn begins_here(state: State, next: State) -> bool
    ensures { result ≡ begins_here state next }
{
    match (state, next) {
        (State::Tail, State::Tail) => false,
        (_, State::Tail | State::Escaped(_) | State::Dollar(_)) => true,
        _ => false,
    }
}

// The fault of a quote that is taken as text behind a name, by the states around it.
fn swallowed_kind(state: State, next: State, c: char) -> Option<Kind>
    ensures { result ≡ swallowed_kind state next c }
{
    match (state, next) {
        (State::Dollar(Quoting::DoubleQuoted), State::Double) if c == '"' => {
            Some(Kind::DollarBeforeQuote)
        }
        (State::Bare(Quoting::DoubleQuoted), State::Double) if c == '"' => {
            Some(Kind::BareNameInQuotes)
        }
        (
            State::Dollar(Quoting::Unquoted) | State::Bare(Quoting::Unquoted),
            State::Outside(Before::Text),
        ) if c == '\'' || c == '"' => Some(Kind::QuoteAfterName),
        _ => None,
    }
}

// Whether the fault is one of a backslash.
fn is_of_escape(kind: Kind) -> bool
    ensures { result ≡ is_of_escape kind }
{
    matches!(
        kind,
        Kind::BackslashInPlainValue
            | Kind::LineContinuation
            | Kind::CarriageReturnEscape
            | Kind::TabEscape
            | Kind::UnknownEscape
    )
}

// Whether the fault is one of the whole value.
fn is_of_whole(kind: Kind) -> bool
    ensures { result ≡ is_of_whole kind }
{
    matches!(
        kind,
        Kind::UnquotedKey
            | Kind::CommandWithSpace
            | Kind::Array
            | Kind::OpenSingleQuote
            | Kind::TypographicQuotes
    )
}

impl Cursor {
    // The state behind this character, with which this is left of this value.
    fn state_after(self, c: char, value: &[char], left: &[char]) -> State
        ensures { result ≡ state_after self c value.now left.now }
    {
        match (self.state, next_state(self.dialect, self.state, c)) {
            (State::Tail, State::Failed(_)) => { State::Failed(tail_kind(value, left, self.ended)) }
            (_, next) => next,
        }
    }

    // The name that took a closing quote, behind this character.
    fn swallowed_after(self, next: State, c: char) -> Option<(Kind, Place)>
        ensures { result ≡ swallowed_after self next c }
    {
        match swallowed_kind(self.state, next, c) {
            Some(Kind::QuoteAfterName) => Some((Kind::QuoteAfterName, self.place)),
            Some(kind) => Some((kind, self.opener)),
            None => self.swallowed,
        }
    }

    // The character before the blanks behind the value, behind one more character.
    fn ended_after(self, next: State) -> Option<char>
        ensures { result ≡ ended_after self next }
    {
        match (self.state, next) {
            (State::Tail, _) => self.ended,
            (_, State::Tail) => self.before,
            _ => self.ended,
        }
    }

    /// The cursor behind this character, with which this is left of this value.
    pub(crate) fn after(self, c: char, value: &[char], left: &[char]) -> Cursor
        ensures { result ≡ cursor_after self c value.now left.now }
    {
        let next = self.state_after(c, value, left);
        let quote = if opens_quote(self.state, next) {
            self.place
        } else {
            self.quote
        };
        let opener = if begins_here(self.state, next) {
            self.place
        } else {
            self.opener
        };
        Cursor {
            dialect: self.dialect,
            start: self.start,
            state: next,
            place: self.place.after(c),
            quote,
            opener,
            before: Some(c),
            ended: self.ended_after(next),
            swallowed: self.swallowed_after(next, c),
        }
    }

    /// The fault of a value that is none, with the cursor at its end.
    pub(crate) fn value_fault(self) -> (Kind, Place)
        ensures { result ≡ value_fault self }
    {
        match self.state {
            State::Failed(kind) if is_of_escape(kind) => (kind, self.opener),
            State::Failed(kind) if is_of_whole(kind) => self.unless_swallowed(kind, self.start),
            State::Failed(kind) => self.unless_swallowed(kind, self.opener),
            State::Braced(_) => (Kind::OpenBrace, self.opener),
            State::Dollar(Quoting::DoubleQuoted) => (Kind::DollarBeforeQuote, self.opener),
            State::Bare(Quoting::DoubleQuoted) => (Kind::BareNameInQuotes, self.opener),
            State::Double | State::Escaped(Quoting::DoubleQuoted) => {
                self.unless_swallowed(Kind::OpenDoubleQuote, self.quote)
            }
            State::Single => self.unless_swallowed(Kind::OpenSingleQuote, self.quote),
            _ => (Kind::OtherFault, self.start),
        }
    }

    // The name that took a quote, if one did, else this.
    fn unless_swallowed(self, kind: Kind, place: Place) -> (Kind, Place)
        ensures { result ≡ unless_swallowed self.swallowed kind place }
    {
        match self.swallowed {
            Some(found) => found,
            None => (kind, place),
        }
    }
}
