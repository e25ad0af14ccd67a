//! What is told of single characters and names of a value.

ghost use Rattle.std.specs.Prelude.{◌≡◌};
ghost use Rattle.dotenvy_findings.specs.Marks.{bare_kind, character_kind, is_apostrophe, is_taken, look_alike, outside_kind, start_kind};

use crate::characters::{is_letter, is_odd_space, is_typographic};
use crate::kind::Kind;
use crate::state::{Before, State};
use dotenvy_format::text::Quoting;

// Whether the character is the apostrophe of a word, by the character before it.
fn is_apostrophe(before: Option<char>, c: char) -> bool
    ensures { result ≡ is_apostrophe before c }
{
    c == '\u{2019}' && is_letter(before)
}

// What is told of a character that is easily mistaken for another, by the character before it.
fn look_alike(before: Option<char>, c: char) -> Option<Kind>
    ensures { result ≡ look_alike before c }
{
    if is_apostrophe(before, c) {
        None
    } else if is_typographic(c) {
        Some(Kind::TypographicText)
    } else if is_odd_space(c) {
        Some(Kind::OddSpace)
    } else {
        None
    }
}

// What is told of the first character of a value, which this one follows.
fn start_kind(c: char, follows: Option<char>) -> Option<Kind>
    ensures { result ≡ start_kind c follows }
{
    match (c, follows) {
        ('~', None | Some('/' | ' ' | '\t')) => Some(Kind::Tilde),
        ('<', Some('<')) => Some(Kind::HereDocument),
        _ => None,
    }
}

// What is told of a character outside quotes, behind this one and before this one.
fn outside_kind(what: Before, before: Option<char>, c: char, follows: Option<char>) -> Option<Kind>
    ensures { result ≡ outside_kind what before c follows }
{
    match (what, before) {
        (_, Some('\r')) => Some(Kind::LoneCarriageReturn),
        (Before::Start, _) => match start_kind(c, follows) {
            Some(kind) => Some(kind),
            None => look_alike(before, c),
        },
        (Before::Text, _) => match c {
            '\'' | '"' => Some(Kind::DroppedQuotes),
            _ => look_alike(before, c),
        },
        (Before::Quote, _) => match c {
            '#' => Some(Kind::HashAfterQuote),
            ';' => Some(Kind::SemicolonAfterQuote),
            _ => look_alike(before, c),
        },
    }
}

/// What is told of a character, by the state and the character before it, and the text behind it.
pub(crate) fn character_kind(
    state: State,
    before: Option<char>,
    c: char,
    rest: &[char],
) -> Option<Kind>
    ensures { result ≡ character_kind state before c rest.now }
{
    match (state, before) {
        (State::Comment, _) => None,
        (State::CommentQuote, _) if c == '\n' => Some(Kind::QuoteInComment),
        (State::CommentQuote, _) => None,
        _ if c == '\0' => Some(Kind::Nul),
        (State::Outside(what), _) => outside_kind(what, before, c, rest.first().copied()),
        _ => None,
    }
}

// Whether this character, which is text behind a bare name, is easily taken for what it is elsewhere.
fn is_taken(quoting: Quoting, c: char) -> bool
    ensures { result ≡ is_taken quoting c }
{
    match quoting {
        Quoting::Unquoted => matches!(c, '\'' | '"' | '\\' | ' ' | '\t'),
        Quoting::DoubleQuoted => matches!(c, '"' | '\\'),
    }
}

/// What is told of a bare name because of its writing, by the character behind it that is text.
pub(crate) fn bare_kind(quoting: Quoting, is_empty: bool, follows: Option<char>) -> Option<Kind>
    ensures { result ≡ bare_kind quoting is_empty follows }
{
    match (is_empty, follows) {
        (_, Some('_')) => Some(Kind::NameBeforeUnderscore),
        (true, Some('(')) => Some(Kind::Command),
        (true, _) => Some(Kind::LoneDollar),
        (false, Some(c)) if is_taken(quoting, c) => Some(Kind::TextAfterName),
        (false, _) => None,
    }
}
