//! What is told of the names that a value mentions.

ghost use Rattle.std.specs.Prelude.{◌≡◌};
ghost use Rattle.std.specs.List.{list_any};
ghost use Rattle.std.specs.Char.{is_whitespace};
ghost use Rattle.dotenvy_findings.specs.Names.{after_letters, braced_kind, form_kind, unknown_kind, written_kind};

use crate::kind::Kind;
use crate::marks::bare_kind;
use crate::state::State;
use dotenvy_format::classes::is_name_character;
use dotenvy_format::dialect::Dialect;

/// Names that have a value.
pub trait Names {
    ghost use Rattle.std.specs.Prelude.{ℕ, Bool, List};

    ghost has_value: { Self → List ℕ → Bool };

    /// Whether the name has one.
    fn has(&self, name: &str) -> bool
        ensures { result ≡ has_value self.now name.now };
}

// The text without letters, digits and `_` at its start.
fn after_letters(text: &[char]) -> &[char]
    ensures { result.now ≡ after_letters text.now }
{
    let mut rest = text;
    'characters: while let Some((first, after)) = rest.split_first() {
        if !is_name_character(Dialect::Next, *first) {
            return rest;
        }
        rest = after;
    }
    rest
}

// What is told of a text in braces by what follows the name in it: the forms of shells with a default, and of names
// that have to be set.
fn form_kind(rest: &[char]) -> Option<Kind>
    ensures { result ≡ form_kind rest.now }
{
    let (first, after) = rest.split_first()?;
    match *first {
        '?' => Some(Kind::Required),
        ':' if after.first() == Some(&'?') => Some(Kind::Required),
        ':' | '-' | '=' | '+' => Some(Kind::Default),
        _ => None,
    }
}

// Whether white space is in the text.
fn has_blank(text: &[char]) -> bool
    ensures { result ≡ list_any is_whitespace text.now }
{
    let mut rest = text;
    'characters: while let Some((first, after)) = rest.split_first() {
        if first.is_whitespace() {
            return true;
        }
        rest = after;
    }
    false
}

// What is told of a text in braces because of its writing.
fn braced_kind(name: &[char]) -> Option<Kind>
    ensures { result ≡ braced_kind name.now }
{
    if name.is_empty() {
        return Some(Kind::EmptyBraces);
    }
    match form_kind(after_letters(name)) {
        Some(kind) => Some(kind),
        None if has_blank(name) => Some(Kind::BlankInBraces),
        None => None,
    }
}

/// What is told of a name because of its writing, in this state, by the character behind it that is text.
pub(crate) fn written_kind(state: State, name: &[char], follows: Option<char>) -> Option<Kind>
    ensures { result ≡ written_kind state name.now follows }
{
    match state {
        State::Dollar(quoting) | State::Bare(quoting) => {
            bare_kind(quoting, name.is_empty(), follows)
        }
        _ => braced_kind(name),
    }
}

/// What is told of a name without a value.
pub(crate) fn unknown_kind(is_braced: bool, is_own: bool) -> Kind
    ensures { result ≡ unknown_kind is_braced is_own }
{
    if is_own {
        Kind::OwnName
    } else if is_braced {
        Kind::UnknownBracedName
    } else {
        Kind::UnknownName
    }
}
