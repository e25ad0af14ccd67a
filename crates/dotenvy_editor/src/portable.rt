//! The forms of a value that the readers of Python, Node and Ruby give alike.

ghost use Rattle.std.specs.Prelude.{◌≡◌, true, chars};
ghost use Rattle.std.specs.List.{list_any};
ghost use Rattle.dotenvy_format.specs.Characters.{begins_with};
ghost use Rattle.dotenvy_editor.specs.Portable.{before_comment, begins_with_braces, has_backslashes, has_braced_name};
ghost use Rattle.dotenvy_editor.specs.Portable.{has_white_space, is_other_white, single_refusal, value_refusal, without_end};
ghost use Rattle.dotenvy_editor.specs.inside.Tried.{has_form, may_have, texts_of};

use crate::forms::{Form, ends_in, has, is_word, needs_escape};
use crate::refusal::Unportable;
use crate::spot::Spot;
use dotenvy_format::text::split_first;

// Whether the text begins with this character.
#[tactic(auto, using(dotenvy_format::proofs::bytes::Slices::no_characters))]
fn begins_with(text: &str, c: char) -> bool
    ensures { result ≡ begins_with c (chars text.now) }
{
    match split_first(text) {
        Some((first, _)) => first == c,
        None => false,
    }
}

// Whether the value has two backslashes in a row.
fn has_backslashes(value: &str) -> bool
    ensures { result ≡ has_backslashes (chars value.now) }
{
    let mut rest = value;
    'backslashes: while let Some((_, after)) = rest.split_once('\\') {
        if begins_with(after, '\\') {
            return true;
        }
        rest = after;
    }
    false
}

// Whether the text begins with `{` and has a `}`.
fn begins_with_braces(text: &str) -> bool
    ensures { result ≡ begins_with_braces (chars text.now) }
{
    begins_with(text, '{') && has(text, '}')
}

// Whether the value has `${` and a later `}`.
fn has_braced_name(value: &str) -> bool
    ensures { result ≡ has_braced_name (chars value.now) }
{
    let mut rest = value;
    'dollars: while let Some((_, after)) = rest.split_once('$') {
        if begins_with_braces(after) {
            return true;
        }
        rest = after;
    }
    false
}

/// Why the value can't be in single quotes alike, if it can't.
pub(crate) fn single_refusal(value: &str) -> Option<Unportable>
    ensures { result ≡ single_refusal (chars value.now) }
{
    if has(value, '\'') {
        Some(Unportable::Apostrophe)
    } else if has(value, '\n') {
        Some(Unportable::LineFeed)
    } else if has_backslashes(value) {
        Some(Unportable::Backslashes)
    } else if ends_in(value, '\\') {
        Some(Unportable::LastBackslash)
    } else if has_braced_name(value) {
        Some(Unportable::Substitution)
    } else {
        None
    }
}

/// Why the value has no form that is read alike, if it has none.
pub(crate) fn value_refusal(value: &str) -> Option<Unportable>
    ensures { result ≡ value_refusal (chars value.now) }
{
    if has(value, '\r') {
        return Some(Unportable::CarriageReturn);
    }
    if needs_escape(value) {
        single_refusal(value)
    } else {
        None
    }
}

/// Whether the form of the value is read alike before this comment, which is empty where there is none.
#[tactic(auto, using(crate::proofs::TextTests::nil_text))]
pub(crate) fn fits(form: Form, value: &str, comment: &str) -> bool
    ensures { result ≡ may_have true (chars value.now) (chars comment.now) form }
{
    match form {
        Form::Plain => is_word(value) && !(value.is_empty() && !comment.is_empty()),
        Form::Single => single_refusal(value).is_none() && !has(comment, '\''),
        Form::Double => false,
        Form::OneLine => !needs_escape(value) && !has(comment, '"'),
    }
}

/// Whether the value has a form that is read alike before this comment.
pub(crate) fn has_form(value: &str, comment: &str) -> bool
    ensures { result ≡ has_form (chars value.now) (chars comment.now) }
{
    fits(Form::Plain, value, comment)
        || fits(Form::Single, value, comment)
        || fits(Form::OneLine, value, comment)
}

// White space other than a space.
fn is_other_white(c: char) -> bool
    ensures { result ≡ is_other_white c }
{
    c.is_whitespace() && c != ' '
}

// Whether white space other than spaces is in the text.
fn has_other_white(text: &str) -> bool
    ensures { result ≡ list_any is_other_white (chars text.now) }
{
    text.chars().any(is_other_white)
}

// The text without a line feed at its end, and a carriage return before that.
fn without_end(text: &str) -> &str
    ensures { chars result.now ≡ without_end (chars text.now) }
{
    match text.strip_suffix('\n') {
        Some(line) => match line.strip_suffix('\r') {
            Some(before) => before,
            None => line,
        },
        None => text,
    }
}

// The text before its first `#`.
fn before_comment(text: &str) -> &str
    ensures { chars result.now ≡ before_comment (chars text.now) }
{
    match text.split_once('#') {
        Some((before, _)) => before,
        None => text,
    }
}

/// Whether white space other than spaces is in front of the value, or after it up to a comment; or a carriage return
/// alone ends the line.
pub(crate) fn has_white_space(spot: Spot<'_>) -> bool
    ensures { result ≡ has_white_space (texts_of spot.entry) }
{
    has_other_white(spot.front)
        || has_other_white(before_comment(without_end(spot.rest)))
        || ends_in(spot.rest, '\r')
}
