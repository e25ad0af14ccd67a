//! Why a line is no statement.

ghost use Rattle.std.specs.Prelude.{◌≡◌};
ghost use Rattle.dotenvy_findings.specs.Causes.{after_equals, after_word, at, behind_word, closes_in_word, export_fault, has_command, is_like_name, is_other_word, is_text, left_kind, line_kind, no_word, skip_keys, skip_white, statement_fault, tail_kind, whole_kind};

use crate::characters::{begins_declaration, is_letter, is_typographic};
use crate::kind::Kind;
use dotenvy_format::classes::{begins_key, continues_key, is_name_character};
use dotenvy_format::dialect::Dialect;

/// A kind, and how many characters stand before its place.
pub(crate) type Found = (Kind, usize);

/// The text without white space at its start.
pub(crate) fn skip_white(text: &[char]) -> &[char]
    ensures { result.now ≡ skip_white text.now }
{
    let mut rest = text;
    'blanks: while let Some((first, after)) = rest.split_first() {
        if !first.is_whitespace() {
            return rest;
        }
        rest = after;
    }
    rest
}

// The text without characters of keys at its start.
fn skip_keys(text: &[char]) -> &[char]
    ensures { result.now ≡ skip_keys text.now }
{
    let mut rest = text;
    'characters: while let Some((first, after)) = rest.split_first() {
        if !continues_key(*first) {
            return rest;
        }
        rest = after;
    }
    rest
}

// The text without a key at its start.
fn after_word(text: &[char]) -> &[char]
    ensures { result.now ≡ after_word text.now }
{
    match text.first() {
        Some(first) if begins_key(*first) => skip_keys(text),
        _ => text,
    }
}

/// What a line is that begins with no name.
pub(crate) fn line_kind(text: &[char]) -> Option<Kind>
    ensures { result ≡ line_kind text.now }
{
    if text.starts_with(&['<'; 7])
        || text.starts_with(&['='; 7])
        || text.starts_with(&['>'; 7])
        || text.starts_with(&['|'; 7])
    {
        return Some(Kind::Merge);
    }
    if text.starts_with(&['-'; 5]) {
        return Some(Kind::UnquotedKey);
    }
    if text.starts_with(&['/', '/']) || text.starts_with(&['-', '-']) || text.starts_with(&[';']) {
        return Some(Kind::OtherComment);
    }
    match text.first() {
        Some('[') => Some(Kind::Section),
        Some('=') => Some(Kind::NoName),
        _ => None,
    }
}

// This kind, at the place where this is left of the text.
fn at(kind: Kind, text: &[char], rest: &[char]) -> Found
    ensures { result ≡ at kind text.now rest.now }
{
    (kind, text.len().saturating_sub(rest.len()))
}

// Whether the word is this one.
fn is_text(word: &[char], text: &[char]) -> bool
    ensures { result ≡ is_text word.now text.now }
{
    word.len() == text.len() && word.starts_with(text)
}

// Whether the word declares a name in another language.
fn is_other_word(word: &[char]) -> bool
    ensures { result ≡ is_other_word word.now }
{
    is_text(word, &['s', 'e', 't'])
        || is_text(word, &['S', 'E', 'T'])
        || is_text(word, &['s', 'e', 't', 'x'])
        || is_text(word, &['s', 'e', 't', 'e', 'n', 'v'])
        || is_text(word, &['d', 'e', 'c', 'l', 'a', 'r', 'e'])
        || is_text(word, &['t', 'y', 'p', 'e', 's', 'e', 't'])
        || is_text(word, &['l', 'e', 't'])
        || is_text(word, &['l', 'o', 'c', 'a', 'l'])
        || is_text(word, &['r', 'e', 'a', 'd', 'o', 'n', 'l', 'y'])
        || is_text(word, &['c', 'o', 'n', 's', 't'])
        || is_text(word, &['v', 'a', 'r'])
        || is_text(word, &['e', 'n', 'v'])
        || is_text(word, &['E', 'N', 'V'])
}

// Whether a name was meant to begin with this character.
fn is_like_name(c: char) -> bool
    ensures { result ≡ is_like_name c }
{
    is_name_character(Dialect::V15, c) || c == '-' || c == '.'
}

// The fault of a line that begins with no name.
fn no_word(text: &[char], start: &[char]) -> Found
    ensures { result ≡ no_word text.now start.now }
{
    match start.first() {
        Some(first) if is_like_name(*first) && start.contains(&'=') => {
            at(Kind::NameStart, text, start)
        }
        _ => at(Kind::OtherFault, text, start),
    }
}

// The fault behind a name, or `None` if an equals sign follows.
fn behind_word(text: &[char], after: &[char]) -> Option<Found>
    ensures { result ≡ behind_word text.now after.now }
{
    let behind = skip_white(after);
    match behind.first() {
        Some('=') => None,
        Some(':') => Some(at(Kind::Colon, text, behind)),
        Some(_) if behind.len() == after.len() => Some(at(Kind::NameCharacter, text, after)),
        _ => Some(at(Kind::NoEqualsSign, text, after)),
    }
}

// The fault of a line that begins with `export` and then goes on so, or `None` if its statement is whole.
fn export_fault(text: &[char], behind: &[char]) -> Option<Found>
    ensures { result ≡ export_fault text.now behind.now }
{
    let after = after_word(behind);
    match behind.first() {
        Some('-') => Some(at(Kind::ExportOption, text, behind)),
        Some(_) if after.len() == behind.len() => Some(at(Kind::NameStart, text, behind)),
        _ if skip_white(after).is_empty() => {
            Some(at(Kind::ExportWithoutValue, text, skip_white(text)))
        }
        _ => behind_word(text, after),
    }
}

/// The fault of a line that is no statement, or `None` if what is assigned has it.
pub(crate) fn statement_fault(text: &[char]) -> Option<Found>
    ensures { result ≡ statement_fault text.now }
{
    let start = skip_white(text);
    if let Some(kind) = line_kind(start) {
        return Some(at(kind, text, start));
    }
    let after = after_word(start);
    if after.len() == start.len() {
        return Some(no_word(text, start));
    }
    let behind = skip_white(after);
    let (word, _) = start.split_at(start.len().saturating_sub(after.len()));
    match behind.first() {
        Some('=') => None,
        Some(_) if behind.len() == after.len() => behind_word(text, after),
        _ if is_text(word, &['e', 'x', 'p', 'o', 'r', 't']) => export_fault(text, behind),
        Some(_) if is_other_word(word) => Some(at(Kind::OtherWord, text, start)),
        _ => behind_word(text, after),
    }
}

/// The text behind the first equals sign.
pub(crate) fn after_equals(text: &[char]) -> &[char]
    ensures { result.now ≡ after_equals text.now }
{
    let mut rest = text;
    'characters: while let Some((first, after)) = rest.split_first() {
        if *first == '=' {
            return after;
        }
        rest = after;
    }
    rest
}

/// What is assigned: what follows the first equals sign, without white space at its start.
pub(crate) fn value_of(text: &[char]) -> &[char]
    ensures { result.now ≡ skip_white (after_equals text.now) }
{
    skip_white(after_equals(text))
}

// Whether a dollar and an opening parenthesis are in the text.
fn has_command(text: &[char]) -> bool
    ensures { result ≡ has_command text.now }
{
    let mut rest = text;
    'characters: while let Some((first, after)) = rest.split_first() {
        if *first == '$' && after.first() == Some(&'(') {
            return true;
        }
        rest = after;
    }
    false
}

// What is told of the end of a value by what is left of it, and the character before the blanks.
fn left_kind(left: &[char], ended: Option<char>) -> Option<Kind>
    ensures { result ≡ left_kind left.now ended }
{
    if left.starts_with(&['/', '/']) {
        Some(Kind::SlashComment)
    } else if left.starts_with(&[';']) || ended == Some(';') {
        Some(Kind::Semicolon)
    } else if left.starts_with(&['\\', '\n']) || is_text(left, &['\\']) {
        Some(Kind::LineContinuation)
    } else if begins_declaration(left) {
        Some(Kind::SeveralOnLine)
    } else {
        None
    }
}

// Whether the first single quote behind the first character is within a word.
fn closes_in_word(value: &[char]) -> bool
    ensures { result ≡ closes_in_word value.now }
{
    let mut rest = value;
    let mut before = None;
    'characters: while let Some((first, after)) = rest.split_first() {
        if *first == '\'' && before.is_some() {
            return is_letter(before) && is_letter(after.first().copied());
        }
        before = Some(*first);
        rest = after;
    }
    false
}

// What is told of a value with a space by the whole of it.
fn whole_kind(value: &[char], left: &[char]) -> Kind
    ensures { result ≡ whole_kind value.now left.now }
{
    let (front, _) = value.split_at(value.len().saturating_sub(left.len()));
    match value.first() {
        Some('(') => Kind::Array,
        Some('\'') if closes_in_word(value) => Kind::OpenSingleQuote,
        Some('\'' | '"') => Kind::TextAfterQuote,
        Some(first) if is_typographic(*first) => Kind::TypographicQuotes,
        _ if has_command(front) => Kind::CommandWithSpace,
        _ => Kind::SpaceInValue,
    }
}

/// Why nothing may follow the blanks behind a value: what is left of it, and the character before the blanks.
pub(crate) fn tail_kind(value: &[char], left: &[char], ended: Option<char>) -> Kind
    ensures { result ≡ tail_kind value.now left.now ended }
{
    if value.starts_with(&['-', '-', '-', '-', '-', 'B', 'E', 'G', 'I', 'N']) {
        return Kind::UnquotedKey;
    }
    match left_kind(left, ended) {
        Some(kind) => kind,
        None => whole_kind(value, left),
    }
}
