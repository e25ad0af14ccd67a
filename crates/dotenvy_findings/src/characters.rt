//! What a text begins with, and characters that are easily mistaken for others.

ghost use Rattle.std.specs.Prelude.{◌≡◌};
ghost use Rattle.dotenvy_format.specs.Characters.{begins_passing};
ghost use Rattle.dotenvy_findings.specs.Characters.{begins_declaration, goes_on_to_value, is_letter, is_odd_space, is_of_value, is_typographic, skip_export, skip_spaces};
ghost use Rattle.dotenvy_findings.specs.Runs.{is_plain, is_plain_or_space};

use dotenvy_format::classes::{begins_key, continues_key, is_name_character};
use dotenvy_format::dialect::Dialect;

/// Whether the character is a typographic quote.
pub(crate) fn is_typographic(c: char) -> bool
    ensures { result ≡ is_typographic c }
{
    matches!(
        c,
        '\u{201c}' | '\u{201d}' | '\u{2018}' | '\u{2019}' | '\u{201e}' | '\u{ab}'
    )
}

/// Whether the character looks like a space, or like nothing, and is neither a space nor a tab.
pub(crate) fn is_odd_space(c: char) -> bool
    ensures { result ≡ is_odd_space c }
{
    matches!(
        c,
        '\u{a0}'
            | '\u{85}'
            | '\u{200b}'
            | '\u{2003}'
            | '\u{2007}'
            | '\u{2009}'
            | '\u{202f}'
            | '\u{205f}'
            | '\u{2060}'
            | '\u{3000}'
            | '\u{feff}'
    )
}

/// Whether the character is of ASCII and can be seen, but is no quote, backslash or dollar.
pub(crate) fn is_plain(c: char) -> bool
    ensures { result ≡ is_plain c }
{
    matches!(c, '!'..='~') && !matches!(c, '\'' | '"' | '\\' | '$')
}

/// Whether the character is such a one, or a space.
pub(crate) fn is_plain_or_space(c: char) -> bool
    ensures { result ≡ is_plain_or_space c }
{
    is_plain(c) || c == ' '
}

/// Whether there is a character, and it is a letter or a number.
pub(crate) fn is_letter(c: Option<char>) -> bool
    ensures { result ≡ is_letter c }
{
    match c {
        Some(c) => is_name_character(Dialect::V15, c),
        None => false,
    }
}

/// The text without spaces and tabs at its start.
pub(crate) fn skip_spaces(text: &[char]) -> &[char]
    ensures { result.now ≡ skip_spaces text.now }
{
    let mut rest = text;
    'spaces: while let Some((first, after)) = rest.split_first() {
        if !matches!(*first, ' ' | '\t') {
            return rest;
        }
        rest = after;
    }
    rest
}

// Whether the text begins with a character that is no end of a line and no equals sign.
fn begins_value(text: &[char]) -> bool
    ensures { result ≡ begins_passing is_of_value text.now }
{
    match text.first() {
        Some('\n' | '\r' | '=') | None => false,
        Some(_) => true,
    }
}

// Whether the text goes on with characters of keys, then with an equals sign, and with a value on its line.
fn goes_on_to_value(text: &[char]) -> bool
    ensures { result ≡ goes_on_to_value text.now }
{
    let mut rest = text;
    'characters: while let Some((first, after)) = rest.split_first() {
        if *first == '=' {
            return begins_value(after);
        }
        if !continues_key(*first) {
            return false;
        }
        rest = after;
    }
    false
}

// The text without spaces, tabs and `export` at its start.
fn skip_export(text: &[char]) -> &[char]
    ensures { result.now ≡ skip_export text.now }
{
    let rest = skip_spaces(text);
    if rest.starts_with(&['e', 'x', 'p', 'o', 'r', 't', ' ']) {
        skip_spaces(&rest[7..])
    } else {
        rest
    }
}

/// Whether the text begins a declaration that has a value: perhaps `export`, then a key, and right behind it an equals
/// sign and a character of the line that is none.
///
/// ```text
/// // `export A=1`: true; `A =1` and `A==1`: false
/// ```
pub fn begins_declaration(text: &[char]) -> bool
    ensures { result ≡ begins_declaration text.now }
{
    let rest = skip_export(text);
    match rest.first() {
        Some(first) => begins_key(*first) && goes_on_to_value(rest),
        None => false,
    }
}
