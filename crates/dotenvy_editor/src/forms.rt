//! The forms in which a value can be written.

ghost use Rattle.std.specs.Prelude.{◌≡◌, ◌++◌, ◌<◌, ◌∷◌, [], OnOk, chars, encode_utf8_all, string_bytes};
ghost use Rattle.std.specs.List.{flat_map, list_any};
ghost use Rattle.dotenvy_format.specs.Characters.{double_quote};
ghost use Rattle.dotenvy_format.specs.Written.{needs_backslash};
ghost use Rattle.dotenvy_editor.specs.Ends.{ends_in};
ghost use Rattle.dotenvy_editor.specs.Forms.{closes, fits_quotes, form_text, has, in_quotes, is_plain, is_word, old_forms, where_true};
ghost use Rattle.dotenvy_editor.specs.inside.Tried.{double_character, found_forms};
ghost use Rattle.dotenvy_editor.specs.Warnings.{begins_name, has_dollar_name};

use dotenvy::Dialect;
use dotenvy_format::classes::is_name_character;
use dotenvy_format::text::{Class, split_first, split_while};
use std::alloc::{AllocError, Allocator};

/// A form of a value.
#[derive(Clone, Copy, Debug, PartialEq, Eq, Drop)]
pub(crate) enum Form {
    /// As it is.
    Plain,
    /// In single quotes.
    Single,
    /// In double quotes, with a backslash before each backslash, double quote and dollar.
    Double,
    /// In double quotes, with `\n` for a line feed.
    OneLine,
}

// A character of a plain word, for which a shell needs no quotes either.
fn is_plain(c: char) -> bool
    ensures { result ≡ is_plain c }
{
    c.is_ascii_alphanumeric()
        || matches!(c, '_' | '.' | '/' | ':' | '@' | '%' | '+' | ',' | '=' | '-')
}

// A character that needs a backslash in double quotes.
fn needs_backslash(c: char) -> bool
    ensures { result ≡ needs_backslash c }
{
    matches!(c, '\\' | '"' | '$')
}

/// Whether the value is a plain word, or empty.
pub(crate) fn is_word(value: &str) -> bool
    ensures { result ≡ is_word (chars value.now) }
{
    value.chars().all(is_plain)
}

/// Whether a character of the value needs a backslash in double quotes.
pub(crate) fn needs_escape(value: &str) -> bool
    ensures { result ≡ list_any needs_backslash (chars value.now) }
{
    value.chars().any(needs_backslash)
}

/// Whether a character of ASCII is in the value.
pub(crate) fn has(value: &str, c: char) -> bool
    requires { c < 128 }
    ensures { result ≡ has c (chars value.now) }
{
    value.contains(c)
}

/// Whether the text's last character is this one.
pub(crate) fn ends_in(text: &str, c: char) -> bool
    ensures { result ≡ ends_in c (chars text.now) }
{
    text.ends_with(c)
}

// Whether the text begins with a character of a name, or with a brace.
#[tactic(auto, using(dotenvy_format::proofs::bytes::Slices::no_characters))]
fn begins_name(text: &str, dialect: Dialect) -> bool
    ensures { result ≡ begins_name dialect (chars text.now) }
{
    match split_first(text) {
        Some((first, _)) => first == '{' || is_name_character(dialect, first),
        None => false,
    }
}

/// Whether the value has a dollar before a name or a brace, which would be a substitution outside single quotes.
pub(crate) fn has_name(value: &str, dialect: Dialect) -> bool
    ensures { result ≡ has_dollar_name dialect (chars value.now) }
{
    let mut rest = value;
    'dollars: while let Some((_, after)) = rest.split_once('$') {
        if begins_name(after, dialect) {
            return true;
        }
        rest = after;
    }
    false
}

// Whether a text that follows a quote has no more than the quoted part that the quote begins.
fn ends_quoted(after: &str, quote: char) -> bool
    ensures { result ≡ closes quote (chars after.now) }
{
    let mut rest = after;
    'quoted: loop {
        let (_, left) = split_while(rest, Class::Quoted(quote));
        let Some((first, later)) = split_first(left) else {
            return false;
        };
        if first == quote {
            return later.is_empty();
        }
        let Some((_, next)) = split_first(later) else {
            return false;
        };
        rest = next;
    }
}

// The form in these quotes, if the value needs no escape in them.
fn quotes_form(quote: char, value: &str) -> Option<Form>
    ensures { found_forms result (chars value.now)
        ≡ where_true (fits_quotes quote (chars value.now)) (in_quotes quote (chars value.now)) }
{
    match quote {
        '\'' if !has(value, '\'') => Some(Form::Single),
        '"' if !needs_escape(value) => Some(Form::Double),
        _ => None,
    }
}

/// The form with the quotes of an old value, if it is one quoted part and the new value needs no escape in these
/// quotes.
#[tactic(auto, using(dotenvy_format::proofs::bytes::Slices::no_characters))]
pub(crate) fn old_quotes(old: &str, value: &str) -> Option<Form>
    ensures { found_forms result (chars value.now) ≡ old_forms (chars old.now) (chars value.now) }
{
    let (quote, after) = split_first(old)?;
    if ends_quoted(after, quote) {
        quotes_form(quote, value)
    } else {
        None
    }
}

// Appends what is written of a character between double quotes.
fn push_character<A: Allocator>(
    out: &mut String<A>,
    c: char,
    is_one_line: bool,
) -> Result<(), AllocError>
    ensures { OnOk result (string_bytes out.new
        ≡ string_bytes out.old ++ encode_utf8_all (double_character is_one_line c)) }
{
    match c {
        '\n' if is_one_line => out.push_str("\\n"),
        _ => {
            if needs_backslash(c) {
                out.push('\\')?;
            }
            out.push(c)
        }
    }
}

// Appends what is written of a value between double quotes.
#[tactic(auto, using(crate::proofs::FormBytes::value_steps))]
fn push_escaped<A: Allocator>(
    out: &mut String<A>,
    value: &str,
    is_one_line: bool,
) -> Result<(), AllocError>
    ensures { OnOk result (string_bytes out.new ≡ string_bytes out.old
        ++ encode_utf8_all (flat_map (double_character is_one_line) (chars value.now))) }
{
    let mut rest = value;
    'characters: while let Some((first, after)) = split_first(rest) {
        push_character(out, first, is_one_line)?;
        rest = after;
    }
    Ok(())
}

// Appends a value in double quotes.
fn push_double<A: Allocator>(
    out: &mut String<A>,
    value: &str,
    is_one_line: bool,
) -> Result<(), AllocError>
    ensures { OnOk result (string_bytes out.new ≡ string_bytes out.old ++ encode_utf8_all
        (double_quote ∷ (flat_map (double_character is_one_line) (chars value.now)
        ++ double_quote ∷ []))) }
{
    out.push('"')?;
    push_escaped(out, value, is_one_line)?;
    out.push('"')
}

/// Appends the form of a value.
pub(crate) fn push_form<A: Allocator>(
    out: &mut String<A>,
    form: Form,
    value: &str,
) -> Result<(), AllocError>
    ensures { OnOk result (string_bytes out.new
        ≡ string_bytes out.old ++ encode_utf8_all (form_text form (chars value.now))) }
{
    match form {
        Form::Plain => out.push_str(value),
        Form::Single => {
            out.push('\'')?;
            out.push_str(value)?;
            out.push('\'')
        }
        Form::Double => push_double(out, value, false),
        Form::OneLine => push_double(out, value, true),
    }
}
