//! Texts of a value: how long what its parts mean is, and their meaning, up to a name, the end of the value or a fault.

ghost use Rattle.std.specs.Prelude.{◌≡◌, ◌≤◌, ◌<◌, ◌+◌, ◌++◌, MatchOption, not, false, length, string_bytes, string_len};
ghost use Rattle.std.specs.Str.{chars};
ghost use Rattle.std.specs.String.{string_capacity};
ghost use Rattle.dotenvy_format.specs.Characters.{begins_passing};
ghost use Rattle.dotenvy_format.specs.Value.{is_plain};
ghost use Rattle.dotenvy_format.specs.inside.ReadValue.{base};
ghost use Rattle.dotenvy_format.specs.inside.NextPiece.{begins_text, HasTextRoom, MeansText, MeasuresTexts, PushesTexts};

use crate::text::{Quoting, is_plain_byte, split_first};
use crate::value::{Kind, TextPart, escape, kind_of, other_quoting, plain, single_quoted};
use std::alloc::Allocator;

// Whether no more text comes right after a character that means itself: then no run has to be searched for.
#[inline(always)]
fn is_alone(left: &str, quoting: Quoting) -> bool
    ensures { result ≡ not (begins_passing (is_plain quoting) left.now) }
{
    match left.as_bytes().first() {
        Some(byte) => !is_plain_byte(quoting, *byte),
        None => true,
    }
}

// As `text_part`, but of backslashes or double quotes in a row only the first is taken.
#[inline(always)]
fn short_part(text: &str, quoting: Quoting) -> Option<TextPart<'_>>
    ensures { MatchOption result (begins_text quoting (chars text.now) ≡ false)
        (λ part. ((dialect : _) → MeansText dialect (base quoting) (chars text.now) part)
        × (length (chars part.rest.now) < length (chars text.now))) }
{
    let (first, left) = split_first(text)?;
    match kind_of(quoting, first) {
        Kind::Backslash => escape(left, quoting),
        Kind::SingleQuote => single_quoted(left),
        Kind::DoubleQuote => Some(TextPart {
            meant: "",
            rest: left,
            quoting: other_quoting(quoting),
        }),
        Kind::Plain if is_alone(left, quoting) => {
            let (meant, _) = text.split_at(first.len_utf8());
            Some(TextPart {
                meant,
                rest: left,
                quoting,
            })
        }
        Kind::Plain => Some(plain(text, quoting)),
        Kind::Dollar | Kind::SpaceOrTab => None,
    }
}

/// The texts at the start of what is left of a value.
#[derive(Clone, Copy)]
pub struct Texts<'a> {
    /// How many bytes they mean, or the greatest `usize` where that is less.
    pub len: usize,
    /// What is left of the value after them.
    pub rest: &'a str,
    /// Whether the rest begins in double quotes.
    pub quoting: Quoting,
}

/// Measures the texts at the start of what is left of a value.
pub fn measure_texts(value: &str, start: Quoting) -> Texts<'_>
    ensures { MeasuresTexts start (chars value.now) result }
{
    let mut len: usize = 0;
    let mut rest = value;
    let mut quoting = start;
    'texts: while let Some(part) = short_part(rest, quoting) {
        len = len.saturating_add(part.meant.len());
        rest = part.rest;
        quoting = part.quoting;
    }
    Texts { len, rest, quoting }
}

/// Appends a text, which is often one character, to one that has room for it.
#[inline(always)]
pub fn push_short<A: Allocator>(out: &mut String<A>, text: &str)
    requires { string_len out.old + length text.now ≤ string_capacity out.old }
    ensures bytes { string_bytes out.new ≡ string_bytes out.old ++ text.now }
    ensures capacity { string_capacity out.old ≤ string_capacity out.new }
{
    match split_first(text) {
        // without a call to copy bytes
        Some((character, rest)) if rest.is_empty() => out.push(character).unwrap(),
        _ => out.push_str(text).unwrap(),
    }
}

/// Appends what the texts at the start of what is left of a value mean, to one that has room for it. Gives what is left
/// after them, and whether that begins in double quotes.
pub fn push_texts<'a, A: Allocator>(
    out: &mut String<A>,
    value: &'a str,
    start: Quoting,
) -> (&'a str, Quoting)
    requires { HasTextRoom start (chars value.now) (string_len out.old) (string_capacity out.old) }
    ensures texts { PushesTexts start (chars value.now) (string_bytes out.old) (string_bytes out.new) result }
    ensures capacity { string_capacity out.old ≤ string_capacity out.new }
{
    let mut rest = value;
    let mut quoting = start;
    'texts: while let Some(part) = short_part(rest, quoting) {
        push_short(out, part.meant);
        rest = part.rest;
        quoting = part.quoting;
    }
    (rest, quoting)
}
