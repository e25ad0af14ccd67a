//! What a line assigns, with each name in it as it is written: nothing is substituted.

ghost use Rattle.std.specs.Prelude.{◌≡◌, ◌++◌, IfOk, OnOk, chars, option_map, string_bytes};
ghost use Rattle.std.specs.Str.{encode_utf8_all};
ghost use Rattle.dotenvy_editor.specs.Verbatim.{AssignsVerbatim, BeginsVerbatim, Finds, SaysVerbatim};
ghost use Rattle.dotenvy_editor.specs.inside.VerbatimReading.{given, given_base, given_name, given_text, verbatim};

use crate::lines::Lines;
use crate::mentions::Names;
use crate::tail::Reading;
use crate::values::{Said, said_by, value_of};
use dotenvy::Dialect;
use dotenvy_format::text::{Quoting, is_empty_or_comment, split_first};
use std::alloc::{AllocError, Allocator};

// What a character gives with which a part begins.
fn given_base(quoting: Quoting, c: char) -> Option<char>
    ensures { result ≡ given_base quoting c }
{
    match quoting {
        Quoting::Unquoted => match c {
            '\\' | '\'' | '"' | ' ' | '\t' => None,
            _ => Some(c),
        },
        Quoting::DoubleQuoted => match c {
            '\\' | '"' => None,
            _ => Some(c),
        },
    }
}

// What a character gives after a dollar or a bare name.
fn given_name(dialect: Dialect, quoting: Quoting, c: char) -> Option<char>
    ensures { result ≡ given_name dialect quoting c }
{
    match (dialect, quoting) {
        (Dialect::Next, Quoting::DoubleQuoted) if c == '"' => None,
        _ => Some(c),
    }
}

// What a character of a value gives.
fn given(reading: Reading, dialect: Dialect, c: char) -> Option<char>
    ensures { result ≡ given dialect reading c }
{
    match reading {
        Reading::Base(quoting) => given_base(quoting, c),
        Reading::Escaping(_) if c == 'n' => Some('\n'),
        Reading::Single if c == '\'' => None,
        Reading::Dollar(quoting) if c != '{' => given_name(dialect, quoting, c),
        Reading::Name(quoting) => given_name(dialect, quoting, c),
        Reading::Escaping(_) | Reading::Single | Reading::Dollar(_) | Reading::Brace(_) => Some(c),
        Reading::Tail => None,
    }
}

// Appends a character, if there is one.
fn push_given<A: Allocator>(text: &mut String<A>, given: Option<char>) -> Result<(), AllocError>
    ensures { OnOk result (string_bytes text.new
        ≡ string_bytes text.old ++ encode_utf8_all (given_text given)) }
{
    match given {
        Some(c) => text.push(c),
        None => Ok(()),
    }
}

// What a value gives with each name as it is written, with its dollar and braces.
fn verbatim<A: Allocator>(alloc: A, value: &str, dialect: Dialect) -> Result<String<A>, AllocError>
    ensures { IfOk result (λ text. string_bytes text ≡ encode_utf8_all
        (verbatim dialect (Reading.Base Quoting.Unquoted) (chars value.now))) }
{
    let mut text = String::new(alloc);
    let mut reading = Reading::Base(Quoting::Unquoted);
    let mut rest = value;
    'characters: while let Some((first, later)) = split_first(rest) {
        push_given(&mut text, given(reading, dialect, first))?;
        reading = reading.after(dialect, first);
        rest = later;
    }
    Ok(text)
}

// What is assigned, with each name as it is written; `None` if it is a fault.
fn assigned_verbatim<A: Allocator + Clone>(
    alloc: A,
    assigned: &str,
    dialect: Dialect,
) -> Result<Option<String<A>>, AllocError>
    ensures { IfOk result (λ found. Finds (AssignsVerbatim dialect (chars assigned.now))
        (option_map string_bytes found)) }
{
    if is_empty_or_comment(assigned) {
        return Ok(Some(String::new(alloc)));
    }
    let names = Names::new(alloc.clone()?);
    match value_of(assigned, &names, dialect) {
        Some(_) => Ok(Some(verbatim(alloc, assigned, dialect)?)),
        None => Ok(None),
    }
}

// What the text of a logical line assigns, with each name as it is written.
fn said_verbatim<A: Allocator + Clone>(
    alloc: A,
    text: &str,
    dialect: Dialect,
) -> Result<Option<String<A>>, AllocError>
    ensures { IfOk result (λ found. Finds (SaysVerbatim dialect (chars text.now))
        (option_map string_bytes found)) }
{
    match said_by(text) {
        Said::Statement(statement) => assigned_verbatim(alloc, statement.rest, dialect),
        Said::Nothing | Said::Fault => Ok(None),
    }
}

/// What the first logical line of these bytes assigns to its key, with each name as it is written, with its dollar and
/// braces. Quotes are left out, and escapes are read. `None` if the line declares nothing, or is a fault.
///
/// ```
/// verbatim_value(alloc, b"A='$1' \"\\$2\"$B\n", Dialect::V15)?    // None: two words
/// verbatim_value(alloc, b"A='$1'\"\\$2\"$B # x\n", Dialect::V15)?    // $1$2$B
/// ```
pub fn verbatim_value<A: Allocator + Clone>(
    alloc: A,
    bytes: &[u8],
    dialect: Dialect,
) -> Result<Option<String<A>>, AllocError>
    ensures { IfOk result (λ found. Finds (BeginsVerbatim dialect bytes.now)
        (option_map string_bytes found)) }
{
    let mut lines = Lines::new(alloc.clone()?, bytes)?;
    match lines.advance()? {
        Some(slice) if slice.is_text() => said_verbatim(alloc, lines.text(), dialect),
        _ => Ok(None),
    }
}
