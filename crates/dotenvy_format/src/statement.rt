//! Reads a line up to what is assigned: an optional `export`, a key and `=` (docs/GRAMMAR.md, "Keys" and "`export`").

#![tactic(auto, using(crate::proofs::statements::StatementParts::slice_laws))]

ghost use Rattle.std.specs.Prelude.{◌≡◌, option_map};
ghost use Rattle.std.specs.Str.{chars};
ghost use Rattle.dotenvy_format.specs.inside.ParseStatement.{split_key, assigned, parse, assignment_of, parsed_of, cut_of};

use crate::classes::begins_key;
use crate::text::{Class, skip_white, split_first, split_while};

/// A key and what is assigned to it, as slices of the line.
#[derive(Clone, Copy)]
pub struct Statement<'a> {
    /// The key, without `export` and white space.
    pub key: &'a str,
    /// What follows `=`, without white space at its start.
    pub rest: &'a str,
}

// A statement, or what is left of the line at its fault.
type Parsed<'a> = std::result::Result<Statement<'a>, &'a str>;

// The key that the text begins with, and what follows it, without white space at its start.
fn split_key(text: &str) -> std::result::Result<(&str, &str), &str>
    ensures { cut_of result ≡ split_key (chars text.now) }
{
    match split_first(text) {
        Some((first, _)) if begins_key(first) => {
            let (key, after) = split_while(text, Class::Key);
            Ok((key, skip_white(after)))
        }
        _ => Err(text),
    }
}

// What is assigned to the key, if what is left begins with `=`.
fn assigned<'a>(key: &'a str, left: &'a str) -> Option<Statement<'a>>
    ensures { option_map assignment_of result ≡ assigned (chars key.now) (chars left.now) }
{
    let (first, rest) = split_first(left)?;
    if first != '=' {
        return None;
    }
    Some(Statement {
        key,
        rest: skip_white(rest),
    })
}

/// Reads the statement of a line that has no white space at its end. White space at its start is skipped.
///
/// The error is the rest of the line, from the first character that is wrong. It is empty if the line stops too early.
pub fn split_statement(line: &str) -> Parsed<'_>
    ensures { parsed_of result ≡ parse (chars line.now) }
{
    let (first, left) = split_key(skip_white(line))?;
    if let Some(statement) = assigned(first, left) {
        return Ok(statement);
    }
    if first != "export" {
        return Err(left);
    }
    let (key, left) = split_key(left)?;
    assigned(key, left).ok_or(left)
}
