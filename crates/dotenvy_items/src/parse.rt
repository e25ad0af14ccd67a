//! What one logical line says.
ghost use Rattle.std.specs.Prelude.{◌≡◌, ◌<◌, ◌++◌, length, List, ℕ, IfOk, IfErr, Ok};
ghost use Rattle.std.specs.Str.{chars};
ghost use Rattle.dotenvy_format.specs.Characters.{byte_len};
ghost use Rattle.dotenvy_format.specs.Outcome.{value_index};
ghost use Rattle.dotenvy_base.specs.Errors.{IsMemory};
ghost use Rattle.dotenvy_items.specs.Remembered.{remembered_of};
ghost use Rattle.dotenvy_items.specs.Meaning.{look_up_of, names_of};
ghost use Rattle.dotenvy_format.specs.Value.{Piece};
ghost use Rattle.dotenvy_items.specs.inside.FirstPass.{IsAssigned, Scans, GivesPair, IsFaultOf};
ghost use Rattle.dotenvy_items.specs.inside.ParsedLine.{AnswersLine, Remembers, HasKey};

use crate::meaning::{Known, Names};
use crate::remembered::{Remembered, remember};
use dotenvy_base::environment::Environment;
use dotenvy_base::errors::{Result, fault_error};
use dotenvy_format::dialect::Dialect;
use dotenvy_format::statement::split_statement;
use dotenvy_format::text::{char_count, is_empty_or_comment, skip_white};
use std::alloc::Allocator;

pub(crate) type Pair<A> = (String<A>, String<A>);

pub(crate) type ParsedLine<A> = Result<Option<Pair<A>>, A>;

/// A value, and what the first pass finds out about its meaning.
#[derive(Clone, Copy)]
pub struct Value<'n, 'a> {
    /// The value as it is written.
    pub text: &'a str,
    /// The length of what it means in bytes, or the greatest `usize` where that is less.
    pub len: usize,
    /// What it means, if one piece of it gives it all.
    pub whole: Option<&'a str>,
    /// The last name that it mentions, with the text that the name stands for.
    pub known: Option<Known<'n, 'a>>,
}

impl<'n, 'a> Value<'n, 'a> {
    // The value as it is written, as the result of a call, since the prover then knows that it is UTF-8.
    pub(crate) fn written(self) -> &'a str
        ensures { result.now ≡ self.entry.text.now }
    {
        self.text
    }
}

/// A key and its value.
#[derive(Clone, Copy)]
pub struct Declaration<'n, 'a> {
    /// The key.
    pub key: &'a str,
    /// The value, or `None` where nothing or a comment is assigned.
    pub value: Option<Value<'n, 'a>>,
}

/// A text that is no statement or no value.
#[derive(Clone, Copy)]
pub struct Fault<'a> {
    /// The text.
    pub text: &'a str,
    /// The index of its fault: in bytes or in characters, as docs/GRAMMAR.md says in "Faults and their places".
    pub index: usize,
}

/// A logical line that is read, and the allocator for what it says.
#[derive(Drop)]
pub(crate) struct Line<'a, A: Allocator> {
    pub(crate) text: &'a str,
    pub(crate) dialect: Dialect,
    pub(crate) alloc: &'a A,
}

// How many bytes of the text stand before what is left of it.
fn front_len(text: &str, left: &str) -> usize
    requires { (front : List ℕ) × (chars text.now ≡ front ++ chars left.now) }
    ensures { (front : List ℕ) → chars text.now ≡ front ++ chars left.now →
        result ≡ byte_len front }
{
    text.len() - left.len()
}

// The index of a fault in a value: in characters, but in bytes for a value that only lacks its end.
#[tactic(auto, using(crate::proofs::LinePasses::fault_places))]
fn fault_index(value: &str, left: &str) -> usize
    requires cut { (front : List ℕ) × (chars value.now ≡ front ++ chars left.now) }
    requires nonempty { 0 < length value.now }
    ensures { (front : List ℕ) → chars value.now ≡ front ++ chars left.now →
        result ≡ value_index (chars value.now) (length front) }
{
    if left.is_empty() {
        value.len() - 1
    } else {
        char_count(value) - char_count(left)
    }
}

/// The first pass, which takes no memory: nothing, a declaration with the length of its value's meaning, or the fault.
pub fn scan_line<'n, 'a, A: Allocator>(
    line: &'a str,
    names: &Names<'n, A>,
    dialect: Dialect,
) -> std::result::Result<Option<Declaration<'n, 'a>>, Fault<'a>>
    ensures { Scans dialect (look_up_of names.now) (chars line.now) result }
{
    let trimmed = line.trim_end();
    if is_empty_or_comment(skip_white(trimmed)) {
        return Ok(None);
    }
    let statement = match split_statement(trimmed) {
        Ok(statement) => statement,
        Err(left) => {
            return Err(Fault {
                text: line,
                index: front_len(trimmed, left),
            });
        }
    };
    let (key, text) = (statement.key, statement.rest);
    if is_empty_or_comment(text) {
        return Ok(Some(Declaration { key, value: None }));
    }
    match names.measure(text, dialect) {
        Ok(value) => Ok(Some(Declaration {
            key,
            value: Some(value),
        })),
        Err(left) => Err(Fault {
            text,
            index: fault_index(text, left),
        }),
    }
}

/// What a line declares, if anything. Its fault is the error.
pub(crate) fn declaration_of<'n, 'a, A: Allocator + Clone>(
    line: &Line<'a, A>,
    names: &Names<'n, A>,
) -> Result<Option<Declaration<'n, 'a>>, A>
    ensures declared { IfOk result (λ declared. Scans line.now.dialect (look_up_of names.now)
        (chars line.now.text.now) (Ok declared)) }
    ensures fault { IfErr result (IsFaultOf line.now.dialect (chars line.now.text.now)) }
{
    match scan_line(line.text, names, line.dialect) {
        Ok(declared) => Ok(declared),
        Err(fault) => Err(fault_error(line.alloc.clone()?, fault.text, fault.index)),
    }
}

/// The second pass: the key of a declaration, and what its value means.
///
/// It copies the text, or takes the memory once and fills it: no later push can be refused. No clause says that memory
/// is asked for once.
pub(crate) fn pair_of<'n, A: Allocator + Clone>(
    alloc: A,
    declaration: Declaration<'n, '_>,
    names: &Names<'n, A>,
    dialect: Dialect,
) -> Result<Pair<A>, A>
    requires { (rest : List ℕ) × (pieces : List Piece)
        × IsAssigned dialect (look_up_of names.now) rest pieces declaration.value }
    ensures pair { GivesPair dialect (look_up_of names.now) declaration.entry result }
    ensures refused { IfErr result IsMemory }
{
    let key = String::from_str(alloc.clone()?, declaration.key)?;
    match declaration.value {
        None => Ok((key, String::new(alloc))),
        Some(written) => {
            let value = names.expand(alloc, written, dialect)?;
            Ok((key, value))
        }
    }
}

/// What one logical line says: nothing, a key and its value, or a fault. A pair is remembered.
///
/// The result is nothing; a key and what its value means; the fault with its text and place; or `Memory`. Only a pair
/// changes what is remembered, and only under its key.
pub(crate) fn parse_line<A: Allocator + Clone>(
    line: Line<'_, A>,
    remembered: &mut Remembered<A>,
    env: &Environment<A>,
) -> ParsedLine<A>
    ensures answer { AnswersLine line.entry.dialect
        (names_of env.now.names (remembered_of remembered.old.entries))
        (chars line.entry.text.now) result }
    ensures remembers { Remembers (chars line.entry.text.now)
        (remembered_of remembered.old.entries) (remembered_of remembered.new.entries) result }
    ensures key { IfOk result HasKey }
{
    let names = Names {
        env,
        remembered: &*remembered,
    };
    let declaration = match declaration_of(&line, &names)? {
        Some(declaration) => declaration,
        None => return Ok(None),
    };
    let (key, value) = pair_of(line.alloc.clone()?, declaration, &names, line.dialect)?;
    let remembered_key = String::from_str(line.alloc.clone()?, declaration.key)?;
    let remembered_value = match declaration.value {
        None => None,
        Some(_) => Some(String::from_str(line.alloc.clone()?, value.as_str())?),
    };
    remember(remembered, remembered_key, remembered_value)?;
    Ok(Some((key, value)))
}
