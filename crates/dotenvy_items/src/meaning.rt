//! What the names of a line stand for, and what a value means by them.
ghost use Rattle.std.specs.Prelude.{suc, ◌≡◌, ◌≤◌, ◌+◌, ◌++◌, [], length, unwrap_or, string_bytes, string_len, MatchOption, MatchResult};
ghost use Rattle.dotenvy_base.specs.Errors.{IsMemory};
ghost use Rattle.std.specs.String.{string_capacity};
ghost use Rattle.std.specs.Str.{chars, encode_utf8_all};
ghost use Rattle.dotenvy_format.specs.inside.NextPiece.{piece_bytes, times};
ghost use Rattle.dotenvy_items.specs.Meaning.{look_up_of};
ghost use Rattle.dotenvy_items.specs.inside.ValuePasses.{saturated, IsKnown, IsMeasured, MeansAlone, StandsFor, Measures};
ghost use Rattle.dotenvy_items.specs.inside.ValuePasses.{HasRoom, Appends};

use crate::parse::Value;
use crate::remembered::{Remembered, recall};
use dotenvy_base::environment::Environment;
use dotenvy_base::errors::Result;
use dotenvy_format::dialect::Dialect;
use dotenvy_format::text::Quoting;
use dotenvy_format::texts::{measure_texts, push_texts};
use dotenvy_format::value::{NextPiece, Piece, next_piece, text_part};
use std::alloc::Allocator;

/// The texts that the names of a line stand for.
#[derive(Drop)]
pub struct Names<'n, A: Allocator> {
    /// The values that count first.
    pub env: &'n Environment<A>,
    /// The values that were remembered.
    pub remembered: &'n Remembered<A>,
}

/// A name, and the text that it stands for.
#[derive(Clone, Copy)]
pub struct Known<'n, 'a> {
    /// The name.
    pub name: &'a str,
    /// The text.
    pub text: &'n str,
}

// What one piece means: how many bytes, and the last name that was looked up by then.
#[derive(Clone, Copy)]
struct Step<'n, 'a> {
    len: usize,
    known: Option<Known<'n, 'a>>,
}

// The text that a value means, if one part of it gives it all.
#[inline(always)]
fn whole_text(value: &str) -> Option<&str>
    ensures { MatchOption result (Unit {0}) (MeansAlone (chars value.now)) }
{
    let part = text_part(value, Quoting::Unquoted)?;
    match part.quoting {
        Quoting::Unquoted if part.rest.is_empty() => Some(part.meant),
        _ => None,
    }
}

// Appends a text, once and `more` times more, to one that has room for it.
fn push_again<A: Allocator>(text: &mut String<A>, meant: &str, more: usize)
    requires { string_len text.old + length (times (suc more) meant.now)
        ≤ string_capacity text.old }
    ensures bytes { string_bytes text.new
        ≡ string_bytes text.old ++ times (suc more) meant.now }
    ensures capacity { string_capacity text.old ≤ string_capacity text.new }
{
    text.push_str(meant).unwrap();
    let mut left = more;
    'pushes: while left > 0 {
        text.push_str(meant).unwrap();
        left -= 1;
    }
}

impl<'n, A: Allocator> Names<'n, A> {
    // The environment's value, else the remembered text, else the empty text.
    fn look_up(&self, name: &str) -> &'n str
        ensures { result.now
            ≡ encode_utf8_all (unwrap_or (look_up_of self.now (chars name.now)) []) }
    {
        let found = match self.env.get(name) {
            Some(value) => Some(value),
            None => recall(self.remembered, name),
        };
        found.unwrap_or("")
    }

    // What a name stands for. The last name that was looked up isn't looked up again.
    fn look_up_after<'a>(&self, name: &'a str, last: Option<Known<'n, 'a>>) -> Known<'n, 'a>
        requires { IsKnown (look_up_of self.now) last }
        ensures { StandsFor (look_up_of self.now) result × (result.name.now ≡ name.now) }
    {
        match last {
            Some(known) if known.name == name => known,
            _ => Known {
                name,
                text: self.look_up(name),
            },
        }
    }

    // How many bytes a piece means, after the names up to this last one.
    #[inline(always)]
    fn step<'a>(&self, piece: Piece<'a>, known: Option<Known<'n, 'a>>) -> Step<'n, 'a>
        requires { IsKnown (look_up_of self.now) known }
        ensures len { result.len
            ≡ saturated (length (piece_bytes (look_up_of self.now) piece.entry)) }
        ensures known { IsKnown (look_up_of self.now) result.known }
    {
        match piece {
            Piece::Text(text) => Step {
                len: text.len(),
                known,
            },
            Piece::Name { name, after } => {
                let found = self.look_up_after(name, known);
                Step {
                    len: found.text.len().saturating_add(after.len()),
                    known: Some(found),
                }
            }
            Piece::EmptyNames { more } => {
                let found = self.look_up_after("", known);
                let len = found.text.len();
                Step {
                    len: len.saturating_mul(more).saturating_add(len),
                    known: Some(found),
                }
            }
            Piece::LastBackslash => Step { len: 0, known },
        }
    }

    /// What the first pass finds out about a value; or what is left of it where no value goes on, which is nothing
    /// where it lacks its end.
    ///
    /// This pass takes no memory, and measures what the value means; the second writes that into a text of just this
    /// size, so no push can fail. The price: a value of several pieces is read twice, and each of several names looked
    /// up in each pass.
    pub(crate) fn measure<'a>(
        &self,
        value: &'a str,
        dialect: Dialect,
    ) -> std::result::Result<Value<'n, 'a>, &'a str>
        ensures { Measures dialect (look_up_of self.now) (chars value.now) result }
    {
        if let Some(text) = whole_text(value) {
            return Ok(Value {
                text: value,
                len: text.len(),
                whole: Some(text),
                known: None,
            });
        }
        let mut len: usize = 0;
        let mut known = None;
        let mut rest = value;
        let mut quoting = Quoting::Unquoted;
        'pieces: loop {
            let texts = measure_texts(rest, quoting);
            len = len.saturating_add(texts.len);
            let given = match next_piece(texts.rest, texts.quoting, dialect) {
                NextPiece::Piece(given) => given,
                NextPiece::End => {
                    return Ok(Value {
                        text: value,
                        len,
                        whole: None,
                        known,
                    });
                }
                NextPiece::Unfinished => return Err(""),
                NextPiece::Fault(left) => return Err(left),
            };
            let step = self.step(given.piece, known);
            len = len.saturating_add(step.len);
            known = step.known;
            rest = given.rest;
            quoting = given.quoting;
        }
    }

    // Appends what a piece means to a text that has room for it, and gives the last name that was looked up.
    #[inline(always)]
    fn push_piece<'a>(
        &self,
        text: &mut String<A>,
        piece: Piece<'a>,
        known: Option<Known<'n, 'a>>,
    ) -> Option<Known<'n, 'a>>
        requires room { string_len text.old + length (piece_bytes (look_up_of self.now) piece)
            ≤ string_capacity text.old }
        requires known { IsKnown (look_up_of self.now) known }
        ensures bytes { string_bytes text.new
            ≡ string_bytes text.old ++ piece_bytes (look_up_of self.now) piece.entry }
        ensures capacity { string_capacity text.old ≤ string_capacity text.new }
        ensures known { IsKnown (look_up_of self.now) result }
    {
        match piece {
            Piece::Text(meant) => {
                text.push_str(meant).unwrap();
                known
            }
            Piece::Name { name, after } => {
                let found = self.look_up_after(name, known);
                text.push_str(found.text).unwrap();
                text.push_str(after).unwrap();
                Some(found)
            }
            Piece::EmptyNames { more } => {
                let found = self.look_up_after("", known);
                push_again(text, found.text, more);
                Some(found)
            }
            Piece::LastBackslash => known,
        }
    }

    /// Appends what a value means to a text that has room for it.
    pub(crate) fn append_meaning(
        &self,
        text: &mut String<A>,
        value: Value<'n, '_>,
        dialect: Dialect,
    )
        requires room { HasRoom dialect (look_up_of self.now) (chars value.text.now)
            (string_len text.old) (string_capacity text.old) }
        requires known { IsKnown (look_up_of self.now) value.known }
        ensures { Appends dialect (look_up_of self.now) (chars value.entry.text.now)
            (string_bytes text.old) (string_bytes text.new) }
    {
        let mut known = value.known;
        let mut rest = value.written();
        let mut quoting = Quoting::Unquoted;
        'pieces: loop {
            let (left, at) = push_texts(text, rest, quoting);
            let NextPiece::Piece(given) = next_piece(left, at, dialect) else {
                return;
            };
            known = self.push_piece(text, given.piece, known);
            rest = given.rest;
            quoting = given.quoting;
        }
    }

    /// The meaning of a value that was measured: a copy, if it is one text, or else one growth by its length.
    pub(crate) fn expand(
        &self,
        alloc: A,
        value: Value<'n, '_>,
        dialect: Dialect,
    ) -> Result<String<A>, A>
        requires { IsMeasured dialect (look_up_of self.now) value }
        ensures { MatchResult result
            (λ text.
            Appends dialect (look_up_of self.now) (chars value.entry.text.now) []
            (string_bytes text))
            IsMemory }
    {
        if let Some(text) = value.whole {
            return Ok(String::from_str(alloc, text)?);
        }
        let mut meaning = String::with_capacity(alloc, value.len)?;
        self.append_meaning(&mut meaning, value, dialect);
        Ok(meaning)
    }
}
