//! What a value that is assigned means, as far as an edit asks.

ghost use Rattle.std.specs.Prelude.{◌≡◌, ◌↔◌, ◌++◌, IsTrue, MatchOption, bytes_eq, chars};
ghost use Rattle.dotenvy.specs.Items.{no_values};
ghost use Rattle.dotenvy_format.specs.inside.NextPiece.{named_piece, piece_bytes};
ghost use Rattle.dotenvy_editor.specs.Forms.{has};
ghost use Rattle.dotenvy_editor.specs.Told.{AreNames, IsSaid, MeansFront, TellsPart, TellsPieces};
ghost use Rattle.dotenvy_editor.specs.Warnings.{mention};
ghost use Rattle.dotenvy_editor.specs.Assignments.{StatesKey};
ghost use Rattle.dotenvy_editor.specs.Lines.{AssignsText};

use crate::mentions::Names;
use crate::tail::meant_len;
use dotenvy::Dialect;
use dotenvy_format::statement::{Statement, split_statement};
use dotenvy_format::text::{Quoting, is_empty_or_comment};
use dotenvy_format::value::{NextPiece, Piece, next_piece};
use memchr::memchr;
use std::alloc::Allocator;

/// What the text of a logical line is, before its value is read.
#[derive(Clone, Copy)]
pub(crate) enum Said<'t> {
    /// Nothing, or a comment.
    Nothing,
    /// A statement, whatever it assigns.
    Statement(Statement<'t>),
    /// No statement, which is a fault.
    Fault,
}

/// What the text of a logical line is.
pub(crate) fn said_by(text: &str) -> Said<'_>
    ensures { IsSaid (chars text.now) result }
{
    let trimmed = text.trim_end();
    if is_empty_or_comment(trimmed.trim_start()) {
        return Said::Nothing;
    }
    match split_statement(trimmed) {
        Ok(statement) => Said::Statement(statement),
        Err(_) => Said::Fault,
    }
}

/// Whether two texts are the same.
pub(crate) fn is_same(text: &str, other: &str) -> bool
    ensures { result ≡ bytes_eq (chars text.now) (chars other.now) }
{
    text == other
}

/// Whether the text of a logical line is a statement of the key.
pub(crate) fn assigns(text: &str, key: &str) -> bool
    ensures { IsTrue result ↔ StatesKey (chars key.now) (chars text.now) }
{
    match said_by(text) {
        Said::Statement(statement) => is_same(statement.key, key),
        Said::Nothing => false,
        Said::Fault => false,
    }
}

/// What an edit asks of a value.
#[derive(Clone, Copy)]
pub(crate) struct Value {
    /// Its length without a space or tab after it, and what comes after that.
    pub(crate) len: usize,
    /// Whether it means a text with a NUL, at which a load stops.
    pub(crate) has_nul: bool,
    /// Whether it mentions one of the names.
    pub(crate) mentions: bool,
}

// Whether a text that a piece adds has a NUL.
fn has_nul(piece: Piece<'_>) -> bool
    ensures { result ≡ has 0 (piece_bytes no_values piece.entry) }
{
    let text = match piece {
        Piece::Text(text) => text,
        Piece::Name { name: _, after } => after,
        Piece::EmptyNames { more: _ } => "",
        Piece::LastBackslash => "",
    };
    memchr(0, text.as_bytes()).is_some()
}

// Whether a piece mentions one of the names.
fn mentions<A: Allocator + Clone>(piece: Piece<'_>, names: &Names<A>) -> bool
    ensures { (some : _) → AreNames names.now some →
        result ≡ mention some (named_piece piece.entry) }
{
    match piece {
        Piece::Name { name, after: _ } => names.has(name),
        Piece::EmptyNames { more: _ } => names.has(""),
        Piece::Text(_) | Piece::LastBackslash => false,
    }
}

/// What is assigned, as a value; `None` if it is a fault. Nothing and a comment are an empty value.
pub(crate) fn value_of<A: Allocator + Clone>(
    assigned: &str,
    names: &Names<A>,
    dialect: Dialect,
) -> Option<Value>
    ensures part { TellsPart dialect (chars assigned.now) result }
    ensures pieces { (some : _) → AreNames names.now some →
        TellsPieces dialect some (chars assigned.now) result }
{
    let (mut nul, mut mentioned) = (false, false);
    if is_empty_or_comment(assigned) {
        return Some(Value {
            len: 0,
            has_nul: nul,
            mentions: mentioned,
        });
    }
    let mut rest = assigned;
    let mut quoting = Quoting::Unquoted;
    'pieces: loop {
        let given = match next_piece(rest, quoting, dialect) {
            NextPiece::Piece(given) => given,
            NextPiece::End => {
                return Some(Value {
                    len: meant_len(assigned, dialect),
                    has_nul: nul,
                    mentions: mentioned,
                });
            }
            NextPiece::Unfinished => return None,
            NextPiece::Fault(_) => return None,
        };
        nul = has_nul(given.piece) || nul;
        mentioned = mentions(given.piece, names) || mentioned;
        rest = given.rest;
        quoting = given.quoting;
    }
}

// What is left of a text after what a piece means, whatever names stand for.
fn strip_meant<'t>(text: &'t [u8], piece: Piece<'_>) -> Option<&'t [u8]>
    ensures { MatchOption result (¬ (MeansFront piece.entry text.now))
        (λ later. (look_up : _) → text.now ≡ piece_bytes look_up piece.entry ++ later.now) }
{
    match piece {
        Piece::Text(meant) => text.strip_prefix(meant.as_bytes()),
        Piece::Name { name: _, after: _ } => None,
        Piece::EmptyNames { more: _ } => None,
        Piece::LastBackslash => Some(text),
    }
}

/// Whether what is assigned means this text, whatever names stand for.
pub(crate) fn means(assigned: &str, text: &str, dialect: Dialect) -> bool
    ensures { IsTrue result ↔ AssignsText dialect (chars assigned.now) (chars text.now) }
{
    if is_empty_or_comment(assigned) {
        return text.is_empty();
    }
    let mut left = text.as_bytes();
    let mut rest = assigned;
    let mut quoting = Quoting::Unquoted;
    'pieces: loop {
        let given = match next_piece(rest, quoting, dialect) {
            NextPiece::Piece(given) => given,
            NextPiece::End => return left.is_empty(),
            NextPiece::Unfinished => return false,
            NextPiece::Fault(_) => return false,
        };
        left = match strip_meant(left, given.piece) {
            Some(later) => later,
            None => return false,
        };
        rest = given.rest;
        quoting = given.quoting;
    }
}
