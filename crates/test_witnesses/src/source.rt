//! A source that gives its bytes in pieces, is interrupted between them, and fails at its end.

ghost use Rattle.std.specs.Prelude.{◌≡◌, ◌++◌, Some, None, [], IfOk, OnOk, Option};
ghost use Rattle.std.specs.declared.io.ErrorKind.{ErrorKind as Kind};
ghost use Rattle.test_witnesses.specs.Pieces.{AddsBytes, ahead_of};

use dotenvy::Source;
use std::alloc::{AllocError, Global};
use std::io;
use std::io::ErrorKind;
use std::marker::Model;

/// What a source gives next.
#[derive(Drop)]
pub enum Piece {
    /// These bytes: no read gives bytes of two pieces, and one that is short of room leaves the others to the next.
    Bytes(Vec<u8>),
    /// A read that is interrupted.
    Interruption,
}

/// A source over pieces. At its end each read gives no byte, or fails with the same kind of fault.
///
/// Contracts know its bytes and its fault: those up to the first interruption that is left, or else up to the end.
#[derive(Drop)]
pub struct Pieces<'a> {
    rest: &'a [u8],
    pieces: &'a [Piece],
    end: Option<ErrorKind>,
}

impl<'a> Model for Pieces<'a> {
    ghost use Rattle.std.specs.Prelude.{◌++◌};
    ghost use Rattle.dotenvy.specs.Source.{Ahead, ahead_code};
    ghost use Rattle.test_witnesses.specs.Pieces.{bytes_of_pieces, fault_of};

    ghost Value = { Ahead };

    ghost coded = { ahead_code };

    ghost view = { λ s.
        record {
          bytes = s.rest.now ++ bytes_of_pieces s.pieces.now;
          fault = fault_of s.pieces.now s.end;
        } };
}

impl<'a> Pieces<'a> {
    /// A source of these pieces, from the first one on, with a fault of this kind at its end, if there is one.
    pub fn new(pieces: &'a [Piece], end: Option<ErrorKind>) -> Pieces<'a>
        ensures { result ≡ ahead_of pieces.now end }
    {
        Pieces {
            rest: b"",
            pieces,
            end,
        }
    }
}

impl<'a> Source for Pieces<'a> {
    ghost told = { λ s.
        record {
          ahead = Some s;
          calls = None;
          references = [];
        } };

    fn read_some(&mut self, buf: &mut [u8]) -> io::Result<usize> {
        'pieces: while self.rest.is_empty()
            && let Some((first, later)) = self.pieces.split_first()
        {
            self.pieces = later;
            match first {
                Piece::Bytes(bytes) => self.rest = bytes.as_slice(),
                Piece::Interruption => return Err(io::Error::from(ErrorKind::Interrupted)),
            }
        }
        if self.rest.is_empty()
            && let Some(kind) = self.end
        {
            return Err(io::Error::from(kind));
        }
        let count = self.rest.len().min(buf.len());
        let (now, later) = self.rest.split_at(count);
        buf[..count].copy_from_slice(now);
        self.rest = later;
        Ok(count)
    }
}

/// These bytes as pieces of these lengths, and then the others as one piece.
pub fn cut(alloc: Global, bytes: &[u8], lengths: &[usize]) -> Result<Vec<Piece>, AllocError>
    ensures { IfOk result (λ pieces. (end : Option Kind) →
        ahead_of pieces.items end ≡ record { bytes = bytes.now; fault = end }) }
{
    let mut pieces = Vec::new(alloc);
    let mut rest = bytes;
    'lengths: for length in lengths {
        let (now, later) = rest.split_at(rest.len().min(*length));
        push_bytes(&mut pieces, now)?;
        rest = later;
    }
    push_bytes(&mut pieces, rest)?;
    Ok(pieces)
}

// Adds a piece of these bytes.
fn push_bytes(pieces: &mut Vec<Piece>, bytes: &[u8]) -> Result<(), AllocError>
    ensures { OnOk result (AddsBytes pieces.old.items bytes.now pieces.new.items) }
{
    let alloc = *pieces.allocator();
    pieces.push(Piece::Bytes(bytes.to_vec(alloc)?))?;
    Ok(())
}
