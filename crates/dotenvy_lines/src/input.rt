//! The bytes of a source, one physical line at a time. Reads are counted here, interrupted ones are repeated, and the
//! end is kept for good.

ghost use Rattle.std.specs.Prelude.{[], ◌≡◌, ◌≤◌, ◌<◌, ◌+◌, ◌==◌, true, false, Some, None, IfOk, IsOk, IsTrue, ◌↔◌, OnOk, length, take};
ghost use Rattle.dotenvy_base.specs.Source.{Ahead};
ghost use Rattle.dotenvy_lines.specs.Input.{most_bytes, input_measure, DropsMark, AsksReads};
ghost use Rattle.dotenvy_lines.specs.Lines.{fresh_lines};
ghost use Rattle.dotenvy_lines.specs.inside.InputSteps.{WhereTold, ReadsOnce, IsAllRead, used_up, IsLinePiece, ReadsMore, FindsMore, SkipsLine, AsksOnce};

use crate::buffer::Buffer;
use dotenvy_base::errors::{Error, Result};
use dotenvy_base::source::Source;
use memchr::memchr;
use std::alloc::Allocator;
use std::io;
use std::io::ErrorKind;
use std::marker::Model;

const BYTE_ORDER_MARK: [u8; 3] = [0xEF, 0xBB, 0xBF];

/// A source, and the bytes that were read from it and are not used yet.
///
/// The number of reads is bounded, and none is made after the end.
#[derive(Drop)]
pub struct Input<R: Source, A: Allocator> {
    reader: R,
    buffer: Buffer<A>,
    reads_left: u64,
    at_end: bool,
}

/// The unread bytes of a physical line, as far as they were read.
#[derive(Clone, Copy)]
pub struct LinePiece<'a> {
    /// The bytes, from the first unread one of the line.
    pub bytes: &'a [u8],
    /// Whether the last of them is the LF that ends the line.
    pub is_whole: bool,
}

impl<R: Source, A: Allocator> Model for Input<R, A> {
    ghost use Rattle.std.specs.Prelude.{length};
    ghost use Rattle.dotenvy_lines.specs.Input.{InputState, input_code};
    ghost use Rattle.dotenvy_lines.specs.inside.InputSteps.{left_of};

    ghost Value = { InputState };

    ghost coded = { input_code };

    ghost view = { λ s.
        record {
          left = left_of s.at_end (R.told s.reader).ahead s.buffer;
          unread = length s.buffer;
          reads = s.reads_left;
          at_end = s.at_end;
          calls = (R.told s.reader).calls;
          references = (R.told s.reader).references;
        } };
}

impl<R: Source, A: Allocator> Input<R, A> {
    /// An input of which nothing is read yet, and that makes at most `reads_left` reads into this empty buffer.
    pub fn new(buffer: Buffer<A>, reader: R, reads_left: u64) -> Input<R, A>
        requires { buffer ≡ [] }
        ensures { result ≡ (fresh_lines (R.told reader) reads_left).input }
    {
        Input {
            buffer,
            reader,
            reads_left,
            at_end: false,
        }
    }

    /// Gives its source back. Bytes that were read and not used are lost.
    pub fn into_reader(self) -> R
        ensures calls { (R.told result).calls ≡ self.calls }
        ensures references { (R.told result).references ≡ self.references }
    {
        let Input {
            reader,
            buffer: _,
            reads_left: _,
            at_end: _,
        } = self;
        reader
    }

    /// Its source. Bytes that were read and not used are the input's.
    pub fn reader(&self) -> &R
        ensures calls { (R.told result.now).calls ≡ self.now.calls }
        ensures references { (R.told result.now).references ≡ self.now.references }
    {
        &self.reader
    }

    /// The allocator of the buffer.
    pub fn allocator(&self) -> &A {
        self.buffer.allocator()
    }

    /// Whether nothing is left: the end was read, and each byte is used.
    pub fn is_used_up(&self) -> bool
        ensures value { IsTrue result ↔ ((self.now.at_end ≡ true) × (self.now.unread ≡ 0)) }
        ensures told { (a : Ahead) → self.now.left ≡ Some a → result ≡ true →
            (a.bytes ≡ []) × (a.fault ≡ None) }
    {
        self.at_end && self.buffer.is_empty()
    }

    /// Whether the end was read. Some bytes may still be unread.
    pub fn is_at_end(&self) -> bool
        ensures value { result ≡ self.now.at_end }
        ensures told { (a : Ahead) → self.now.left ≡ Some a → result ≡ true →
            IsAllRead a self.now.unread }
    {
        self.at_end
    }

    /// The bytes that were read and are not used yet.
    pub fn unread(&self) -> &[u8]
        ensures len { length result.now ≡ self.now.unread }
        ensures told { (a : Ahead) → self.now.left ≡ Some a →
            result.now ≡ take self.now.unread a.bytes }
    {
        self.buffer.unread()
    }

    /// Uses up the first `n` unread bytes.
    pub fn use_up(&mut self, n: usize)
        requires { n ≤ self.old.unread }
        ensures { self.new ≡ used_up n self.old }
    {
        self.buffer.use_up(n);
    }

    /// The unread bytes of the next physical line: up to its LF, or all of them where its LF was not read yet.
    pub fn line_piece(&self) -> LinePiece<'_>
        ensures { IsLinePiece self.now result.bytes.now result.is_whole }
    {
        let unread = self.unread();
        match memchr(b'\n', unread) {
            Some(place) => LinePiece {
                bytes: &unread[..place + 1],
                is_whole: true,
            },
            None => LinePiece {
                bytes: unread,
                is_whole: false,
            },
        }
    }
}

// One read: appends what it gives, and answers whether it met the end. An interrupted read gives nothing.
fn read_once<R: Source, A: Allocator>(reader: &mut R, buffer: &mut Buffer<A>) -> Result<bool, A>
    requires { length buffer.old < most_bytes }
    ensures bound { length buffer.new ≤ most_bytes }
    ensures grows { length buffer.old ≤ length buffer.new }
    ensures told { WhereTold (R.told reader.old).ahead
        (λ a. ReadsOnce a buffer.old result (R.told reader.new).ahead buffer.new) }
    ensures asks { AsksOnce (R.told reader.old) result (R.told reader.new) }
{
    match buffer.read_from(reader) {
        Ok(n) => Ok(n == 0),
        Err(e) => {
            if e.kind() == ErrorKind::Interrupted {
                Ok(false)
            } else {
                Err(Error::Io(e))
            }
        }
    }
}

impl<R: Source, A: Allocator> Input<R, A> {
    /// Reads once. A read that is interrupted counts too. Past the bound on reads the error is `Io` of kind Other.
    pub fn read_more(&mut self) -> Result<(), A>
        requires unread { self.old.unread < most_bytes }
        requires unended { self.old.at_end ≡ false }
        ensures falls { OnOk result (input_measure self.new < input_measure self.old) }
        ensures grows { self.old.unread ≤ self.new.unread }
        ensures told { WhereTold self.old.left (λ a. ReadsMore a self.old result self.new) }
        ensures asks { AsksReads (IsOk result) self.old self.new }
    {
        if self.reads_left == 0 {
            return Err(Error::Io(io::Error::other("too many reads")));
        }
        self.reads_left -= 1;
        self.at_end = read_once(&mut self.reader, &mut self.buffer)?;
        Ok(())
    }

    /// Whether there is a byte to use. Reads until one is unread, or the end is read.
    pub fn has_more(&mut self) -> Result<bool, A>
        ensures falls { OnOk result (input_measure self.new ≤ input_measure self.old) }
        ensures some { IfOk result (λ more. more ≡ true → 0 < self.new.unread) }
        ensures ended { self.old.at_end ≡ true → self.new ≡ self.old }
        ensures told { WhereTold self.old.left (λ a. FindsMore a self.old result self.new) }
        ensures asks { AsksReads (IsOk result) self.old self.new }
    {
        'waiting: while self.unread().is_empty() && !self.is_at_end() {
            self.read_more()?;
        }
        Ok(!self.unread().is_empty())
    }

    /// Skips what is left of the next physical line, and keeps none of it.
    pub fn skip_line(&mut self) -> Result<(), A>
        ensures falls { OnOk result (input_measure self.new ≤ input_measure self.old) }
        ensures some { 0 < self.old.unread →
            OnOk result (input_measure self.new < input_measure self.old) }
        ensures told { WhereTold self.old.left (λ a. SkipsLine a self.old result self.new) }
        ensures asks { AsksReads (IsOk result) self.old self.new }
    {
        'skipping: loop {
            let piece = self.line_piece();
            let (len, is_whole) = (piece.bytes.len(), piece.is_whole);
            self.use_up(len);
            if is_whole || self.is_at_end() {
                return Ok(());
            }
            self.read_more()?;
        }
    }

    /// Drops a byte order mark, if the next bytes are one. A part of a mark stays.
    pub fn drop_mark(&mut self) -> Result<(), A>
        ensures falls { OnOk result (input_measure self.new ≤ input_measure self.old) }
        ensures told { WhereTold self.old.left (λ a. DropsMark a self.old result self.new) }
        ensures asks { AsksReads (IsOk result) self.old self.new }
    {
        'deciding: while !self.is_at_end()
            && self.unread().len() < BYTE_ORDER_MARK.len()
            && BYTE_ORDER_MARK.starts_with(self.unread())
        {
            self.read_more()?;
        }
        if self.unread().starts_with(&BYTE_ORDER_MARK) {
            self.use_up(BYTE_ORDER_MARK.len());
        }
        Ok(())
    }
}
