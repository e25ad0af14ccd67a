//! Where bytes are read from, and where they are written to.

ghost use Rattle.std.specs.Prelude.{◌≡◌, ◌≤◌, ℕ, List, [], Option, None, Some, IfOk, length};
ghost use Rattle.std.specs.declared.io.ErrorKind.{ErrorKind};
ghost use Rattle.std.specs.Io.KnownBytes.{ReadConsumes};
ghost use Rattle.dotenvy_base.specs.Calls.{TellsCall, call_of};
ghost use Rattle.dotenvy_base.specs.Source.{SinkTold, Told, ReadsAhead, WriteAppends, fault_after, nothing_told, plain_inner, plain_fault, told_through};

use std::io;
use std::io::{ErrorKind, Read, Write};

/// What environment files are read from.
///
/// Wrap a reader of std in [`Plain`], and a slice of bytes in [`Bytes`]. An implementation may specify, for contracts
/// alone and as `told`, its bytes up to its end or up to the first read that fails, the calls made on it so far with
/// their results, and which reference it is, if it is one. Then contracts say what is read from it. A source that
/// specifies nothing can still be read.
///
/// If its bytes are specified, a read gives the next of them. It gives none into a buffer that isn't empty only at the
/// end, and fails only after the last of them, with the kind of error that is specified. What comes after that isn't
/// specified. A source may stop specifying its calls. An interrupted read is made again, so one that specifies an
/// interruption as its fault counts as specifying nothing.
///
/// For example, `Bytes` over `A=1` specifies that `A=1` is still to come, no fault, and no calls. After a read of two
/// bytes, it specifies that `1` is.
///
/// ```
/// let mut source = Bytes::new(b"HOST=db.local\n");
/// let read = source.read_some(&mut buffer)?;
/// ```
pub trait Source {
    ghost told: { Self → Told } = { λ _. nothing_told };

    /// Reads some bytes to the start of `buf` and returns how many, as `std::io::Read::read` does.
    ///
    /// If `buf` is not empty, 0 says that the end is reached. A read that fails takes no bytes; one that fails with
    /// kind `Interrupted` may be tried again.
    fn read_some(&mut self, buf: &mut [u8]) -> io::Result<usize>
        ensures bound { IfOk result (λ n. n ≤ length buf.new) }
        ensures bytes { ReadsAhead (told self.old).ahead (told self.new).ahead result buf.new }
        ensures calls { TellsCall (told self.old).calls (told self.new).calls
            (call_of (length buf.old) result) }
        ensures same { (told self.new).references ≡ (told self.old).references };
}

/// What pairs are written to.
///
/// Wrap a writer of std in [`Plain`]. An implementation specifies, for contracts alone and as `told`, the kind of the
/// last error of a write. It may also specify the bytes that it holds, and the calls made on it so far with their
/// results. Then contracts say what each write appends.
///
/// ```
/// let mut sink = Plain::new(file);
/// write_pair(alloc, &mut sink, "HOST", "db.local")?;
/// ```
pub trait Sink {
    ghost told: { Self → SinkTold };

    /// Writes some bytes from the start of `buf` and returns how many, as `std::io::Write::write` does.
    ///
    /// A write that fails writes none. If `buf` is not empty, a result of 0 counts as an error of kind `WriteZero`, and
    /// an interruption counts as an error, too.
    fn write_some(&mut self, buf: &[u8]) -> io::Result<usize>
        ensures bound { IfOk result (λ n. n ≤ length buf.now) }
        ensures bytes { WriteAppends (told self.old).held (told self.new).held result buf.now }
        ensures fault { (told self.new).last_fault
            ≡ fault_after (told self.old).last_fault buf.now result }
        ensures calls { TellsCall (told self.old).calls (told self.new).calls
            (call_of (length buf.now) result) };
}

/// A borrowed source: what is read from it is read from the source itself, which its owner keeps.
impl<'a, R: Source> Source for &'a mut R {
    ghost told = { λ s. told_through s.ghost_name (R.told s.now) };

    fn read_some(&mut self, buf: &mut [u8]) -> io::Result<usize> {
        (**self).read_some(buf)
    }
}

/// A source over a slice of bytes. Contracts know its bytes, and no read of it fails.
///
/// ```
/// let source = Bytes::new(b"HOST=db.local\n");
/// ```
#[derive(Drop)]
pub struct Bytes<'a> {
    rest: &'a [u8],
}

impl<'a> std::marker::Model for Bytes<'a> {
    ghost use Rattle.std.specs.Prelude.{ℕ, List};

    ghost Value = { List ℕ };

    ghost view = { λ s. s.rest.now };
}

impl<'a> Bytes<'a> {
    /// A source of these bytes, from the first one on.
    pub fn new(bytes: &'a [u8]) -> Bytes<'a>
        ensures { result ≡ bytes.now }
    {
        Bytes { rest: bytes }
    }
}

impl<'a> Source for Bytes<'a> {
    ghost told = { λ s.
        record {
          ahead = Some (record { bytes = s; fault = None });
          calls = None;
          references = [];
        } };

    fn read_some(&mut self, buf: &mut [u8]) -> io::Result<usize> {
        let n = self.rest.len().min(buf.len());
        let (now, later) = self.rest.split_at(n);
        buf[..n].copy_from_slice(now);
        self.rest = later;
        Ok(n)
    }
}

/// A source over any reader of std, whose bytes are not specified, and a sink over any writer of std, which holds what
/// that writer holds.
///
/// A read is one read of the reader below, a write one write and no flush, and their errors come as they are. Tests say
/// so, and no contract.
///
/// ```
/// let source = Plain::new(File::open(&rt, ".env")?);
/// ```
#[derive(Drop)]
pub struct Plain<T> {
    inner: T,
    last_fault: Option<ErrorKind>,
}

impl<T> Plain<T> {
    /// Wraps this reader or writer. No write has failed yet.
    pub fn new(inner: T) -> Plain<T>
        ensures inner { plain_inner result ≡ inner }
        ensures fresh { plain_fault result ≡ None }
    {
        Plain {
            inner,
            last_fault: None,
        }
    }

    /// Returns the reader or writer, as the calls left it.
    pub fn into_inner(self) -> T
        ensures { result ≡ plain_inner self }
    {
        let Plain {
            inner,
            last_fault: _,
        } = self;
        inner
    }
}

impl<T: Read> Source for Plain<T> {
    fn read_some(&mut self, buf: &mut [u8]) -> io::Result<usize>
        ensures bound { IfOk result (λ n. n ≤ length buf.new) }

        // This is one read of the reader, and no write.
        ensures inner { ReadConsumes (T.remaining (plain_inner self.old))
            (T.remaining (plain_inner self.new)) result buf.new }
        ensures writes { plain_fault self.new ≡ plain_fault self.old }
    {
        self.inner.read(buf)
    }
}

impl<T: Write> Sink for Plain<T> {
    ghost told = { λ s.
        record {
          held = T.contents s.inner;
          last_fault = plain_fault s;
          calls = None;
        } };

    fn write_some(&mut self, buf: &[u8]) -> io::Result<usize> {
        let outcome = self.inner.write(buf);
        self.last_fault = fault_after(self.last_fault, buf, &outcome);
        outcome
    }
}

// The kind of the last write error, after one more write.
fn fault_after(
    last_fault: Option<ErrorKind>,
    buf: &[u8],
    outcome: &io::Result<usize>,
) -> Option<ErrorKind>
    ensures { result ≡ fault_after last_fault buf.now outcome.now }
{
    if buf.is_empty() {
        return last_fault;
    }
    match outcome {
        Ok(0) => Some(ErrorKind::WriteZero),
        Ok(_) => last_fault,
        Err(e) => Some(e.kind()),
    }
}
