//! A buffer of bytes that were read and are not used yet.

ghost use Rattle.std.specs.Prelude.{◌≡◌, ◌≤◌, ◌<◌, ◌==◌, IfErr, IfOk, [], length, drop};
ghost use Rattle.dotenvy_base.specs.Errors.{IsMemory};
ghost use Rattle.dotenvy_lines.specs.Input.{most_bytes};
ghost use Rattle.dotenvy_lines.specs.inside.Buffer.{Fills};

use dotenvy_base::errors::Result;
use dotenvy_base::source::Source;
use std::alloc::Allocator;
use std::io;
use std::marker::Model;

// How many bytes the buffer has room for, and so the most that one read asks for.
const BUFFER_SIZE: usize = 8192;

/// Bytes that were read and are not used yet. There is room for 8,192, and it never grows.
#[derive(Drop)]
pub struct Buffer<A: Allocator> {
    bytes: Vec<u8, A>,
    used: usize,
    filled: usize,
}

impl<A: Allocator> Model for Buffer<A> {
    ghost use Rattle.std.specs.Prelude.{ℕ, List, ◌≡◌, ◌≤◌, ◌-◌, take, drop, vec_len};
    ghost use Rattle.dotenvy_lines.specs.Input.{most_bytes};

    ghost Value = { List ℕ };

    ghost view = { λ s. take (s.filled - s.used) (drop s.used s.bytes.items) };

    ghost invariant = { λ s. (s.used ≤ s.filled) × (s.filled ≤ most_bytes) × (vec_len s.bytes ≡ most_bytes) };
}

impl<A: Allocator> Buffer<A> {
    /// An empty buffer. All its memory is allocated here.
    pub fn new(alloc: A) -> Result<Buffer<A>, A>
        ensures empty { IfOk result (λ s. s ≡ []) }
        ensures memory { IfErr result IsMemory }
    {
        let mut bytes = Vec::new(alloc);
        bytes.resize(BUFFER_SIZE, 0u8)?;
        Ok(Buffer {
            bytes,
            used: 0,
            filled: 0,
        })
    }

    /// The allocator of the buffer.
    pub fn allocator(&self) -> &A {
        self.bytes.allocator()
    }

    /// Whether no byte is unread.
    pub fn is_empty(&self) -> bool
        ensures { result ≡ (length self.now == 0) }
    {
        self.used == self.filled
    }

    /// The bytes that were read and are not used yet.
    pub fn unread(&self) -> &[u8]
        ensures bytes { result.now ≡ self.now }
        ensures bound { length self.now ≤ most_bytes }
    {
        &self.bytes[self.used..self.filled]
    }

    /// Uses up the first `n` unread bytes.
    pub fn use_up(&mut self, n: usize)
        requires { n ≤ length self.old }
        ensures { self.new ≡ drop n self.old }
    {
        self.used += n;
    }

    /// Reads once, and appends what the source gives.
    ///
    /// The unread bytes move to the start of the buffer first, and the read asks for as many bytes as fit after them.
    pub fn read_from<R: Source>(&mut self, reader: &mut R) -> io::Result<usize>
        requires { length self.old < most_bytes }
        ensures { Fills (R.told reader.old) self.old result (R.told reader.new) self.new }
    {
        self.bytes.copy_within(self.used..self.filled, 0);
        self.filled -= self.used;
        self.used = 0;
        let count = reader.read_some(&mut self.bytes[self.filled..])?;
        self.filled += count;
        Ok(count)
    }
}
