//! A sink that takes as many bytes of each write as a list says, and fails where it says so.

ghost use Rattle.std.specs.Prelude.{◌≡◌, ◌++◌, None, Ok, Some, OnErr, IfOk, [], take, length, ◌≤◌};
ghost use Rattle.dotenvy.specs.Source.{fault_after};
ghost use Rattle.test_witnesses.specs.Turns.{held_by, told_by};

use dotenvy::Sink;
use std::alloc::Global;
use std::io;
use std::io::ErrorKind;

/// What a write does.
#[derive(Clone, Copy, Drop)]
pub enum Turn {
    /// Takes at most so many bytes.
    Take(usize),
    /// Takes none, and fails with a fault of this kind.
    Fail(ErrorKind),
}

/// A sink that does one turn a write, and takes all that it is given after the last. Where it has no memory for the
/// bytes, the write fails.
///
/// Contracts know the bytes that it holds, and the kind of its last fault.
#[derive(Drop)]
pub struct Turns<'a> {
    held: Vec<u8>,
    last_fault: Option<ErrorKind>,
    turns: &'a [Turn],
}

impl<'a> Turns<'a> {
    /// A sink that does these turns, holds nothing, and has not failed yet.
    pub fn new(alloc: Global, turns: &'a [Turn]) -> Turns<'a>
        ensures { told_by result ≡ record { held = Some []; last_fault = None; calls = None } }
    {
        Turns {
            held: Vec::new(alloc),
            last_fault: None,
            turns,
        }
    }

    /// The bytes that it holds.
    pub fn into_held(self) -> Vec<u8>
        ensures { result.items ≡ held_by self.entry }
    {
        let Turns {
            held,
            last_fault: _,
            turns: _,
        } = self;
        held
    }
}

impl<'a> Sink for Turns<'a> {
    ghost told = { told_by };

    fn write_some(&mut self, buf: &[u8]) -> io::Result<usize> {
        let outcome = match next_turn(&mut self.turns) {
            Turn::Take(most) => push_front(&mut self.held, buf, most),
            Turn::Fail(kind) => Err(io::Error::from(kind)),
        };
        self.last_fault = fault_after(self.last_fault, buf, &outcome);
        outcome
    }
}

// The next turn, which is taken off the list. After the last one everything is taken.
fn next_turn(turns: &mut &[Turn]) -> Turn {
    match turns.split_first() {
        Some((first, later)) => {
            *turns = later;
            *first
        }
        None => Turn::Take(usize::MAX),
    }
}

// Appends so many bytes from the front of the buffer, at most, and returns how many they are.
fn push_front(held: &mut Vec<u8>, buf: &[u8], most: usize) -> io::Result<usize>
    ensures bound { IfOk result (λ n. n ≤ length buf.now) }
    ensures ok { IfOk result (λ n. held.new.items ≡ held.old.items ++ take n buf.now) }
    ensures err { OnErr result (held.new.items ≡ held.old.items) }
{
    let count = most.min(buf.len());
    held.extend_from_slice(&buf[..count])?;
    Ok(count)
}

// The kind of the last fault, after one more write.
fn fault_after(
    last_fault: Option<ErrorKind>,
    buf: &[u8],
    outcome: &io::Result<usize>,
) -> Option<ErrorKind>
    ensures { result ≡ fault_after last_fault buf.now outcome.now }
{
    match outcome {
        _ if buf.is_empty() => last_fault,
        Ok(0) => Some(ErrorKind::WriteZero),
        Ok(_) => last_fault,
        Err(e) => Some(e.kind()),
    }
}
