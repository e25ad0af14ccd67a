//! A writer that plays a list of steps: short writes, interruptions and faults (docs/ROWS.md, "Steps").

use crate::notation::{kind, list, repeated};
use anyhow::{Context, Result};
use std::alloc::Global;
use std::io::{ErrorKind, Write};
use std::{io, vec};

/// What a write does.
#[derive(Clone, Copy)]
pub enum Step {
    /// Takes at most so many bytes.
    Take(usize),
    /// Answers a fault of this kind, or an interruption, and takes nothing.
    Fail(ErrorKind),
}

/// The steps of a list such as `take 1 x5; fail BrokenPipe`.
pub fn steps(alloc: Global, field: &str) -> Result<Vec<Step>> {
    let mut steps = Vec::new(alloc);
    for written in list(alloc, field)? {
        push_steps(&mut steps, written)?;
    }
    Ok(steps)
}

// Adds what `take 1 x5`, `take 1`, `fail Interrupted x3` or `fail BrokenPipe` says.
fn push_steps(steps: &mut Vec<Step>, written: &str) -> Result<()> {
    let (once, times) = repeated(written)?;
    let step = match once.strip_prefix("fail ") {
        Some(name) => Step::Fail(kind(name)?),
        None => Step::Take(
            once.strip_prefix("take ")
                .context("a step of a writer")?
                .parse()?,
        ),
    };
    for _ in 0..times {
        steps.push(step)?;
    }
    Ok(())
}

/// Takes one step a write, and all that it is given after the last. A `Plain` makes a sink of it.
#[derive(Drop)]
pub struct PlayedWriter {
    steps: vec::IntoIter<Step>,
    taken: Vec<u8>,
}

impl PlayedWriter {
    /// Plays these steps.
    pub fn new(alloc: Global, steps: Vec<Step>) -> PlayedWriter {
        PlayedWriter {
            steps: steps.into_iter(),
            taken: Vec::new(alloc),
        }
    }

    /// The bytes of all writes.
    pub fn into_taken(self) -> Vec<u8> {
        let PlayedWriter { steps: _, taken } = self;
        taken
    }
}

impl Write for PlayedWriter {
    fn write(&mut self, buf: &[u8]) -> io::Result<usize> {
        let count = match self.steps.next() {
            Some(Step::Take(most)) => most.min(buf.len()),
            Some(Step::Fail(kind)) => return Err(io::Error::from(kind)),
            None => buf.len(),
        };
        self.taken.extend_from_slice(&buf[..count])?;
        Ok(count)
    }

    fn flush(&mut self) -> io::Result<()> {
        Ok(())
    }
}
