//! What a loop of writes leaves and answers where no write is left.

use crate::shown::sees_text;
use dotenvy::{Plain, Result};
use dotenvy_base::output::write_all;
use std::alloc::Global;
use std::io;
use std::io::{ErrorKind, Write};
use std::test::Fail;
use test_support::answers::written;

// What a write does: it takes at most so many bytes, or answers a fault of this kind.
#[derive(Clone, Copy)]
enum Step {
    Take(usize),
    Fault(ErrorKind),
}

// Plays its steps, one a write, and the last one ever after.
#[derive(Drop)]
struct Played<'a> {
    steps: &'a [Step],
    taken: Vec<u8>,
}

impl<'a> Played<'a> {
    fn next_step(&mut self) -> Option<Step> {
        let (first, later) = self.steps.split_first()?;
        if !later.is_empty() {
            self.steps = later;
        }
        Some(*first)
    }
}

impl<'a> Write for Played<'a> {
    fn write(&mut self, buf: &[u8]) -> io::Result<usize> {
        let n = match self.next_step() {
            Some(Step::Take(most)) => most.min(buf.len()),
            Some(Step::Fault(kind)) => return Err(io::Error::from(kind)),
            None => 0,
        };
        self.taken.extend_from_slice(&buf[..n])?;
        Ok(n)
    }

    fn flush(&mut self) -> io::Result<()> {
        Ok(())
    }
}

// The answer, and what was written, where something was.
fn answered(
    alloc: Global,
    steps: &[Step],
    bytes: &[u8],
    writes_left: u64,
) -> std::result::Result<String, Fail> {
    let taken = Vec::new(alloc);
    let mut sink = Plain::new(Played { steps, taken });
    let answer: Result<(), Global> = write_all(&mut sink, bytes, writes_left);
    let texts = written(alloc, &answer, sink.into_inner().taken)?;
    Ok(texts.join(alloc, "; ")?)
}

#[test]
fn no_write_is_left(rt: HostRuntime) -> std::result::Result<(), Fail> {
    let alloc = rt.alloc();
    let again = Step::Fault(ErrorKind::Interrupted);
    let rows: [(&[Step], &[u8], u64, &str); 8] = [
        (&[Step::Take(0)], b"", 3, "ok"),
        (&[Step::Take(1)], b"abc", 3, "ok; abc"),
        (&[Step::Take(1)], b"abcd", 3, "io Other; abc"),
        (&[Step::Take(1)], b"K=\"1\"\n", 2, "io Other; K="),
        (&[Step::Take(2)], b"abcdef", 3, "ok; abcdef"),
        (&[Step::Take(2)], b"abcdefg", 3, "io Other; abcdef"),
        (&[Step::Take(1), again], b"abc", 3, "io Other; a"),
        (&[again], b"abc", 3, "io Other"),
    ];
    for (steps, bytes, writes_left, wanted) in rows {
        sees_text(&rt, answered(alloc, steps, bytes, writes_left)?, wanted);
    }
    Ok(())
}
