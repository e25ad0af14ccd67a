//! Readers and writers that tell which calls were made on them, and what each answered.
ghost use Rattle.std.specs.Prelude.{◌≡◌};
ghost use Rattle.dotenvy.specs.Calls.{TellsCall, call_of};
ghost use Rattle.test_support.specs.Telling.{call_noted, calls_noted};

use anyhow::Context;
use dotenvy::{Sink, Source};
use std::alloc::Global;
use std::io;
use std::io::ErrorKind;

/// A call: for how many bytes there was room, or how many it was handed, and how many it gave or took, or its fault.
#[derive(Clone, Copy, Debug, PartialEq, Eq, Drop)]
pub struct Note {
    pub len: usize,
    pub answer: Result<usize, ErrorKind>,
}

/// A reader or a writer that notes each call. Where there is no memory for a note it stops, and tells no more.
#[derive(Drop)]
pub struct Telling<T> {
    inner: T,
    calls: Option<Vec<Note>>,
}

impl<T> Telling<T> {
    /// No call was made yet.
    pub fn new(alloc: Global, inner: T) -> Telling<T> {
        Telling {
            inner,
            calls: Some(Vec::new(alloc)),
        }
    }

    /// The calls so far, in order.
    pub fn into_calls(self) -> Option<Vec<Note>>
    where
        T: Drop,
    {
        let Telling { inner: _, calls } = self;
        calls
    }
}

fn note_of(len: usize, answer: &io::Result<usize>) -> Note
    ensures { call_noted result ≡ call_of len answer.now }
{
    let answer = match answer {
        Ok(n) => Ok(*n),
        Err(e) => Err(e.kind()),
    };
    Note { len, answer }
}

fn with_note(calls: Option<Vec<Note>>, note: Note) -> Option<Vec<Note>>
    ensures { TellsCall (calls_noted calls) (calls_noted result) (call_noted note) }
{
    let mut calls = calls?;
    match calls.push(note) {
        Ok(()) => Some(calls),
        Err(_) => None,
    }
}

impl<R: Source> Source for Telling<R> {
    ghost told = { λ s. record (R.told s.inner) { calls = calls_noted s.calls } };

    fn read_some(&mut self, buf: &mut [u8]) -> io::Result<usize> {
        let answer = self.inner.read_some(buf);
        self.calls = with_note(self.calls.take(), note_of(buf.len(), &answer));
        answer
    }
}

impl<W: Sink> Sink for Telling<W> {
    ghost told = { λ s. record (W.told s.inner) { calls = calls_noted s.calls } };

    fn write_some(&mut self, buf: &[u8]) -> io::Result<usize> {
        let answer = self.inner.write_some(buf);
        self.calls = with_note(self.calls.take(), note_of(buf.len(), &answer));
        answer
    }
}

/// Each call as `LEN:N`, or `LEN:KIND` where it failed.
pub fn spelled(alloc: Global, calls: Option<Vec<Note>>) -> anyhow::Result<Vec<String>> {
    let mut texts = Vec::new(alloc);
    for call in calls.context("no memory for the calls")? {
        texts.push(match call.answer {
            Ok(count) => format!(in alloc; "{}:{count}", call.len)?,
            Err(kind) => format!(in alloc; "{}:{kind:?}", call.len)?,
        })?;
    }
    Ok(texts)
}
