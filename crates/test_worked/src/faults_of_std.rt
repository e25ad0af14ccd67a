//! Faults of a reader or a writer of std under a `Plain`: the answer is the fault itself, with its
//! kind, its text and its system code, and nothing more is asked of who failed.

use crate::shown::{pairs, played, sees_text, told};
use dotenvy::{Bytes, Environment, Error, Iter, Plain, Result, Source, is_key};
use std::alloc::{AllocError, Global};
use std::io;
use std::io::{ErrorKind, Read, Write};
use std::process::Abort;
use std::test::Fail;

/// Gives the bytes before the fault, then the fault, once, and then the bytes after it.
#[derive(Drop)]
struct FailingReader<'a> {
    before: &'a [u8],
    fault: Option<io::Error>,
    after: &'a [u8],
}

impl Read for FailingReader<'_> {
    fn read(&mut self, buf: &mut [u8]) -> io::Result<usize> {
        if !self.before.is_empty() {
            return self.before.read(buf);
        }
        match self.fault.take() {
            Some(fault) => Err(fault),
            None => self.after.read(buf),
        }
    }
}

/// Takes so many bytes, then answers the fault, once, and then takes all.
#[derive(Drop)]
struct FailingWriter {
    room: usize,
    fault: Option<io::Error>,
    taken: Vec<u8>,
}

impl Write for FailingWriter {
    fn write(&mut self, buf: &[u8]) -> io::Result<usize> {
        let mut count = buf.len();
        if self.fault.is_some() {
            count = count.min(self.room);
            self.room -= count;
        }
        if count == 0
            && let Some(fault) = self.fault.take()
        {
            return Err(fault);
        }
        self.taken.extend_from_slice(&buf[..count])?;
        Ok(count)
    }

    fn flush(&mut self) -> io::Result<()> {
        Ok(())
    }
}

/// What follows the fault of a reader.
const AFTER: &[u8] = b"2\nC=3\n";

/// Faults of each way to make one: a kind alone, a kind with a text, and a code of the system.
fn faults() -> [io::Error; 23] {
    [
        io::Error::from(ErrorKind::NotFound),
        io::Error::from(ErrorKind::PermissionDenied),
        io::Error::from(ErrorKind::ConnectionReset),
        io::Error::from(ErrorKind::BrokenPipe),
        io::Error::from(ErrorKind::WouldBlock),
        io::Error::from(ErrorKind::InvalidInput),
        io::Error::from(ErrorKind::InvalidData),
        io::Error::from(ErrorKind::TimedOut),
        io::Error::from(ErrorKind::WriteZero),
        io::Error::from(ErrorKind::StorageFull),
        io::Error::from(ErrorKind::UnexpectedEof),
        io::Error::from(ErrorKind::OutOfMemory),
        io::Error::from(ErrorKind::Other),
        io::Error::new(ErrorKind::TimedOut, "no answer within 3 s"),
        io::Error::new(ErrorKind::InvalidData, "the sum is wrong"),
        io::Error::other("the tape is torn"),
        io::Error::from_raw_os_error(2),
        io::Error::from_raw_os_error(5),
        io::Error::from_raw_os_error(11),
        io::Error::from_raw_os_error(12),
        io::Error::from_raw_os_error(21),
        io::Error::from_raw_os_error(28),
        io::Error::from_raw_os_error(110),
    ]
}

/// What a fault that was answered tells, where one was.
fn answered<T: Drop>(alloc: Global, answer: Result<T>) -> std::result::Result<String, AllocError> {
    match answer {
        Ok(_) => String::from_str(alloc, "no fault"),
        Err(error) => {
            let printed = error.to_string(alloc)?;
            match error {
                Error::Io(fault) => told(alloc, printed.as_str(), fault),
                _ => Ok(printed),
            }
        }
    }
}

/// A reader that fails once after these bytes.
fn failing<'a>(before: &'a [u8], fault: io::Error) -> Plain<FailingReader<'a>> {
    Plain::new(FailingReader {
        before,
        fault: Some(fault),
        after: AFTER,
    })
}

/// Whether the reader stands where it failed.
fn stands_at_its_fault(source: Plain<FailingReader<'_>>) -> bool {
    let reader = source.into_inner();
    reader.fault.is_none() && reader.after.len() == AFTER.len()
}

/// What each item answers, in order.
fn listed<S: Source>(
    alloc: Global,
    entries: &mut Iter<S>,
) -> std::result::Result<String, AllocError> {
    let environment = Environment::new(alloc);
    let mut all = String::new(alloc);
    for item in entries.items(&environment) {
        write!(all, "{}; ", answered(alloc, item)?)?;
    }
    Ok(all)
}

/// The bytes and the items of a reader that fails once after them, and whether it stands there.
fn items(alloc: Global, before: &[u8], fault: io::Error) -> Result<String> {
    let mut source = failing(before, fault);
    let mut entries = Iter::new(alloc, &mut source)?;
    let listed = listed(alloc, &mut entries)?;
    drop(entries);
    Ok(format!(in alloc; "{before:?}: {listed}{}", stands_at_its_fault(source))?)
}

/// Sees the items of readers that fail once.
fn sees_items(rt: &impl Abort, alloc: Global, fault: io::Error) -> std::result::Result<(), Fail> {
    let told = played(alloc, fault)?;
    let befores: [(&[u8], &str); 3] = [
        (b"", ""),
        (b"A=1\n", "no fault; "),
        (b"A=1\nB=", "no fault; "),
    ];
    for (before, pairs) in befores {
        let want = format!(in alloc; "{before:?}: {pairs}{told}; true")?;
        sees_text(rt, items(alloc, before, fault)?, want.as_str());
    }
    Ok(())
}

#[test]
fn a_fault_of_a_read_ends_the_items_as_it_is(rt: HostRuntime) -> std::result::Result<(), Fail> {
    for fault in faults() {
        sees_items(&rt, rt.alloc(), fault)?;
    }
    Ok(())
}

/// A reader that fails once after `A=1` and part of a line.
fn failing_in_a_line(fault: io::Error) -> Plain<FailingReader<'static>> {
    failing(b"A=1\nB=", fault)
}

/// What a load answered, and what it left.
fn left(
    alloc: Global,
    answer: Result<()>,
    environment: &Environment,
) -> std::result::Result<String, AllocError> {
    let answer = answered(alloc, answer)?;
    format!(in alloc; "{answer}: {}", pairs(alloc, environment)?)
}

/// What `from_read` answers over a reader that fails once, and what it leaves.
fn loaded(alloc: Global, fault: io::Error) -> std::result::Result<String, AllocError> {
    let mut environment = Environment::new(alloc);
    let answer = dotenvy::from_read(alloc, failing_in_a_line(fault), &mut environment);
    left(alloc, answer, &environment)
}

/// The same of `from_read_override`.
fn overridden(alloc: Global, fault: io::Error) -> std::result::Result<String, AllocError> {
    let mut environment = Environment::new(alloc);
    let answer = dotenvy::from_read_override(alloc, failing_in_a_line(fault), &mut environment);
    left(alloc, answer, &environment)
}

/// What `list` answers over a reader that fails once, and how many bytes it writes.
fn list_over(alloc: Global, fault: io::Error) -> std::result::Result<String, AllocError> {
    let mut writer = Plain::new(Vec::new(alloc));
    let answer = dotenvy::list(alloc, failing_in_a_line(fault), &mut writer);
    let answer = answered(alloc, answer)?;
    let taken: Vec<u8> = writer.into_inner();
    format!(in alloc; "{answer}: {}", taken.len())
}

/// Sees that both loads answer this and leave these pairs, and that a list answers this and writes so many bytes.
fn sees_calls(
    rt: &impl Abort,
    alloc: Global,
    fault: io::Error,
    left: &str,
    listed: &str,
) -> std::result::Result<(), AllocError> {
    let loaded = loaded(alloc, fault)?;
    let overridden = overridden(alloc, fault)?;
    let list = list_over(alloc, fault)?;
    assert_eq!(rt;
        [loaded.as_str(), overridden.as_str(), list.as_str()],
        [left, left, listed],
        "{fault:?}"
    );
    Ok(())
}

#[test]
fn a_fault_of_a_read_is_the_answer_as_it_is(rt: HostRuntime) -> std::result::Result<(), Fail> {
    let alloc = rt.alloc();
    for fault in faults() {
        let told = played(alloc, fault)?;
        let left = format!(in alloc; "{told}: A=1")?;
        let listed = format!(in alloc; "{told}: 0")?;
        sees_calls(&rt, alloc, fault, left.as_str(), listed.as_str())?;
    }
    Ok(())
}

/// A writer that fails once after so many bytes.
fn refusing(alloc: Global, room: usize, fault: io::Error) -> Plain<FailingWriter> {
    Plain::new(FailingWriter {
        room,
        fault: Some(fault),
        taken: Vec::new(alloc),
    })
}

/// What a call answered, and what its writer took.
fn written(
    alloc: Global,
    answer: Result<()>,
    writer: Plain<FailingWriter>,
) -> std::result::Result<String, Fail> {
    let answer = answered(alloc, answer)?;
    let taken = String::from_utf8(writer.into_inner().taken)?;
    Ok(format!(in alloc; "{answer}: {taken}")?)
}

/// What `write_pair` and `list` of `K="v"` answer and write over a writer that fails once.
fn writes_over(
    alloc: Global,
    room: usize,
    fault: io::Error,
) -> std::result::Result<[String; 2], Fail> {
    let key = "K";
    if !is_key(key) {
        return Err(Fail::from("no key"));
    }
    let mut writer = refusing(alloc, room, fault);
    let answer = dotenvy::write_pair(alloc, &mut writer, key, "v");
    let pair = written(alloc, answer, writer)?;
    let mut writer = refusing(alloc, room, fault);
    let answer = dotenvy::list(alloc, Bytes::new(b"K=v\n"), &mut writer);
    let list = written(alloc, answer, writer)?;
    Ok([pair, list])
}

/// What is written of `K="v"`.
const WRITTEN: &str = "K=\"v\"\n";

/// Sees that both calls answer and write this over a writer that fails once.
fn sees_writes(
    rt: &impl Abort,
    alloc: Global,
    room: usize,
    fault: io::Error,
    wanted: &str,
) -> std::result::Result<(), Fail> {
    let [pair, list] = writes_over(alloc, room, fault)?;
    assert_eq!(rt;
        [pair.as_str(), list.as_str()],
        [wanted, wanted],
        "{fault:?} after {room} bytes"
    );
    Ok(())
}

#[test]
fn a_fault_of_a_write_is_the_answer_as_it_is(rt: HostRuntime) -> std::result::Result<(), Fail> {
    let alloc = rt.alloc();
    for fault in faults() {
        let told = played(alloc, fault)?;
        for room in 0..WRITTEN.len() {
            let wanted = format!(in alloc; "{told}: {}", &WRITTEN[..room])?;
            sees_writes(&rt, alloc, room, fault, wanted.as_str())?;
        }
    }
    Ok(())
}

/// Interruptions, made in each way.
fn interruptions() -> [io::Error; 3] {
    [
        io::Error::from(ErrorKind::Interrupted),
        io::Error::new(ErrorKind::Interrupted, "a signal came"),
        io::Error::from_raw_os_error(4),
    ]
}

#[test]
fn an_interrupted_read_is_no_answer(rt: HostRuntime) -> std::result::Result<(), Fail> {
    for fault in interruptions() {
        sees_calls(
            &rt,
            rt.alloc(),
            fault,
            "no fault: A=1; B=2; C=3",
            "no fault: 18",
        )?;
    }
    Ok(())
}

#[test]
fn an_interrupted_write_is_no_answer(rt: HostRuntime) -> std::result::Result<(), Fail> {
    for fault in interruptions() {
        for room in 0..6usize {
            sees_writes(&rt, rt.alloc(), room, fault, "no fault: K=\"v\"\n")?;
        }
    }
    Ok(())
}
