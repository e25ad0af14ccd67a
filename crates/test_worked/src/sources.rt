//! The sources and sinks of the library, called by hand.

use dotenvy::{Bytes, Plain, Sink, Source, is_key, list, write_pair};
use std::alloc::Global;
use std::io;
use std::io::{ErrorKind, Read, Write};
use std::test::Fail;

#[test]
fn bytes_come_in_order_up_to_the_end(rt: HostRuntime) -> Result<(), Fail> {
    let mut source = Bytes::new(b"abc");
    let mut buf = [0; 2];
    let first = (source.read_some(&mut buf)?, buf);
    // A source that is lent goes on where it stands.
    let mut lent = &mut source;
    let second = (Source::read_some(&mut lent, &mut buf)?, buf);
    assert_eq!(rt; [first, second], [(2, *b"ab"), (1, *b"cb")]);
    let at_the_end = [source.read_some(&mut buf)?, source.read_some(&mut buf)?];
    assert_eq!(rt; at_the_end, [0, 0]);
    Ok(())
}

#[test]
fn a_reader_and_a_writer_of_std(rt: HostRuntime) -> Result<(), Fail> {
    let mut source = Plain::new(&b"abc"[..]);
    let mut buf = [0; 2];
    let count = source.read_some(&mut buf)?;
    assert_eq!(rt;
        (count, buf, source.into_inner()),
        (2, *b"ab", b"c".as_slice())
    );

    let mut sink = Plain::new(Vec::new(rt.alloc()));
    let counts = [
        sink.write_some(b"ab")?,
        sink.write_some(b"")?,
        sink.write_some(b"c")?,
    ];
    assert_eq!(rt; counts, [2, 0, 1]);
    assert_eq!(rt; sink.into_inner().as_slice(), b"abc".as_slice());
    Ok(())
}

/// Gives each read and each write this result, where there is room for so many bytes, and counts the calls. Each flush
/// fails.
#[derive(Drop)]
struct Counting {
    outcome: std::result::Result<usize, ErrorKind>,
    reads: usize,
    writes: usize,
    flushes: usize,
}

impl Counting {
    fn new(outcome: std::result::Result<usize, ErrorKind>) -> Counting {
        Counting {
            outcome,
            reads: 0,
            writes: 0,
            flushes: 0,
        }
    }

    /// How many reads, writes and flushes were made.
    fn calls(&self) -> [usize; 3] {
        [self.reads, self.writes, self.flushes]
    }
}

impl Read for Counting {
    fn read(&mut self, buf: &mut [u8]) -> io::Result<usize> {
        self.reads = self.reads.saturating_add(1);
        let count = self.outcome.map_err(io::Error::from)?;
        Ok(count.min(buf.len()))
    }
}

impl Write for Counting {
    fn write(&mut self, buf: &[u8]) -> io::Result<usize> {
        self.writes = self.writes.saturating_add(1);
        let count = self.outcome.map_err(io::Error::from)?;
        Ok(count.min(buf.len()))
    }

    fn flush(&mut self) -> io::Result<()> {
        self.flushes = self.flushes.saturating_add(1);
        Err(io::Error::from(ErrorKind::Other))
    }
}

/// What a read or a write of four bytes may come to: an interruption, other faults, the end, a part, and all.
const OUTCOMES: [std::result::Result<usize, ErrorKind>; 8] = [
    Err(ErrorKind::Interrupted),
    Err(ErrorKind::WouldBlock),
    Err(ErrorKind::TimedOut),
    Err(ErrorKind::OutOfMemory),
    Err(ErrorKind::Other),
    Ok(0),
    Ok(1),
    Ok(4),
];

#[test]
fn a_read_is_one_read_below(rt: HostRuntime) {
    for outcome in OUTCOMES {
        let mut source = Plain::new(Counting::new(outcome));
        let got = source.read_some(&mut [0; 4]).map_err(|fault| fault.kind());
        assert_eq!(rt; (got, source.into_inner().calls()), (outcome, [1, 0, 0]));
    }
}

#[test]
fn a_write_is_one_write_below_and_no_flush(rt: HostRuntime) {
    for outcome in OUTCOMES {
        let mut sink = Plain::new(Counting::new(outcome));
        let got = sink.write_some(b"abcd").map_err(|fault| fault.kind());
        assert_eq!(rt; (got, sink.into_inner().calls()), (outcome, [0, 1, 0]));
    }
}

/// The calls that `write_pair` and `list` of `K="1"` make on a writer that takes so many bytes a write.
fn calls_of(alloc: Global, most: usize) -> std::result::Result<[[usize; 3]; 2], Fail> {
    let key = "K";
    if !is_key(key) {
        return Err(Fail::from("no key"));
    }
    let mut pair = Plain::new(Counting::new(Ok(most)));
    write_pair(alloc, &mut pair, key, "1")?;
    let mut listing = Plain::new(Counting::new(Ok(most)));
    list(alloc, Bytes::new(b"K=1"), &mut listing)?;
    Ok([pair.into_inner().calls(), listing.into_inner().calls()])
}

#[test]
fn what_is_written_is_not_flushed(rt: HostRuntime) -> std::result::Result<(), Fail> {
    for (most, writes) in [(1, 6), (4, 2), (6, 1), (100, 1)] {
        let calls = [0, writes, 0];
        assert_eq!(rt;
            calls_of(rt.alloc(), most)?,
            [calls, calls],
            "{most} bytes a write"
        );
    }
    Ok(())
}
