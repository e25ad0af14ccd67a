//! What logical lines come of bytes, however these are read.

use crate::shown::sees_text;
use dotenvy::{Bytes, Dialect, Environment, Error, Iter, Result, Source};
use dotenvy_items::iter::over_lines;
use dotenvy_lines::lines::{QuotedLines, Splitter};
use std::alloc::{AllocError, Global};
use std::fmt::Write;
use std::io;
use std::io::ErrorKind;
use std::process::Abort;
use std::test::Fail;
use test_support::answers::items;
use test_support::reader::{Cut, PlayedReader, steps};

// Gives its bytes in pieces, every second read interrupted, and then a fault, if it has one, or the end.
#[derive(Drop)]
struct Pieces<'a> {
    rest: &'a [u8],
    size: usize,
    is_interrupted: bool,
    fault: Option<ErrorKind>,
}

impl<'a> Source for Pieces<'a> {
    fn read_some(&mut self, buf: &mut [u8]) -> io::Result<usize> {
        self.is_interrupted = !self.is_interrupted;
        if self.is_interrupted {
            return Err(io::Error::from(ErrorKind::Interrupted));
        }
        if self.rest.is_empty() {
            return match self.fault {
                Some(kind) => Err(io::Error::from(kind)),
                None => Ok(0),
            };
        }
        let n = self.size.min(self.rest.len()).min(buf.len());
        let (now, later) = self.rest.split_at(n);
        buf[..n].copy_from_slice(now);
        self.rest = later;
        Ok(n)
    }
}

// Adds a line in brackets, or its fault.
fn list(all: &mut String, answer: Result<&str>) -> std::result::Result<(), AllocError> {
    match answer {
        Ok(text) => write!(all, "[{text}]"),
        Err(Error::Io(e)) => write!(all, "<{:?}>", e.kind()),
        Err(e) => write!(all, "<{e}>"),
    }
}

// Each line until `None`, as a text of its own.
fn listed<R: Source + Drop>(alloc: Global, splitter: Splitter<R, Global>) -> Result<String> {
    let mut all = String::new(alloc);
    let mut lines = QuotedLines::new(splitter);
    for _ in 0..1000 {
        match lines.next_line() {
            None => break,
            Some(Ok(text)) => list(&mut all, Ok(text.as_str()))?,
            Some(Err(e)) => list(&mut all, Err(e))?,
        }
    }
    Ok(all)
}

// Each line until `None`, as the splitter holds it, and `<more>` where something comes behind that.
fn listed_in_place<R: Source>(alloc: Global, splitter: &mut Splitter<R, Global>) -> Result<String> {
    let mut all = String::new(alloc);
    for _ in 0..1000 {
        match splitter.advance() {
            None => break,
            Some(Ok(())) => list(&mut all, Ok(splitter.line()))?,
            Some(Err(e)) => list(&mut all, Err(e))?,
        }
    }
    if splitter.advance().is_some() {
        write!(all, "<more>")?;
    }
    Ok(all)
}

fn one_byte_a_read(bytes: &[u8]) -> Pieces<'_> {
    Pieces {
        rest: bytes,
        size: 1,
        is_interrupted: false,
        fault: None,
    }
}

// The lines of this reader, without its mark where that is dropped.
fn listed_of<R: Source + Drop>(alloc: Global, reader: R, drops_mark: bool) -> Result<String> {
    let mut splitter = Splitter::new(alloc, reader)?;
    if drops_mark {
        splitter.drop_mark()?;
    }
    listed(alloc, splitter)
}

// Sees that the bytes give these lines, read as one piece and byte by byte.
fn sees_lines(
    rt: &impl Abort,
    alloc: Global,
    bytes: &[u8],
    drops_mark: bool,
    wanted: &str,
) -> Result<()> {
    let whole = listed_of(alloc, Bytes::new(bytes), drops_mark)?;
    let cut = listed_of(alloc, one_byte_a_read(bytes), drops_mark)?;
    assert_eq!(rt;
        [whole.as_str(), cut.as_str()],
        [wanted, wanted],
        "whole, and in pieces"
    );
    Ok(())
}

#[test]
fn logical_lines(rt: HostRuntime) -> std::result::Result<(), Fail> {
    let open_a = "<Error parsing line: 'A=\"b\n', error at line index: 5>";
    let rows: [(&[u8], &str); 24] = [
        (b"", ""),
        (b"A=1\nB=2", "[A=1][B=2]"),
        (b"\n\n", "[][]"),
        (b"A=\"b\nc\"\nD", "[A=\"b\nc\"][D]"),
        (b"A=1\r\nB\r", "[A=1][B\r]"),
        (b"A\r\r\n", "[A\r]"),
        (b"A=b\\\nB", "[A=b\\][B]"),
        (b"A=b\\\r\nB", "[A=b\\][B]"),
        (b" \t# a 'b\nC", "[][C]"),
        (b"# \xFF\nC", "<InvalidData>[C]"),
        (b"A=1 # a 'b\nC", "[A=1 ][C]"),
        (b"A=1  # a 'b\nc'", "[A=1  # a 'b\nc']"),
        (b"A=1   # a 'b\nC", "[A=1   ][C]"),
        (b"A=\"b\n\xFF\nC", "<InvalidData>[C]"),
        (b"A=\"b\n# c\"\n", "[A=\"b\n# c\"]"),
        (b"A=\"b\n", open_a),
        (
            b"A=\\",
            "<Error parsing line: 'A=\\', error at line index: 3>",
        ),
        (
            b"A= ",
            "<Error parsing line: 'A= ', error at line index: 3>",
        ),
        (b"A= 'b'", "[A= 'b']"),
        (b"A='\\''b\nC", "[A='\\''b][C]"),
        (
            b"\xC3\xA9='\xC3\xA9",
            "<Error parsing line: '\u{e9}='\u{e9}', error at line index: 6>",
        ),
        (b"\xC2\xA0#a", "[]"),
        (b"\xC2\xA0\xC2\xA0#a'", "[]"),
        (b"A\xC2\xA0#a'\nB", "[A\u{a0}][B]"),
    ];
    for (bytes, wanted) in rows {
        sees_lines(&rt, rt.alloc(), bytes, false, wanted)?;
    }
    Ok(())
}

#[test]
fn byte_order_marks(rt: HostRuntime) -> std::result::Result<(), Fail> {
    let rows: [(&[u8], &str); 6] = [
        (b"\xEF\xBB\xBFA=1", "[A=1]"),
        (b"\xEF\xBB\xBF\xEF\xBB\xBFA", "[\u{FEFF}A]"),
        (b"\xEF\xBB\xBF", ""),
        (b"\xEF\xBB", "<InvalidData>"),
        (b"A", "[A]"),
        (b"", ""),
    ];
    for (bytes, wanted) in rows {
        sees_lines(&rt, rt.alloc(), bytes, true, wanted)?;
    }
    Ok(())
}

#[test]
fn a_fault_of_the_reader_is_the_last_answer(rt: HostRuntime) -> std::result::Result<(), Fail> {
    let failing = Pieces {
        rest: b"A=1\nB='c\n\xEF",
        size: 4,
        is_interrupted: false,
        fault: Some(ErrorKind::InvalidData),
    };
    let mut lines = Splitter::new(rt.alloc(), failing)?;
    let all = listed_in_place(rt.alloc(), &mut lines)?;
    sees_text(&rt, all, "[A=1]<InvalidData>");
    assert_eq!(rt; lines.drop_mark().is_ok(), true);
    Ok(())
}

// The lines that so many reads give.
fn listed_by<R: Source + Drop>(alloc: Global, reader: R, reads: u64) -> Result<String> {
    listed(alloc, Splitter::with_limit(alloc, reader, reads)?)
}

#[test]
fn the_bound_on_reads(rt: HostRuntime) -> std::result::Result<(), Fail> {
    for (reads, wanted) in [(1, "[A]<Other>"), (2, "[A][B]")] {
        let all = listed_by(rt.alloc(), Bytes::new(b"A\nB"), reads)?;
        sees_text(&rt, all, wanted);
    }
    Ok(())
}

// Three reads, of which each gives one byte or is interrupted: the lines that these bytes decide, the fault, and
// nothing more.
#[test]
fn three_reads(rt: HostRuntime) -> std::result::Result<(), Fail> {
    let alloc = rt.alloc();
    for (bytes, wanted) in [
        ("A=1", "<Other>"),
        ("A=%0a", "[A=]<Other>"),
        ("A=%0aB=1%0a", "[A=]<Other>"),
        ("fail Interrupted; A=%0a", "<Other>"),
        ("%0a; fail Interrupted x2; A=%0a", "[]<Other>"),
    ] {
        let steps = steps(alloc, bytes)?;
        let reader = PlayedReader::new(&steps, Cut::ByByte);
        sees_text(&rt, listed_by(alloc, reader, 3)?, wanted);
        let reader = PlayedReader::new(&steps, Cut::ByByte);
        let mut splitter = Splitter::with_limit(alloc, reader, 3)?;
        sees_text(&rt, listed_in_place(alloc, &mut splitter)?, wanted);
    }
    Ok(())
}

// The items that three reads of one byte give, or of an interruption: `None` is behind them, and stays.
fn items_of_three_reads(
    alloc: Global,
    written: &str,
    dialect: Dialect,
) -> std::result::Result<String, Fail> {
    let steps = steps(alloc, written)?;
    let environment = Environment::new(alloc);
    let reader = PlayedReader::new(&steps, Cut::ByByte);
    let lines = Splitter::with_limit(alloc, reader, 3)?;
    let mut file = over_lines(lines, alloc, dialect);
    let mut given = items(alloc, &mut file, &environment)?;
    if file.next_item(&environment).is_some() {
        given.push(String::from_str(alloc, "more")?)?;
    }
    Ok(given.join(alloc, "; ")?)
}

// The pair or the fault that the bytes read so far decide, the fault of the bound, and nothing more.
#[test]
fn three_reads_by_items(rt: HostRuntime) -> std::result::Result<(), Fail> {
    for (written, wanted) in [
        ("A=%0aB=1%0a", "A=; io Other"),
        ("A=%0a", "A=; io Other"),
        ("A=1", "io Other"),
        ("A=1%0a", "io Other"),
        ("A%0a; fail Interrupted", "fault at 1: A; io Other"),
        ("fail Interrupted; A=%0a", "io Other"),
        ("A=", "A="),
        ("fail TimedOut; A=%0a", "io TimedOut"),
    ] {
        for dialect in [Dialect::V15, Dialect::Next] {
            let given = items_of_three_reads(rt.alloc(), written, dialect)?;
            sees_text(&rt, given, wanted);
        }
    }
    Ok(())
}

#[test]
fn interrupted_reads_count(rt: HostRuntime) -> std::result::Result<(), Fail> {
    let interrupted = Pieces {
        rest: b"A\n",
        size: 4,
        is_interrupted: false,
        fault: Some(ErrorKind::Interrupted),
    };
    let all = listed_by(rt.alloc(), interrupted, 1_000)?;
    sees_text(&rt, all, "[A]<Other>");
    Ok(())
}

#[test]
fn nothing_comes_once_it_has_failed(rt: HostRuntime) -> std::result::Result<(), Fail> {
    let mut failed = Splitter::new(rt.alloc(), Bytes::new(b"A"))?;
    failed.fail();
    let all = listed(rt.alloc(), failed)?;
    sees_text(&rt, all, "");
    Ok(())
}

// A comment is skipped, also one that is read in pieces, and leaves none of the long line before it; the lines behind
// it are shorter, and each is there alone.
const LONG_LINE_FIRST: &[u8] =
    b"A='long\nquoted'\n# c\nB=1\n\n  # d\nC # e\nK=\xC3\nD\n\xFF 'x\nE='\n\xEF\xBB\xBF";

const EACH_ALONE: &str = "[A='long\nquoted'][][B=1][][][C ]<InvalidData>[D]<InvalidData>\
    <Error parsing line: 'E='\n\u{FEFF}', error at line index: 7>";

#[test]
fn the_line_buffer_holds_the_last_line(rt: HostRuntime) -> std::result::Result<(), Fail> {
    let mut splitter = Splitter::new(rt.alloc(), Bytes::new(LONG_LINE_FIRST))?;
    let all = listed_in_place(rt.alloc(), &mut splitter)?;
    sees_text(&rt, all, EACH_ALONE);
    Ok(())
}

#[test]
fn the_line_buffer_holds_a_line_that_comes_in_pieces(
    rt: HostRuntime,
) -> std::result::Result<(), Fail> {
    let mut splitter = Splitter::new(rt.alloc(), one_byte_a_read(LONG_LINE_FIRST))?;
    let all = listed_in_place(rt.alloc(), &mut splitter)?;
    sees_text(&rt, all, EACH_ALONE);
    Ok(())
}

// Whether there is a next item, and the first and the last line of the last one.
fn next_lines<R: Source>(file: &mut Iter<R>, environment: &Environment) -> (bool, u64, u64) {
    let is_some = file.next_item(environment).is_some();
    (is_some, file.first_line(), file.last_line())
}

#[test]
fn lines_of_items(rt: HostRuntime) -> std::result::Result<(), Fail> {
    let alloc = rt.alloc();
    let environment = Environment::new(alloc);
    let bytes = b"# c\nA=1\nB=\"2\n3\"\nC=x y\n\nD=1\n# d";
    let mut file = Iter::new(alloc, Bytes::new(bytes))?;
    assert_eq!(rt; (file.first_line(), file.last_line()), (0, 0));
    for wanted in [
        (true, 2, 2),
        (true, 3, 4),
        (true, 5, 5),
        (true, 7, 7),
        (false, 7, 7),
    ] {
        assert_eq!(rt; next_lines(&mut file, &environment), wanted);
    }
    Ok(())
}

#[test]
fn a_fault_of_the_reader_stands_on_no_line(rt: HostRuntime) -> std::result::Result<(), Fail> {
    let alloc = rt.alloc();
    let environment = Environment::new(alloc);
    let failing = Pieces {
        rest: b"A=1\nB=2",
        size: 4,
        is_interrupted: false,
        fault: Some(ErrorKind::InvalidData),
    };
    let mut file = Iter::new(alloc, failing)?;
    let pair = next_lines(&mut file, &environment);
    let fault = next_lines(&mut file, &environment);
    assert_eq!(rt; [pair, fault], [(true, 1, 1), (true, 0, 0)]);
    Ok(())
}

#[test]
fn items_behind_a_dropped_mark(rt: HostRuntime) -> std::result::Result<(), Fail> {
    let alloc = rt.alloc();
    let environment = Environment::new(alloc);
    for is_dropped in [true, false] {
        let mut file = Iter::new(alloc, Bytes::new(b"\xEF\xBB\xBFA=1\n"))?;
        if is_dropped {
            file.drop_mark()?;
        }
        let is_pair = matches!(file.next_item(&environment), Some(Ok(_)));
        assert_eq!(rt;
            (is_pair, file.first_line(), file.last_line()),
            (is_dropped, 1, 1)
        );
    }
    Ok(())
}
