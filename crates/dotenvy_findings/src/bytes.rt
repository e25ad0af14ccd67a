//! Where the bytes of a file are no text.

ghost use Rattle.std.specs.Prelude.{◌≡◌, ◌==◌, not, true, OnOk};
ghost use Rattle.std.specs.List.{prefix_len};
ghost use Rattle.dotenvy_format.specs.Characters.{line_feed};
ghost use Rattle.dotenvy_format.specs.PhysicalLines.{no_line_feed};
ghost use Rattle.dotenvy_findings.specs.Bytes.{bad_at_end, bad_before, byte_after, ends_mark, fresh, hint, is_between, is_continuation, is_second, mark_after, part_after, part_behind, place_behind, skips, stepped, watch_of, watched, with_bad, with_end};

use crate::kind::Kind;
use crate::place::Place;
use memchr::memchr;
use std::alloc::{AllocError, Allocator};

/// The first byte of a physical line that is no text. The longest front of the line that is UTF-8 ends before it.
#[derive(Clone, Copy, Debug, PartialEq, Eq)]
pub struct BadByte {
    /// Where it is.
    pub place: Place,
    /// What the file seems to be: `NotUtf8`, `Utf16` or `Latin1`.
    pub hint: Kind,
}

/// How much of a character was read.
#[derive(Clone, Copy)]
pub(crate) enum CharacterPart {
    /// Nothing.
    Nothing,
    /// This first byte, which is not ASCII.
    First(u8),
    /// All but the last byte.
    AllButOne,
    /// All but the last two bytes.
    AllButTwo,
    /// It is none: the rest of the line is skipped.
    NoText,
}

// Whether the byte can be a later one of a character.
fn is_continuation(byte: u8) -> bool
    ensures { result ≡ is_continuation byte }
{
    matches!(byte, 0x80..=0xBF)
}

// Whether the byte can be the second one of a character with this first byte.
fn is_second(first: u8, byte: u8) -> bool
    ensures { result ≡ is_second first byte }
{
    match first {
        0xE0 => matches!(byte, 0xA0..=0xBF),
        0xED => matches!(byte, 0x80..=0x9F),
        0xF0 => matches!(byte, 0x90..=0xBF),
        0xF4 => matches!(byte, 0x80..=0x8F),
        0xC2..=0xF3 => is_continuation(byte),
        _ => false,
    }
}

// How much was read of a character behind its first two bytes.
fn part_behind(first: u8) -> CharacterPart
    ensures { result ≡ part_behind first }
{
    if first < 0xE0 {
        CharacterPart::Nothing
    } else if first < 0xF0 {
        CharacterPart::AllButOne
    } else {
        CharacterPart::AllButTwo
    }
}

// How much was read behind one more byte.
fn part_after(part: CharacterPart, byte: u8) -> CharacterPart
    ensures { result ≡ part_after part byte }
{
    match part {
        CharacterPart::Nothing if byte < 0x80 => CharacterPart::Nothing,
        CharacterPart::Nothing => CharacterPart::First(byte),
        CharacterPart::First(first) if is_second(first, byte) => part_behind(first),
        CharacterPart::AllButOne if is_continuation(byte) => CharacterPart::Nothing,
        CharacterPart::AllButTwo if is_continuation(byte) => CharacterPart::AllButOne,
        _ => CharacterPart::NoText,
    }
}

// Whether the rest of the line is skipped.
fn skips(part: CharacterPart) -> bool
    ensures { result ≡ skips part }
{
    matches!(part, CharacterPart::NoText)
}

/// How much of a byte order mark was read at the start of a file.
#[derive(Clone, Copy)]
pub(crate) enum MarkPart {
    /// Nothing, and nothing of the file.
    Nothing,
    /// The first byte.
    First,
    /// The first two bytes.
    Second,
    /// All of it, or the file has none.
    Past,
}

/// How far the bytes of a file were watched.
#[derive(Clone, Copy)]
pub(crate) struct ByteCursor {
    /// The place of the character that is being read.
    pub(crate) place: Place,
    /// How much of it was read.
    pub(crate) part: CharacterPart,
    /// How much of a byte order mark was read. A mark has no place.
    pub(crate) mark: MarkPart,
}

// How much of a byte order mark was read behind one more byte.
fn mark_after(mark: MarkPart, byte: u8) -> MarkPart
    ensures { result ≡ mark_after mark byte }
{
    match (mark, byte) {
        (MarkPart::Nothing, 0xEF) => MarkPart::First,
        (MarkPart::First, 0xBB) => MarkPart::Second,
        _ => MarkPart::Past,
    }
}

// Whether this byte ends a byte order mark.
fn ends_mark(mark: MarkPart, byte: u8) -> bool
    ensures { result ≡ ends_mark mark byte }
{
    matches!((mark, byte), (MarkPart::Second, 0xBF))
}

// How many bytes stand before the first line feed.
#[tactic(auto, using(dotenvy_format::proofs::bytes::ByteRuns::run_to_byte))]
fn line_len(bytes: &[u8]) -> usize
    ensures { result ≡ prefix_len (λ b. not (b == line_feed)) bytes.now }
{
    memchr(b'\n', bytes).unwrap_or(bytes.len())
}

impl ByteCursor {
    // Whether the next byte begins a character, and no byte order mark.
    fn is_between(self) -> bool
        ensures { result ≡ is_between self }
    {
        matches!(
            (self.part, self.mark),
            (CharacterPart::Nothing, MarkPart::Past)
        )
    }

    // What the file seems to be, where the character that was begun is none, and this byte or the end of the file
    // follows.
    fn hint(self, next: Option<u8>) -> Kind
        ensures { result ≡ hint self next }
    {
        match (self.part, next) {
            (CharacterPart::First(0xFE | 0xFF), _)
                if self.place.line == 1 && self.place.column == 1 => { Kind::Utf16 }
            (CharacterPart::First(0xA0..=0xFF), None | Some(0..=0x7F)) => Kind::Latin1,
            _ => Kind::NotUtf8,
        }
    }

    // The bad byte that is known of with one more byte, if there is one.
    fn bad_before(self, byte: u8) -> Option<BadByte>
        ensures { result ≡ bad_before self byte }
    {
        if skips(part_after(self.part, byte)) && !skips(self.part) {
            Some(BadByte {
                place: self.place,
                hint: self.hint(Some(byte)),
            })
        } else {
            None
        }
    }

    // The place behind a byte within a line, with which this much of a character was read.
    fn place_behind(self, part: CharacterPart, byte: u8) -> Place
        ensures { result ≡ place_behind self part byte }
    {
        match part {
            CharacterPart::Nothing if !ends_mark(self.mark, byte) => Place {
                line: self.place.line,
                column: self.place.column.saturating_add(1),
            },
            _ => self.place,
        }
    }

    // The cursor behind one more byte.
    fn after(self, byte: u8) -> ByteCursor
        ensures { result ≡ byte_after self byte }
    {
        let mark = mark_after(self.mark, byte);
        if byte == b'\n' {
            return ByteCursor {
                place: self.place.after('\n'),
                part: CharacterPart::Nothing,
                mark,
            };
        }
        let part = part_after(self.part, byte);
        ByteCursor {
            place: self.place_behind(part, byte),
            part,
            mark,
        }
    }

    // The bad byte at the end of the file, if a character is cut off there.
    fn bad_at_end(self) -> Option<BadByte>
        ensures { result ≡ bad_at_end self }
    {
        match self.part {
            CharacterPart::Nothing | CharacterPart::NoText => None,
            _ => Some(BadByte {
                place: self.place,
                hint: self.hint(None),
            }),
        }
    }
}

/// Watches the bytes of a file, which come in parts, and keeps the first byte of each physical line that is no text.
#[derive(Drop)]
pub struct BadBytes<A: Allocator> {
    cursor: ByteCursor,
    found: Vec<BadByte, A>,
}

impl<A: Allocator> BadBytes<A> {
    /// A watch that begins with a file.
    pub fn new(alloc: A) -> BadBytes<A>
        ensures { watch_of result ≡ fresh }
    {
        BadBytes {
            cursor: ByteCursor {
                place: Place { line: 1, column: 1 },
                part: CharacterPart::Nothing,
                mark: MarkPart::Nothing,
            },
            found: Vec::new(alloc),
        }
    }

    // Keeps a bad byte, if there is one.
    fn keep(&mut self, bad: Option<BadByte>) -> Result<(), AllocError>
        ensures { OnOk result (watch_of self.new ≡ with_bad bad (watch_of self.old)) }
    {
        if let Some(bad) = bad {
            self.found.push(bad)?;
        }
        Ok(())
    }

    // Watches one more byte.
    fn step(&mut self, byte: u8) -> Result<(), AllocError>
        ensures { OnOk result (watch_of self.new ≡ stepped (watch_of self.old) byte) }
    {
        self.keep(self.cursor.bad_before(byte))?;
        self.cursor = self.cursor.after(byte);
        Ok(())
    }

    // Watches bytes within one line. Bytes of ASCII are counted at once.
    fn watch_line(&mut self, bytes: &[u8]) -> Result<(), AllocError>
        requires { no_line_feed bytes.now ≡ true }
        ensures { OnOk result (watch_of self.new ≡ watched (watch_of self.old) bytes.now) }
    {
        if self.cursor.is_between() && bytes.is_ascii() {
            let column = self.cursor.place.column;
            self.cursor.place.column = column.saturating_add(bytes.len() as u64);
            return Ok(());
        }
        let mut rest = bytes;
        'bytes: while let Some((first, after)) = rest.split_first() {
            self.step(*first)?;
            rest = after;
        }
        Ok(())
    }

    /// Watches the next bytes of the file. They may be cut anywhere.
    pub fn watch(&mut self, bytes: &[u8]) -> Result<(), AllocError>
        ensures { OnOk result (watch_of self.new ≡ watched (watch_of self.old) bytes.now) }
    {
        let mut rest = bytes;
        'lines: loop {
            let (line, back) = rest.split_at(line_len(rest));
            self.watch_line(line)?;
            let Some((end, after)) = back.split_first() else {
                return Ok(());
            };
            self.step(*end)?;
            rest = after;
        }
    }

    /// Ends the watch with the file: a character that is cut off there is no text.
    pub fn finish(&mut self) -> Result<(), AllocError>
        ensures { OnOk result (watch_of self.new ≡ with_end (watch_of self.old)) }
    {
        self.keep(self.cursor.bad_at_end())?;
        self.cursor.part = CharacterPart::NoText;
        Ok(())
    }

    /// The bad bytes so far, one for each line that has one, in the order of the file.
    pub fn found(&self) -> &[BadByte]
        ensures { result.now ≡ (watch_of self.now).found }
    {
        self.found.as_slice()
    }
}
