//! The logical lines of a file in memory, each with its bytes.

ghost use Rattle.std.specs.Prelude.{◌≡◌, ◌≤◌, ◌-◌, ◌+◌, ◌++◌, ◌↔◌, [], IfOk, IsTrue, OnErr};
ghost use Rattle.dotenvy_editor.specs.TakenSlices.{GivesSlice, IsFresh, NothingBehind, ReadsOn, SkipsLines, TakesKind};

use dotenvy::{Bytes, Error};
use dotenvy_lines::lines::{Splitter, Stage};
use memchr::memchr;
use std::alloc::{AllocError, Allocator};
use std::marker::Model;

/// What a logical line is.
#[derive(Clone, Copy, PartialEq, Eq, Drop)]
pub(crate) enum Kind {
    /// A text, or a comment that is skipped.
    Text,
    /// A text that stays open up to the end of the file.
    Open,
    /// A line that isn't UTF-8.
    Broken,
}

/// The whole physical lines of one logical line.
#[derive(Clone, Copy)]
pub(crate) struct Slice<'b> {
    pub(crate) bytes: &'b [u8],
    /// The first and the last physical line, counted from 1.
    pub(crate) first: u64,
    pub(crate) last: u64,
    pub(crate) kind: Kind,
}

impl Slice<'_> {
    /// Whether the line is a text, or a comment.
    pub(crate) fn is_text(self) -> bool
        ensures { IsTrue result ↔ (self.entry.kind ≡ Kind.Text) }
    {
        self.kind == Kind::Text
    }
}

/// The slices of a file that are left.
#[derive(Drop)]
pub(crate) struct Lines<'b, A: Allocator> {
    splitter: Splitter<Bytes<'b>, A>,
    bytes: &'b [u8],
    // Where the bytes that are left begin.
    place: usize,
    // The text of a line that stays open, once one was met.
    unclosed: Option<String<A>>,
}

impl<'b, A: Allocator> Model for Lines<'b, A> {
    ghost use Rattle.std.specs.Prelude.{◌≤◌, length, take, drop};
    ghost use Rattle.dotenvy_editor.specs.TakenSlices.{LinesState, NothingBehind, ReadsOn, text_of};

    ghost Value = { LinesState };

    ghost view = { λ s.
        record {
          before = take s.place s.bytes.now;
          left = drop s.place s.bytes.now;
          text = text_of s.unclosed s.splitter.line;
        } };

    ghost invariant = { λ s. (s.place ≤ length s.bytes.now)
        × ReadsOn s.splitter.lines (take s.place s.bytes.now) (drop s.place s.bytes.now)
        × NothingBehind s.unclosed (drop s.place s.bytes.now) };
}

/// The bytes after the first physical line.
pub fn after_line(bytes: &[u8]) -> &[u8]
    ensures { SkipsLines bytes.now 1 result.now }
{
    match memchr(b'\n', bytes) {
        Some(place) => &bytes[place + 1..],
        None => &bytes[bytes.len()..],
    }
}

// Cuts the bytes after the physical lines with these numbers.
fn split_lines(bytes: &[u8], first: u64, last: u64) -> (&[u8], &[u8])
    requires { first ≤ last }
    ensures joins { bytes.now ≡ result.0.now ++ result.1.now }
    ensures skips { SkipsLines bytes.now (last - first + 1) result.1.now }
{
    let mut rest = after_line(bytes);
    'lines: for _line in first..last {
        rest = after_line(rest);
    }
    bytes.split_at(bytes.len() - rest.len())
}

// Takes the next logical line. The text of one that stays open is kept.
fn next_kind<A: Allocator + Clone>(
    splitter: &mut Splitter<Bytes<'_>, A>,
    unclosed: &mut Option<String<A>>,
) -> Result<Option<Kind>, AllocError>
    ensures ok { IfOk result (λ kind. (before left : _) →
        ReadsOn splitter.old.lines before left → NothingBehind unclosed.old left →
        TakesKind left splitter.old.lines kind unclosed.new splitter.new.line
        splitter.new.lines) }
    ensures refused { OnErr result (splitter.new.lines.stage ≡ Stage.Failed) }
{
    match splitter.advance() {
        None => Ok(None),
        Some(Ok(())) => Ok(Some(Kind::Text)),
        Some(Err(Error::LineParse(text, _length))) => {
            *unclosed = Some(text);
            Ok(Some(Kind::Open))
        }
        Some(Err(Error::Memory(refused))) => Err(refused),
        Some(Err(Error::Io(_fault))) => Ok(Some(Kind::Broken)),
        Some(Err(Error::EnvVar(_fault))) => Ok(Some(Kind::Broken)),
        Some(Err(Error::Nul(_key))) => Ok(Some(Kind::Broken)),
    }
}

impl<'b, A: Allocator + Clone> Lines<'b, A> {
    /// All lines of these bytes, which have no mark at their start any more.
    pub(crate) fn new(alloc: A, bytes: &'b [u8]) -> Result<Lines<'b, A>, AllocError>
        ensures { IfOk result (λ lines. IsFresh lines bytes.now) }
    {
        match Splitter::with_limit(alloc, Bytes::new(bytes), u64::MAX) {
            Ok(splitter) => Ok(Lines {
                splitter,
                bytes,
                place: 0,
                unclosed: None,
            }),
            Err(_refused) => Err(AllocError),
        }
    }

    /// The next logical line. After refused memory nothing is left.
    pub(crate) fn advance(&mut self) -> Result<Option<Slice<'b>>, AllocError>
        ensures gives { IfOk result (λ next. GivesSlice self.old next self.new) }
        ensures refused { OnErr result (self.new.left ≡ []) }
    {
        let kind = match next_kind(&mut self.splitter, &mut self.unclosed) {
            Ok(Some(kind)) => kind,
            Ok(None) => return Ok(None),
            Err(refused) => {
                self.place = self.bytes.len();
                return Err(refused);
            }
        };
        let (first, last) = self.splitter.last_lines();
        let (_, left) = self.bytes.split_at(self.place);
        let (bytes, _) = split_lines(left, first, last);
        self.place += bytes.len();
        Ok(Some(Slice {
            bytes,
            first,
            last,
            kind,
        }))
    }

    /// The text of the last logical line, which is empty for a comment.
    pub(crate) fn text(&self) -> &str
        ensures { result.now ≡ self.now.text }
    {
        match &self.unclosed {
            Some(text) => text.as_str(),
            None => self.splitter.line(),
        }
    }
}
