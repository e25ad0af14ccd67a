//! The logical lines of a source: physical lines, joined where a quote stays open.

ghost use Rattle.std.specs.Prelude.{◌≡◌, ◌≢◌, ◌≤◌, ◌<◌, None, Ok, IfOk, IfErr, IsOk, OnOk, OnErr, IfSome, IsSome, IsTrue, ◌↔◌, string_bytes};
ghost use Rattle.dotenvy_base.specs.Errors.{IsMemory, IsMemoryErr};
ghost use Rattle.dotenvy_lines.specs.Input.{most_reads, AsksReads, DropsMark};
ghost use Rattle.dotenvy_lines.specs.inside.InputSteps.{WhereTold};
ghost use Rattle.dotenvy_lines.specs.Lines.{lines_measure, WhereOpen, fresh_lines};
ghost use Rattle.dotenvy_lines.specs.inside.NextLine.{AdvanceIs, outcome_of, given_text};
ghost use Rattle.dotenvy_lines.specs.inside.JoinedLines.{JoinsNext, UsesSome, stage_after, is_refused, IsOutcome};
ghost use Rattle.dotenvy_lines.specs.inside.Splitter.{last_lines};

use crate::buffer::Buffer;
use crate::input::Input;
use crate::physical_line::{Taken, take_line};
use dotenvy_base::errors::{Error, Result, fault_error};
use dotenvy_base::source::Source;
use dotenvy_format::walk::LineMode;
use std::alloc::Allocator;
use std::io;
use std::io::ErrorKind;
use std::marker::Model;

/// The most reads that an iterator makes, 2^32. This bound makes each iteration end, whatever the source does.
pub const READ_LIMIT: u64 = 4_294_967_296;

/// What the next physical lines make. The text is in the line buffer.
#[derive(Clone, Copy, Drop)]
pub enum Joined {
    /// Nothing: no line is left.
    Nothing,
    /// A comment, which is skipped.
    Skipped,
    /// A logical line.
    Whole,
    /// A logical line that is still open at the end of input.
    OpenEnd,
    /// A line that isn't UTF-8.
    BrokenLine,
}

// Takes physical lines until they make a logical line, whose text is left in the line buffer, and counts them. More
// than 2^64 - 1 are not counted; so many reads are never made.
fn join_lines<R: Source, A: Allocator>(
    input: &mut Input<R, A>,
    text: &mut String<A>,
    lines_taken: &mut u64,
) -> Result<Joined, A>
    ensures falls { IfOk result (λ joined. UsesSome input.old joined input.new) }
    ensures told { WhereTold input.old.left
        (λ a. JoinsNext a input.old lines_taken.old result (string_bytes text.new) input.new
        lines_taken.new) }
    ensures asks { AsksReads (IsOk result) input.old input.new }
{
    text.clear();
    let mut mode = LineMode::Outside;
    'joining: loop {
        if !input.has_more()? {
            return Ok(match mode {
                _ if text.is_empty() => Joined::Nothing,
                LineMode::Outside => Joined::Whole,
                _ => Joined::OpenEnd,
            });
        }
        let taken = take_line(input, text, mode)?;
        *lines_taken = lines_taken.saturating_add(1);
        match taken {
            Taken::Going(next) => mode = next,
            Taken::Ended => return Ok(Joined::Whole),
            Taken::Comment => {
                text.clear();
                return Ok(Joined::Skipped);
            }
            Taken::Broken => return Ok(Joined::BrokenLine),
        }
    }
}

/// Whether more lines may come.
#[derive(Clone, Copy, Drop)]
pub enum Stage {
    /// More lines may come.
    Open,
    /// No line is left.
    Ended,
    /// A final fault came, and no line is given after it.
    Failed,
}

/// The memory in which lines are read: an empty buffer for reads, and the line buffer.
///
/// Memory is refused, if at all, when it is made: so before a reader is borrowed.
#[derive(Drop)]
pub struct Room<A: Allocator> {
    buffer: Buffer<A>,
    line: String<A>,
}

impl<A: Allocator> Model for Room<A> {
    ghost use Rattle.std.specs.Prelude.{◌≡◌, []};

    ghost Value = { Unit {0} };

    ghost view = { λ s. tt };

    ghost invariant = { λ s. s.buffer ≡ [] };
}

impl<A: Allocator + Clone> Room<A> {
    /// The memory for reading is allocated here; the line buffer grows with the lines.
    pub fn new(alloc: A) -> Result<Room<A>, A>
        ensures { IfErr result IsMemory }
    {
        let line = String::new(alloc.clone()?);
        Ok(Room {
            buffer: Buffer::new(alloc)?,
            line,
        })
    }
}

/// Reads logical lines into one line buffer, until the end or a final fault.
#[derive(Drop)]
pub struct Splitter<R: Source, A: Allocator> {
    input: Input<R, A>,
    stage: Stage,
    line: String<A>,
    lines_taken: u64,
    first_line: u64,
}

impl<R: Source, A: Allocator> Model for Splitter<R, A> {
    ghost use Rattle.std.specs.Prelude.{string_bytes};
    ghost use Rattle.dotenvy_lines.specs.inside.Splitter.{SplitterState, splitter_code};

    ghost Value = { SplitterState };

    ghost coded = { splitter_code };

    ghost view = { λ s.
        record {
          lines = record {
            input = s.input;
            stage = s.stage;
            lines_taken = s.lines_taken;
            first_line = s.first_line;
          };
          line = string_bytes s.line;
        } };
}

impl<R: Source, A: Allocator> Splitter<R, A> {
    /// As `with_limit`, in memory that is there already, so that nothing can be refused.
    pub fn in_room(room: Room<A>, reader: R, reads: u64) -> Splitter<R, A>
        ensures { result.lines ≡ fresh_lines (R.told reader) reads }
    {
        let Room { buffer, line } = room;
        Splitter {
            input: Input::new(buffer, reader, reads),
            stage: Stage::Open,
            line,
            lines_taken: 0,
            first_line: 0,
        }
    }

    /// Its source, of which bytes may have been read that are not used yet.
    pub fn reader(&self) -> &R
        ensures calls { (R.told result.now).calls ≡ self.now.lines.input.calls }
        ensures references { (R.told result.now).references ≡ self.now.lines.input.references }
    {
        self.input.reader()
    }

    /// Gives its source back. Bytes that were read and not used are lost.
    pub fn into_reader(self) -> R
        ensures calls { (R.told result).calls ≡ self.lines.input.calls }
        ensures references { (R.told result).references ≡ self.lines.input.references }
    {
        let Splitter {
            input,
            stage: _,
            line: _,
            lines_taken: _,
            first_line: _,
        } = self;
        input.into_reader()
    }
}

impl<R: Source, A: Allocator + Clone> Splitter<R, A> {
    /// A splitter of which nothing is read yet, and that makes at most 2^32 reads.
    ///
    /// Its memory is allocated here, as a [`Room`].
    pub fn new(alloc: A, reader: R) -> Result<Splitter<R, A>, A>
    where
        R: Drop,
        ensures ok { IfOk result
            (λ s. s.lines ≡ fresh_lines (R.told reader) most_reads) }
        ensures memory { IfErr result IsMemory }
    {
        Splitter::with_limit(alloc, reader, READ_LIMIT)
    }

    /// As `new`, with at most `reads` reads.
    pub fn with_limit(alloc: A, reader: R, reads: u64) -> Result<Splitter<R, A>, A>
    where
        R: Drop,
        ensures ok { IfOk result (λ s. s.lines ≡ fresh_lines (R.told reader) reads) }
        ensures memory { IfErr result IsMemory }
    {
        Ok(Splitter::in_room(Room::new(alloc)?, reader, reads))
    }

    /// The allocator of the buffers.
    pub fn allocator(&self) -> &A {
        self.input.allocator()
    }

    /// Ends the iteration by a final fault: `advance` returns `None` from now on.
    pub fn fail(&mut self)
        ensures lines { self.new.lines ≡ record self.old.lines { stage = Stage.Failed } }
        ensures line { self.new.line ≡ self.old.line }
    {
        self.stage = Stage::Failed;
    }

    fn is_open(&self) -> bool
        ensures { IsTrue result ↔ (self.now.lines.stage ≡ Stage.Open) }
    {
        matches!(self.stage, Stage::Open)
    }

    /// Whether a final fault ended the iteration.
    pub fn has_failed(&self) -> bool
        ensures { IsTrue result ↔ (self.now.lines.stage ≡ Stage.Failed) }
    {
        matches!(self.stage, Stage::Failed)
    }

    /// The text that `advance` left: that of the last logical line, or the empty text for a line that was skipped.
    pub fn line(&self) -> &str
        ensures { result.now ≡ self.now.line }
    {
        self.line.as_str()
    }

    /// The first and the last physical line of the last logical line, counted from 1.
    ///
    /// Both are 0 before the first logical line, and after a final fault, which is on no line.
    pub fn last_lines(&self) -> (u64, u64)
        ensures { result ≡ last_lines self.now.lines }
    {
        match self.stage {
            Stage::Failed => (0, 0),
            Stage::Open | Stage::Ended => (self.first_line, self.lines_taken),
        }
    }
}

fn stage_after(joined: Joined, is_used_up: bool, is_refused: bool) -> Stage
    ensures { result ≡ stage_after joined is_used_up is_refused }
{
    if is_refused {
        return Stage::Failed;
    }
    match joined {
        Joined::Nothing => Stage::Ended,
        _ => {
            if is_used_up {
                Stage::Ended
            } else {
                Stage::Open
            }
        }
    }
}

// What `advance` returns for what was joined. The fault of a line that stays open is on all of its text.
fn outcome<A: Allocator + Clone>(alloc: &A, joined: Joined, line: &str) -> Option<Result<(), A>>
    ensures { IsOutcome joined line.now result }
{
    match joined {
        Joined::Nothing => None,
        Joined::Skipped | Joined::Whole => Some(Ok(())),
        Joined::OpenEnd => Some(Err(match alloc.clone() {
            Ok(alloc) => fault_error(alloc, line, line.len()),
            Err(refused) => Error::Memory(refused),
        })),
        Joined::BrokenLine => Some(Err(Error::Io(io::Error::new(
            ErrorKind::InvalidData,
            "the line is not UTF-8",
        )))),
    }
}

fn is_refused<A: Allocator>(outcome: &Option<Result<(), A>>) -> bool
    ensures { result ≡ is_refused outcome.now }
{
    matches!(outcome, Some(Err(Error::Memory(_))))
}

impl<R: Source, A: Allocator + Clone> Splitter<R, A> {
    /// Takes the next logical line, and leaves its text in the line buffer: the empty text for a line that is skipped.
    ///
    /// Returns the line's fault if it has one, and `None` at the end and after a final fault.
    ///
    /// A line that stays open at the end is `LineParse` with its whole text, and with its length in bytes as the index.
    /// A line that isn't UTF-8 is `Io` of kind `InvalidData`; the physical lines after it are left. For a logical line
    /// there is at most one read more than it has bytes.
    pub fn advance(&mut self) -> Option<Result<(), A>>
        ensures shut { self.old.lines.stage ≢ Stage.Open → (result ≡ None) × (self.new ≡ self.old) }
        ensures falls { IsSome result →
            lines_measure self.new.lines < lines_measure self.old.lines }
        ensures none { result ≡ None → self.new.lines.stage ≢ Stage.Open }
        ensures memory { IfSome result (λ r. IsMemoryErr r → self.new.lines.stage ≡ Stage.Failed) }
        ensures told { WhereOpen self.old.lines
            (λ a. AdvanceIs a self.old.lines result self.new.line self.new.lines) }
        ensures asks { AsksReads (self.new.lines.stage ≡ Stage.Open) self.old.lines.input
            self.new.lines.input }
    {
        if !self.is_open() {
            return None;
        }
        self.first_line = self.lines_taken.saturating_add(1);
        let joined = match join_lines(&mut self.input, &mut self.line, &mut self.lines_taken) {
            Ok(joined) => joined,
            Err(e) => {
                self.stage = Stage::Failed;
                return Some(Err(e));
            }
        };
        let outcome = outcome(self.input.allocator(), joined, self.line.as_str());
        self.stage = stage_after(joined, self.input.is_used_up(), is_refused(&outcome));
        outcome
    }

    /// Drops a byte order mark, if the next bytes are one. Does nothing after the end or a final fault.
    pub fn drop_mark(&mut self) -> Result<(), A>
        ensures shut { self.old.lines.stage ≢ Stage.Open →
            (result ≡ Ok tt) × (self.new ≡ self.old) }
        ensures falls { lines_measure self.new.lines ≤ lines_measure self.old.lines }
        ensures ok { OnOk result (self.new.lines.stage ≡ self.old.lines.stage) }
        ensures err { OnErr result (self.new.lines.stage ≡ Stage.Failed) }
        ensures counts { (self.new.lines.lines_taken ≡ self.old.lines.lines_taken)
            × (self.new.lines.first_line ≡ self.old.lines.first_line) }
        ensures told { WhereOpen self.old.lines
            (λ a. DropsMark a self.old.lines.input result self.new.lines.input) }
        ensures asks { AsksReads (self.new.lines.stage ≡ Stage.Open) self.old.lines.input
            self.new.lines.input }
    {
        if !self.is_open() {
            return Ok(());
        }
        match self.input.drop_mark() {
            Ok(()) => Ok(()),
            Err(e) => {
                self.stage = Stage::Failed;
                Err(e)
            }
        }
    }
}

fn copy_of<A: Allocator + Clone>(alloc: &A, line: &str) -> Result<String<A>, A>
    ensures text { IfOk result (λ text. string_bytes text ≡ line.now) }
    ensures memory { IfErr result IsMemory }
{
    Ok(String::from_str(alloc.clone()?, line)?)
}

/// The logical lines, each as a separate text.
#[derive(Drop)]
pub struct QuotedLines<R: Source, A: Allocator> {
    splitter: Splitter<R, A>,
}

impl<R: Source, A: Allocator> Model for QuotedLines<R, A> {
    ghost use Rattle.dotenvy_lines.specs.Lines.{LinesState, lines_code};

    ghost Value = { LinesState };

    ghost coded = { lines_code };

    ghost view = { λ s. s.splitter.lines };
}

impl<R: Source, A: Allocator + Clone> QuotedLines<R, A> {
    /// The lines that the splitter has left.
    pub fn new(splitter: Splitter<R, A>) -> QuotedLines<R, A>
        ensures { result ≡ splitter.lines }
    {
        QuotedLines { splitter }
    }

    /// The text of the next logical line, or its fault.
    ///
    /// The text is empty for a line that is skipped. `None` comes at the end and after a final fault.
    pub fn next_line(&mut self) -> Option<Result<String<A>, A>>
        ensures shut { self.old.stage ≢ Stage.Open → (result ≡ None) × (self.new ≡ self.old) }
        ensures falls { IsSome result → lines_measure self.new < lines_measure self.old }
        ensures none { result ≡ None → self.new.stage ≢ Stage.Open }
        ensures memory { IfSome result (λ r. IsMemoryErr r → self.new.stage ≡ Stage.Failed) }
        ensures told { WhereOpen self.old
            (λ a. AdvanceIs a self.old (outcome_of result) (given_text result) self.new) }
        ensures asks { AsksReads (self.new.stage ≡ Stage.Open) self.old.input self.new.input }
    {
        match self.splitter.advance()? {
            Ok(()) => match copy_of(self.splitter.allocator(), self.splitter.line()) {
                Ok(text) => Some(Ok(text)),
                Err(refused) => {
                    self.splitter.fail();
                    Some(Err(refused))
                }
            },
            Err(fault) => Some(Err(fault)),
        }
    }
}
