//! The report of a file, which is written in parts as the file is read.

ghost use Rattle.std.specs.Prelude.{◌≡◌, [], IfOk, OnErr, OnOk, string_bytes};
ghost use Rattle.dotenvy_base.specs.Output.{Sends, most_writes};
ghost use Rattle.dotenvy_checker.specs.Findings.{placed_one};
ghost use Rattle.dotenvy_checker.specs.inside.CheckedLines.{remark_of};
ghost use Rattle.dotenvy_checker.specs.inside.ToldLines.{is_unwritten, one_text, EndsReport, IsUntold, KeepsTold, PushesOne, TellsOne, WritesPart};

use crate::failure::Stop;
use crate::lines::Pending;
use crate::lookup::Lookup;
use crate::report::{Found, Reporting, is_told, push_said, push_separator};
use crate::watched::Seen;
use dotenvy::{Error, Sink};
use dotenvy_base::output::{MOST_WRITES, write_all};
use dotenvy_findings::bytes::BadByte;
use dotenvy_findings::finding::Finding;
use dotenvy_findings::kind::Kind;
use dotenvy_reports::reports::push_finding;
use std::alloc::{AllocError, Allocator};

// A report is written as soon as so many bytes of it are there that are not written yet.
const PART_LEN: usize = 65_536;

// A finding, at the first of these bytes that are no text, if it is that of a line that is none, and the byte is on
// that line.
fn placed(finding: Finding, bad: &[BadByte]) -> Finding
    ensures { result ≡ placed_one bad.now finding }
{
    match (finding.kind, bad.first()) {
        (Kind::NotUtf8, Some(first)) if first.place.line == finding.place.line => {
            let kind = match first.hint {
                Kind::Utf16 => Kind::Utf16,
                Kind::Latin1 => Kind::Latin1,
                _ => Kind::NotUtf8,
            };
            Finding {
                kind,
                place: first.place,
                ..finding
            }
        }
        _ => finding,
    }
}

// Whether reading ended because a part of the report could not be written.
fn is_unwritten<A: Allocator>(read: &Result<(), Stop<A>>) -> bool
    ensures { result ≡ is_unwritten read.now }
{
    matches!(read, Err(Stop::Write(_)))
}

/// The report of a file that is being checked, as far as it is not written yet, and what was told so far.
#[derive(Drop)]
pub(crate) struct FileReport<'a, A: Allocator> {
    /// The name of the file.
    pub(crate) file: &'a str,
    /// How it is reported. Nothing may have been reported before.
    pub(crate) how: Reporting<'a>,
    /// What was told so far comes to this.
    pub(crate) found: Found,
    // What is not written yet.
    text: String<A>,
    // The finding that was printed last.
    one: String<A>,
    lookup: Lookup<A>,
}

impl<'a, A: Allocator + Clone> FileReport<'a, A> {
    /// The report of the file with this name, of which nothing is told yet.
    pub(crate) fn new(
        alloc: A,
        file: &'a str,
        how: Reporting<'a>,
    ) -> Result<FileReport<'a, A>, AllocError>
        ensures { IfOk result (IsUntold file.now how.entry) }
    {
        Ok(FileReport {
            file,
            how,
            found: Found::NOTHING,
            text: String::new(alloc.clone()?),
            one: String::new(alloc.clone()?),
            lookup: Lookup::new(alloc),
        })
    }

    /// Tells this finding, which settles what was pending, unless it is allowed. What was seen in the bytes of the file
    /// says which comment is above it, and where a line is no text. Out of memory, nothing is told.
    pub(crate) fn tell(
        &mut self,
        pending: &Pending<A>,
        finding: Finding,
        seen: &Seen<A>,
    ) -> Result<(), AllocError>
        ensures told { OnOk result
            (TellsOne (record (remark_of pending.now) { finding = finding }) seen.now self.old
            self.new) }
        ensures refused { OnErr result (KeepsTold self.old self.new) }
    {
        self.lookup.move_below(pending.above, seen)?;
        if !is_told(finding, pending.above, self.how.allowed, &self.lookup.above) {
            return Ok(());
        }
        let placed = placed(finding, self.lookup.bad_at(finding.place.line, seen));
        self.push(placed, pending.said.as_str())?;
        self.found = self.found.and(Found::of(placed, self.how.denied));
        Ok(())
    }

    // Appends a finding, and what a load says of its line; or nothing, out of memory.
    fn push(&mut self, finding: Finding, said: &str) -> Result<(), AllocError>
        ensures told { OnOk result (PushesOne finding said.now self.old self.new) }
        ensures refused { OnErr result (KeepsTold self.old self.new) }
    {
        self.print(finding, said)?;
        self.text.push_str(self.one.as_str())?;
        self.how.is_first = false;
        Ok(())
    }

    // Prints a finding, and what a load says of its line, by themselves.
    fn print(&mut self, finding: Finding, said: &str) -> Result<(), AllocError>
        ensures one { OnOk result (string_bytes self.new.one
            ≡ one_text self.old.how self.old.file.now finding said.now) }
        ensures same { self.new ≡ record self.old { one = self.new.one } }
    {
        self.one.clear();
        push_separator(&mut self.one, self.how.format, self.how.is_first)?;
        push_finding(&mut self.one, self.how.format, self.file, finding)?;
        push_said(&mut self.one, self.how.format, said)
    }

    /// Writes what is not written yet, if it is long enough for a part.
    pub(crate) fn write_part<W: Sink>(&mut self, writer: &mut W) -> Result<(), Stop<A>>
        ensures part { WritesPart W.told self.old writer.old result self.new writer.new }
        ensures same { self.new ≡ record self.old { text = self.new.text } }
    {
        if self.text.len() < PART_LEN {
            return Ok(());
        }
        match self.write(writer) {
            Ok(()) => Ok(()),
            Err(unwritten) => Err(Stop::Write(unwritten)),
        }
    }

    /// Writes what is not written yet, unless a part could not be written: this says how reading ended, which is
    /// returned.
    pub(crate) fn end<W: Sink>(
        &mut self,
        read: Result<(), Stop<A>>,
        writer: &mut W,
    ) -> Result<(), Stop<A>>
        ensures ends { EndsReport W.told self.old writer.old read result writer.new }
        ensures same { self.new ≡ record self.old { text = self.new.text } }
    {
        if is_unwritten(&read) {
            return read;
        }
        match self.write(writer) {
            Ok(()) => read,
            Err(unwritten) => Err(Stop::Write(unwritten)),
        }
    }

    // Writes what is not written yet.
    fn write<W: Sink>(&mut self, writer: &mut W) -> Result<(), Error<A>>
        ensures sends { Sends W.told most_writes writer.old writer.new
            (string_bytes self.old.text) result }
        ensures empty { OnOk result (string_bytes self.new.text ≡ []) }
        ensures same { self.new ≡ record self.old { text = self.new.text } }
    {
        if let Err(unwritten) = write_all(writer, self.text.as_bytes(), MOST_WRITES) {
            return Err(unwritten);
        }
        self.text.clear();
        Ok(())
    }
}
