//! A file that is edited, line by line.

ghost use Rattle.std.specs.Prelude.{◌≡◌, ◌++◌, [], if◌then◌else◌, IfErr, IfOk, IsTrue, None, OnOk, chars, false, not, string_bytes, true};
ghost use Rattle.std.specs.Str.{IsUtf8};
ghost use Rattle.dotenvy.specs.Keys.{is_key};
ghost use Rattle.dotenvy.specs.LogicalLine.{HasText};
ghost use Rattle.dotenvy.specs.Marks.{without_mark};
ghost use Rattle.dotenvy_editor.specs.Edits.{RenamesLine, mark_of};
ghost use Rattle.dotenvy_editor.specs.Ends.{ends_in, last_end};
ghost use Rattle.dotenvy_editor.specs.Forms.{is_long, is_nil};
ghost use Rattle.dotenvy_editor.specs.Lines.{WritesLine, WritesNone};
ghost use Rattle.dotenvy_editor.specs.Portable.{value_refusal};
ghost use Rattle.dotenvy_editor.specs.Refusals.{IsRefused};
ghost use Rattle.dotenvy_editor.specs.Slices.{HasLine};
ghost use Rattle.dotenvy_editor.specs.Told.{IsSaid};
ghost use Rattle.dotenvy_editor.specs.inside.Changed.{Appends, AppendsLine, Changes, ChangesAll, RefusesAppend, RefusesChange, RefusesLine, RefusesNone, gap_after, kept};
ghost use Rattle.dotenvy_editor.specs.inside.Changing.{gives, key_of};
ghost use Rattle.dotenvy_editor.specs.inside.Noted.{FindsAssignment, IsAssignment, IsRead, IsSlice, NotesLine, first_noted, no_notes, slice_of, text_slice};
ghost use Rattle.dotenvy_editor.specs.inside.Telling.{IsUntold, TellsChange, TellsMore, TellsRead, ToldAll, stop_unless};
ghost use Rattle.dotenvy_editor.specs.inside.Tried.{IsUnwritten, texts_of};

use crate::change::Change;
use crate::lines::{Kind, Lines, Slice};
use crate::notes::{Last, Notes, fault_last, open_reason};
use crate::refusal::{Reason, Unedited, refused};
use crate::spot::{Spot, key_end};
use crate::telling::Telling;
use crate::values::{Said, Value, is_same, said_by, value_of};
use crate::warning::Edited;
use crate::writing::Setting;
use dotenvy_format::statement::Statement;
use memchr::memrchr;
use std::alloc::{AllocError, Allocator};
use std::str::from_utf8;

// The byte order mark.
const MARK: [u8; 3] = [0xEF, 0xBB, 0xBF];

/// An assignment: a statement of the key, and where its value is.
#[derive(Clone, Copy)]
struct Assignment<'b, 't> {
    slice: Slice<'b>,
    text: &'t str,
    statement: Statement<'t>,
    spot: Spot<'b>,
    // What is assigned; `None` if it is a fault.
    value: Option<Value>,
}

/// The new bytes so far, and what is known of the lines that were read.
#[derive(Drop)]
pub(crate) struct Editing<'k, A: Allocator> {
    alloc: A,
    change: Change<'k>,
    out: Vec<u8, A>,
    // Whether a line that assigns the key was read.
    is_found: bool,
    pub(crate) notes: Notes,
    pub(crate) telling: Telling<A>,
}

/// The mark at the start of a file, if it has one, and the bytes after it.
pub(crate) fn split_mark(bytes: &[u8]) -> (&[u8], &[u8])
    ensures mark { result.0.now ≡ mark_of bytes.now }
    ensures body { result.1.now ≡ without_mark bytes.now }
{
    let len = if bytes.starts_with(&MARK) {
        MARK.len()
    } else {
        0
    };
    bytes.split_at(len)
}

// Whether this is the last byte.
fn ends_in(bytes: &[u8], byte: u8) -> bool
    ensures { result ≡ ends_in byte bytes.now }
{
    bytes.ends_with(&[byte])
}

// The end of the last line that has one: with a carriage return, or without; a line feed where there is none.
fn last_end(bytes: &[u8]) -> &'static str
    ensures { result.now ≡ last_end bytes.now }
{
    match memrchr(b'\n', bytes) {
        Some(place) if ends_in(&bytes[..place], b'\r') => "\r\n",
        _ => "\n",
    }
}

// What ends the last line of these bytes before something is appended, where their lines end so.
fn gap(body: &[u8], last: Last, end: &'static str) -> &'static str
    requires { end.now ≡ last_end body.now }
    ensures { result.now ≡ gap_after body.now last }
{
    if body.is_empty() || ends_in(body, b'\n') {
        return "";
    }
    if !ends_in(body, b'\r') {
        return end;
    }
    match last {
        Last::Fault => "\r\n",
        Last::Closed | Last::Open(_, _) => "\n",
    }
}

// Whether the comment of an assignment that goes is on one line, or else the refusal.
fn check_comment(assignment: Assignment<'_, '_>) -> Result<(), Unedited>
    ensures short { OnOk result (IsTrue (not (is_long (chars assignment.entry.spot.rest.now)))) }
    ensures refused { IfErr result (IsRefused (λ reason line. (reason ≡ Reason.LongComment)
        × IsTrue (is_long (chars assignment.entry.spot.rest.now))
        × (line ≡ assignment.entry.slice.first))) }
{
    if assignment.spot.has_long_comment() {
        return Err(refused(Reason::LongComment, assignment.slice.first));
    }
    Ok(())
}

impl<'k, A: Allocator + Clone> Editing<'k, A> {
    /// Only the mark at the start of the file is there yet. There is room for so many bytes.
    pub(crate) fn new(
        alloc: A,
        change: Change<'k>,
        mark: &[u8],
        room: usize,
    ) -> Result<Editing<'k, A>, AllocError>
        ensures change { IfOk result (λ editing. editing.change ≡ change.entry) }
        ensures out { IfOk result (λ editing. editing.out.items ≡ mark.now) }
        ensures none { IfOk result (λ editing. editing.is_found ≡ false) }
        ensures notes { IfOk result (λ editing. editing.notes ≡ no_notes) }
        ensures untold { IfOk result (λ editing. IsUntold (key_of change.entry) editing.telling) }
        ensures nothing { IfOk result (λ editing. editing.telling.warnings.items ≡ []) }
    {
        let mut out = Vec::with_capacity(alloc.clone()?, room)?;
        out.extend_from_slice(mark)?;
        Ok(Editing {
            change,
            out,
            is_found: false,
            notes: Notes::new(),
            telling: Telling::new(alloc.clone()?, change.key())?,
            alloc,
        })
    }

    /// Edits all lines of these bytes, which have no mark at their start any more.
    pub(crate) fn edit_lines(&mut self, body: &[u8]) -> Result<(), Unedited>
        requires none { self.old.is_found ≡ false }
        requires notes { self.old.notes ≡ no_notes }
        ensures all { OnOk result (ChangesAll body.now self.old self.new) }
        ensures refused { IfErr result (IsRefused (RefusesLine self.old.change body.now)) }
        ensures told { IsUntold (key_of self.old.change) self.old.telling → OnOk result
            (ToldAll self.old.change body.now self.new.is_found self.old.telling self.new.telling) }
    {
        let mut lines = Lines::new(self.alloc.clone()?, body)?;
        'lines: while let Some(slice) = lines.advance()? {
            match self.read(slice, lines.text())? {
                Some(assignment) => self.change_line(assignment)?,
                None => self.keep(slice)?,
            }
        }
        Ok(())
    }

    // Reads a line: notes what it is, and gives the assignment that it is, if it is one.
    fn read<'b, 't>(
        &mut self,
        slice: Slice<'b>,
        text: &'t str,
    ) -> Result<Option<Assignment<'b, 't>>, AllocError>
        requires { IsRead slice (chars text.now) }
        ensures same { self.new
            ≡ record self.old { notes = self.new.notes; telling = self.new.telling } }
        ensures notes { IfOk result (λ found. (line : _) → IsSlice slice.entry (chars text.now) line →
            NotesLine self.old.change line slice.entry.first self.old.notes self.new.notes) }
        ensures finds { IfOk result (λ found. (line : _) → IsSlice slice.entry (chars text.now) line →
            FindsAssignment self.old.change slice.entry line found) }
        ensures told { IfOk result (λ found. (line : _) → IsSlice slice.entry (chars text.now) line →
            TellsRead self.old.change line.logical slice.entry found self.old.telling
            self.new.telling) }
    {
        self.notes.last = match slice.kind {
            Kind::Text => return self.read_text(slice, text),
            Kind::Open => Last::Open(open_reason(text), slice.first),
            Kind::Broken => Last::Closed,
        };
        self.telling.stops_at(slice.first);
        self.notes.note_unread(slice, self.change.key());
        Ok(None)
    }

    // Notes what a text says.
    fn read_text<'b, 't>(
        &mut self,
        slice: Slice<'b>,
        text: &'t str,
    ) -> Result<Option<Assignment<'b, 't>>, AllocError>
        requires read { IsRead slice (chars text.now) }
        requires kind { slice.kind ≡ Kind.Text }
        ensures same { self.new
            ≡ record self.old { notes = self.new.notes; telling = self.new.telling } }
        ensures notes { IfOk result (λ found. (line : _) → IsSlice slice.entry (chars text.now) line →
            NotesLine self.old.change line slice.entry.first self.old.notes self.new.notes) }
        ensures finds { IfOk result (λ found. (line : _) → IsSlice slice.entry (chars text.now) line →
            FindsAssignment self.old.change slice.entry line found) }
        ensures told { IfOk result (λ found. (line : _) → IsSlice slice.entry (chars text.now) line →
            TellsRead self.old.change line.logical slice.entry found self.old.telling
            self.new.telling) }
    {
        self.notes.last = Last::Closed;
        match said_by(text) {
            Said::Nothing => Ok(None),
            Said::Fault => {
                self.notes.last = fault_last(text);
                self.telling.stops_at(slice.first);
                Ok(None)
            }
            Said::Statement(statement) => self.read_statement(slice, text, statement),
        }
    }

    // Notes what a statement assigns.
    fn read_statement<'b, 't>(
        &mut self,
        slice: Slice<'b>,
        text: &'t str,
        statement: Statement<'t>,
    ) -> Result<Option<Assignment<'b, 't>>, AllocError>
        requires line { HasLine slice.bytes.now (chars text.now) }
        requires said { IsSaid (chars text.now) (Said.Statement statement) }
        ensures same { self.new
            ≡ record self.old { notes = self.new.notes; telling = self.new.telling } }
        ensures notes { IfOk result (λ found. self.new.notes ≡ record self.old.notes {
          present = if gives self.old.change (chars statement.entry.key.now)
              then first_noted self.old.notes.present slice.entry.first
              else self.old.notes.present;
        }) }
        ensures finds { IfOk result (λ found. FindsAssignment self.old.change slice.entry
            (text_slice slice.entry (chars text.now)) found) }
        ensures told { IfOk result (λ found. TellsRead self.old.change (HasText (chars text.now))
            slice.entry found self.old.telling self.new.telling) }
    {
        if self.change.gives(statement.key) {
            self.notes.note_present(slice.first);
        }
        let value = value_of(
            statement.rest,
            self.telling.changed(),
            self.change.dialect(),
        );
        if !is_same(statement.key, self.change.key()) {
            self.telling.note_other(statement.key, slice.first, value)?;
            return Ok(None);
        }
        match from_utf8(slice.bytes) {
            Ok(line) => Ok(Some(Assignment {
                slice,
                text,
                statement,
                spot: Spot::new(line, text, statement, value),
                value,
            })),
            Err(_never) => Ok(None),
        }
    }

    // Keeps a line as it is. An empty line comes before it, if the file would else begin with a mark that it had not:
    // only an unset can take the lines before it.
    fn keep(&mut self, slice: Slice<'_>) -> Result<(), AllocError>
        ensures keeps { OnOk result (self.new.out.items ≡ self.old.out.items
            ++ kept self.old.change (is_nil self.old.out.items) slice.entry.bytes.now) }
        ensures same { self.new ≡ record self.old { out = self.new.out } }
    {
        if matches!(self.change, Change::Unset(_, _))
            && self.out.is_empty()
            && slice.bytes.starts_with(&MARK)
        {
            self.out.push(b'\n')?;
        }
        self.out.extend_from_slice(slice.bytes)
    }

    // Changes an assignment.
    fn change_line(&mut self, assignment: Assignment<'_, '_>) -> Result<(), Unedited>
        requires { IsAssignment self.old.change assignment }
        ensures found { OnOk result (self.new.is_found ≡ true) }
        ensures change { self.new.change ≡ self.old.change }
        ensures notes { self.new.notes ≡ self.old.notes }
        ensures changes { OnOk result (Appends (λ bytes. Changes self.old.change self.old.is_found
            (slice_of assignment.entry) (texts_of assignment.entry.spot) bytes)
            self.old.out.items self.new.out.items) }
        ensures refused { IfErr result (IsRefused (λ reason line.
            RefusesChange self.old.change self.old.is_found (texts_of assignment.entry.spot) reason
            × (line ≡ assignment.entry.slice.first))) }
        ensures told { OnOk result (TellsChange self.old.change self.old.is_found assignment.entry.slice
            assignment.entry.value self.old.telling self.new.telling) }
    {
        let is_fault = assignment.value.is_none();
        self.telling
            .tell_changed(self.change, !self.is_found, assignment.slice, is_fault)?;
        self.write_changed(assignment)?;
        self.is_found = true;
        Ok(())
    }

    // Writes what an assignment is changed to.
    fn write_changed(&mut self, assignment: Assignment<'_, '_>) -> Result<(), Unedited>
        requires { IsAssignment self.old.change assignment }
        ensures same { self.new ≡ record self.old { out = self.new.out } }
        ensures changes { OnOk result (Appends (λ bytes. Changes self.old.change self.old.is_found
            (slice_of assignment.entry) (texts_of assignment.entry.spot) bytes)
            self.old.out.items self.new.out.items) }
        ensures refused { IfErr result (IsRefused (λ reason line.
            RefusesChange self.old.change self.old.is_found (texts_of assignment.entry.spot) reason
            × (line ≡ assignment.entry.slice.first))) }
    {
        match self.change {
            Change::Set(setting) => {
                if self.is_found {
                    check_comment(assignment)
                } else {
                    self.set_first(setting, assignment)
                }
            }
            Change::Unset(_, _) => check_comment(assignment),
            Change::Rename(_, new, _) => {
                self.rename_line(new, assignment)?;
                Ok(())
            }
        }
    }

    // Sets the first assignment.
    fn set_first(
        &mut self,
        setting: Setting<'_>,
        assignment: Assignment<'_, '_>,
    ) -> Result<(), Unedited>
        ensures same { self.new ≡ record self.old { out = self.new.out } }
        ensures writes { OnOk result (Appends (λ line. WritesLine setting.entry.how
            (chars setting.entry.key.now) (chars setting.entry.value.now)
            (texts_of assignment.entry.spot) [] line) self.old.out.items self.new.out.items) }
        ensures refused { IfErr result (IsRefused (λ reason line.
            IsUnwritten setting.entry.how (chars setting.entry.value.now)
            (texts_of assignment.entry.spot) reason
            × WritesNone setting.entry.how (chars setting.entry.key.now)
            (chars setting.entry.value.now) (texts_of assignment.entry.spot) []
            × (line ≡ assignment.entry.slice.first))) }
    {
        let Assignment { slice, spot, .. } = assignment;
        let Some(line) = setting.first_written(&self.alloc, spot)? else {
            return Err(refused(setting.unwritten(spot), slice.first));
        };
        self.out.extend_from_slice(line.as_bytes())?;
        Ok(())
    }

    // Gives an assignment another key.
    fn rename_line(&mut self, new: &str, assignment: Assignment<'_, '_>) -> Result<(), AllocError>
        requires { IsAssignment self.old.change assignment }
        ensures same { self.new ≡ record self.old { out = self.new.out } }
        ensures renames { OnOk result (Appends (λ line. RenamesLine (key_of self.old.change)
            (chars new.now) (slice_of assignment.entry) line)
            self.old.out.items self.new.out.items) }
    {
        let Assignment {
            slice,
            text,
            statement,
            ..
        } = assignment;
        let end = key_end(text, statement);
        let (front, _) = slice.bytes.split_at(end - self.change.key().len());
        let (_, later) = slice.bytes.split_at(end);
        self.out.extend_from_slice(front)?;
        self.out.extend_from_slice(new.as_bytes())?;
        self.out.extend_from_slice(later)?;
        Ok(())
    }

    /// Appends the setting to a file with these bytes after its mark, if no line assigns the key.
    pub(crate) fn append(&mut self, setting: &Setting<'_>, body: &[u8]) -> Result<(), Unedited>
        requires key { IsTrue (is_key (chars setting.now.key.now)) }
        requires utf8 { IsUtf8 setting.now.value.now }
        requires value { setting.now.how.is_portable ≡ true →
            value_refusal (chars setting.now.value.now) ≡ None }
        ensures found { self.old.is_found ≡ true →
            OnOk result (self.new.out.items ≡ self.old.out.items) }
        ensures appends { self.old.is_found ≡ false → OnOk result
            (AppendsLine setting.now self.old.notes body.now self.old.out.items self.new.out.items) }
        ensures refused { IfErr result (IsRefused (λ reason line. (self.old.is_found ≡ false)
            × RefusesAppend self.old.notes reason line)) }
        ensures told { OnOk result (TellsMore [] (stop_unless self.old.is_found self.old.telling.stop) []
            [] self.old.telling.warnings.items self.new.telling.warnings.items) }
    {
        if self.is_found {
            return Ok(());
        }
        if let Some(line) = self.notes.unreadable {
            return Err(refused(Reason::Unreadable, line));
        }
        if let Last::Open(reason, line) = self.notes.last {
            return Err(refused(reason, line));
        }
        self.telling.tell_stop()?;
        let end = last_end(body);
        let line = setting.new_line(&self.alloc, end)?;
        let gap = gap(body, self.notes.last, end);
        self.out.extend_from_slice(gap.as_bytes())?;
        self.out.extend_from_slice(line.as_bytes())?;
        Ok(())
    }

    /// Why the key is not there, if it isn't.
    pub(crate) fn check_found(&self) -> Result<(), Unedited>
        ensures found { OnOk result (self.now.is_found ≡ true) }
        ensures refused { IfErr result (IsRefused (λ reason line. (self.now.is_found ≡ false)
            × RefusesNone self.now.notes reason line)) }
    {
        match self.notes.unreadable {
            _ if self.is_found => Ok(()),
            Some(line) => Err(refused(Reason::Unreadable, line)),
            None => Err(refused(Reason::Absent, 0)),
        }
    }

    /// The edited file.
    pub(crate) fn finish(self) -> Edited<A>
        ensures bytes { result.bytes ≡ self.entry.out }
        ensures warnings { result.warnings ≡ self.entry.telling.warnings }
    {
        let Editing {
            alloc: _,
            change: _,
            out,
            is_found: _,
            notes: _,
            telling,
        } = self;
        Edited {
            bytes: out,
            warnings: telling.finish(),
        }
    }
}
