//! Reads the lines of a file, and keeps what is found on each until no later line changes it. Then it is told. After a
//! fault that is a quote, physical lines are read one by one, as guesses.

ghost use Rattle.std.specs.Prelude.{◌≡◌, ◌≢◌, ◌⊎◌, ◌∷◌, ◌<◌, ◌+◌, [], ℕ, Err, None, Ok, false, true, IfErr, IfOk, OnOk, encode_utf8_all, length, map, string_bytes};
ghost use Rattle.std.specs.Str.{chars};
ghost use Rattle.dotenvy_base.specs.Errors.{IsMemory, IsMemoryErr};
ghost use Rattle.dotenvy_format.specs.declared.walk.LineMode.TheVariants.{Outside};
ghost use Rattle.dotenvy_format.specs.Entries.{LineParse};
ghost use Rattle.dotenvy_format.specs.LogicalLine.{HasText};
ghost use Rattle.dotenvy_format.specs.Outcome.{trimmed};
ghost use Rattle.dotenvy_format.specs.inside.Walk.{kept_before};
ghost use Rattle.dotenvy_findings.specs.Readings.{marks_of};
ghost use Rattle.dotenvy_lines.specs.declared.lines.Stage.TheVariants.{Open, Failed};
ghost use Rattle.dotenvy_checker.specs.Findings.{begins_at, cut, declaration_remarks, fault_remarks, found, guessed, is_passed, leaves_open, logical_text, open_behind, said_of, told_remark, with_key};
ghost use Rattle.dotenvy_checker.specs.inside.CheckedLines.{declared_of, failed_as, left_len, logical_of, pieces, setting_at, so_far, ChecksGuess, ChecksGuesses, ChecksOutcome, ChecksPart, ChecksWhole, GuessIs, IsNew, KeepsMore, WhereFew};
ghost use Rattle.dotenvy_checker.specs.inside.ToldLines.{end_of_reading, IsAny, IsSettled, KeepsAny, KeepsNone, KeepsTold, TellsAll, TellsKept, TellsLines};

use crate::declared::{Declared, KnownNames};
use crate::failure::Stop;
use crate::file_report::FileReport;
use crate::report::{is_unknown, resolved};
use crate::watched::{Seen, Watched};
use dotenvy_base::environment::Environment;
use dotenvy_base::errors::{Error, Result};
use dotenvy_base::source::{Sink, Source};
use dotenvy_findings::characters::begins_declaration;
use dotenvy_findings::finding::{Finding, LineFault};
use dotenvy_findings::kind::Kind;
use dotenvy_findings::line::{LineText, characters_of};
use dotenvy_findings::open::is_inside;
use dotenvy_findings::place::Place;
use dotenvy_findings::reading::Mark;
use dotenvy_format::dialect::Dialect;
use dotenvy_format::walk::{LineMode, Walked, walk_text};
use dotenvy_items::meaning::Names;
use dotenvy_items::parse::scan_line;
use dotenvy_lines::lines::Splitter;
use dotenvy_reports::one_line::one_line;
use std::alloc::{AllocError, Allocator};
use std::collections::VecDeque;

/// Something that is found, the name that has no value there, if that is found, what a load says of the line, if that
/// is told, and the number of the line above it, if that may be a comment, or 0.
#[derive(Drop)]
pub(crate) struct Pending<A: Allocator> {
    pub(crate) finding: Finding,
    pub(crate) name: String<A>,
    pub(crate) said: String<A>,
    pub(crate) above: u64,
}

// A line that is checked: its number, and whether it is read as a guess.
#[derive(Clone, Copy)]
struct Numbered {
    number: u64,
    is_guess: bool,
}

// What is checked of a line: its text, or its text in which a quote stays open.
#[derive(Clone, Copy)]
enum Part<'t> {
    Text(&'t str),
    Open(&'t str),
}

impl Numbered {
    // Something that is found on the line, with the number of another line, or 0.
    fn finding(self, kind: Kind, place: Place, other: u64) -> Finding
        ensures { result ≡ record {
          kind = kind;
          place = place;
          other = other;
          is_guess = self.is_guess;
        } }
    {
        Finding {
            kind,
            place,
            other,
            is_guess: self.is_guess,
        }
    }

    // Its text, as these characters.
    fn text(self, dialect: Dialect, text: &[char]) -> LineText<'_>
        ensures dialect { result.dialect ≡ dialect }
        ensures text { result.text.now ≡ text.now }
        ensures start { result.start ≡ begins_at self.number }
    {
        LineText {
            dialect,
            text,
            start: begins_at(self.number),
        }
    }
}

impl<'t> Part<'t> {
    // The text.
    fn text(self) -> &'t str
        ensures { chars result.now ≡ logical_text (logical_of self.entry) }
    {
        match self {
            Part::Text(text) | Part::Open(text) => text,
        }
    }

    // Whether a quote stays open in it.
    fn is_open(self) -> bool
        ensures { result ≡ leaves_open (logical_of self.entry) }
    {
        matches!(self, Part::Open(_))
    }
}

/// The names that have a value, and what was found so far and is not told yet.
#[derive(Drop)]
pub(crate) struct Checker<'a, A: Allocator> {
    // The names of the environment, and no others: what they stand for isn't asked.
    names: Names<'a, A>,
    // The names that the file declared so far.
    pub(crate) declared: Declared<A>,
    dialect: Dialect,
    // Whether what a load says of a line is told.
    tells_text: bool,
    // The number of the last line, if it may be a comment, or 0.
    above: u64,
    pub(crate) alloc: A,
    pub(crate) pending: VecDeque<Pending<A>, A>,
}

// The place at which a line with this number begins.
fn begins_at(number: u64) -> Place
    ensures { result ≡ begins_at number }
{
    Place {
        line: number,
        column: 1,
    }
}

// The characters of a text without white space at its end.
fn trimmed_characters<A: Allocator>(
    alloc: A,
    text: &str,
) -> std::result::Result<Vec<char, A>, AllocError>
    ensures { IfOk result (λ characters. characters.items ≡ trimmed (chars text.now)) }
{
    characters_of(alloc, text.trim_end())
}

// The first physical line of a text, without its line feed, and the text behind it, if there is a line feed.
fn split_line(text: &str) -> (&str, Option<&str>)
    ensures pieces { cut text.now ≡ result.0.now ∷ pieces result.1 }
    ensures falls { left_len result.1 < length text.now + 1 }
{
    match text.split_once('\n') {
        Some((first, after)) => (first, Some(after)),
        None => (text, None),
    }
}

// The text before the character that ends a line, as far as it is kept.
fn kept_before(text: &str, end: char) -> &str
    ensures { chars result.now ≡ kept_before end (chars text.now) }
{
    if end != '\n' {
        return text;
    }
    match text.strip_suffix('\r') {
        Some(kept) => kept,
        None => text,
    }
}

// A physical line, read alone: a text up to its comment, or a text in which a quote stays open; a comment is none.
fn guess_of(text: &str) -> Option<Part<'_>>
    ensures { GuessIs (guessed (chars text.now)) result }
{
    if text.trim_start().starts_with('#') {
        return None;
    }
    match walk_text(text, LineMode::Outside) {
        Walked::Going(mode) => {
            if is_inside(mode) {
                Some(Part::Open(text))
            } else {
                Some(Part::Text(text))
            }
        }
        Walked::EndedAt(at, end) => Some(Part::Text(kept_before(&text[..at], end))),
    }
}

// The fault that ended reading; or that an allocation failed.
fn end_of_reading<A: Allocator>(fault: Error<A>) -> std::result::Result<Option<Error<A>>, Stop<A>>
    ensures { result ≡ end_of_reading fault }
{
    match fault {
        Error::Memory(refused) => Err(Stop::Memory(refused)),
        fault => Ok(Some(fault)),
    }
}

impl<'a, A: Allocator + Clone> Checker<'a, A> {
    /// A checker of a file of which nothing was read.
    pub(crate) fn new(
        alloc: A,
        names: Names<'a, A>,
        dialect: Dialect,
        tells_text: bool,
    ) -> std::result::Result<Checker<'a, A>, AllocError>
        ensures { IfOk result (IsNew names.entry.env.now dialect tells_text) }
    {
        Ok(Checker {
            names,
            declared: Declared::new(alloc.clone()?),
            dialect,
            tells_text,
            above: 0,
            pending: VecDeque::new(alloc.clone()?),
            alloc,
        })
    }

    /// Reads all lines, tells what is found in them, and writes parts of what is told. The error is the fault that
    /// ended reading, before which all that was found is told; or it says that a part could not be written, or that
    /// an allocation failed.
    pub(crate) fn check_all<R: Source, W: Sink>(
        &mut self,
        lines: &mut Splitter<Watched<R, A>, A>,
        report: &mut FileReport<'_, A>,
        writer: &mut W,
    ) -> std::result::Result<(), Stop<A>>
        ensures told { WhereFew lines.old.lines
            (λ a. TellsAll W.told lines.old.lines a self.old report.old writer.old result self.new
            report.new writer.new) }
        ensures shut { lines.old.lines.stage ≢ Open → (so_far self.old).remarks ≡ [] →
            OnOk result (KeepsTold report.old report.new
            × (declared_of self.new.declared ≡ declared_of self.old.declared)) }
    {
        let ended = self.check_lines(lines, report, writer)?;
        self.tell_rest(lines.reader().seen()?, report, writer)?;
        match ended {
            None => Ok(()),
            Some(fault) => Err(Stop::Read(fault)),
        }
    }

    // Reads all lines, and tells what is found in them as soon as no later line can change it. Returns the fault that
    // ended reading, if one did.
    fn check_lines<R: Source, W: Sink>(
        &mut self,
        lines: &mut Splitter<Watched<R, A>, A>,
        report: &mut FileReport<'_, A>,
        writer: &mut W,
    ) -> std::result::Result<Option<Error<A>>, Stop<A>>
        ensures told { WhereFew lines.old.lines
            (λ a. TellsLines W.told lines.old.lines a self.old report.old writer.old result self.new
            report.new writer.new) }
        ensures shut { lines.old.lines.stage ≢ Open →
            (result ≡ Ok None) × (self.new ≡ self.old) × (report.new ≡ report.old) }
    {
        if let Err(fault) = lines.drop_mark() {
            return end_of_reading(fault);
        }
        'lines: while let Some(outcome) = lines.advance() {
            if let Err(fault) = self.check_outcome(lines, outcome) {
                return end_of_reading(fault);
            }
            self.tell_settled(lines.reader().seen()?, report, writer)?;
        }
        Ok(None)
    }

    // Tells what was found, up to the first finding that a later line may change.
    fn tell_settled<W: Sink>(
        &mut self,
        seen: &Seen<A>,
        report: &mut FileReport<'_, A>,
        writer: &mut W,
    ) -> std::result::Result<(), Stop<A>>
        ensures { TellsKept (IsSettled (declared_of self.old.declared)) KeepsAny W.told self.old
            report.old writer.old result self.new report.new writer.new }
    {
        'findings: while let Some(first) = self.pending.front() {
            let finding = resolved(&self.declared, first);
            if is_unknown(finding.kind) {
                return Ok(());
            }
            report.tell(first, finding, seen)?;
            self.pending.pop_front();
            report.write_part(writer)?;
        }
        Ok(())
    }

    // Tells what was found and is not told yet.
    fn tell_rest<W: Sink>(
        &mut self,
        seen: &Seen<A>,
        report: &mut FileReport<'_, A>,
        writer: &mut W,
    ) -> std::result::Result<(), Stop<A>>
        ensures told { TellsKept IsAny KeepsNone W.told self.old report.old writer.old result
            self.new report.new writer.new }
        ensures none { (so_far self.old).remarks ≡ [] → OnOk result (report.new ≡ report.old) }
    {
        'findings: while let Some(first) = self.pending.pop_front() {
            let finding = resolved(&self.declared, &first);
            report.tell(&first, finding, seen)?;
            report.write_part(writer)?;
        }
        Ok(())
    }

    // Keeps what is found in the last line that was taken, or gives its fault back if that is final.
    fn check_outcome<R: Source>(
        &mut self,
        lines: &Splitter<R, A>,
        outcome: Result<(), A>,
    ) -> Result<(), A>
        requires { IsMemoryErr outcome → lines.now.lines.stage ≡ Failed }
        ensures checks { OnOk result (ChecksOutcome lines.now outcome self.old self.new) }
        ensures error { IfErr result
            (λ e. IsMemory e ⊎ ((outcome ≡ Err e) × (lines.now.lines.stage ≡ Failed)
            × (self.new ≡ self.old))) }
    {
        let (number, last) = lines.last_lines();
        match outcome {
            Ok(()) => self.check_whole(number, Part::Text(lines.line()))?,
            Err(error) => {
                if lines.has_failed() {
                    return Err(error);
                }
                self.check_fault(number, last, &error)?;
            }
        }
        Ok(())
    }

    // Keeps the fault of a line that is no text, or that stays open.
    fn check_fault(
        &mut self,
        number: u64,
        last: u64,
        error: &Error<A>,
    ) -> std::result::Result<(), AllocError>
        ensures { OnOk result (ChecksWhole number last (failed_as error.now) self.old self.new) }
    {
        match error {
            Error::LineParse(text, _) => self.check_whole(number, Part::Open(text.as_str())),
            _ => {
                let line = Numbered {
                    number,
                    is_guess: false,
                };
                self.keep(line, (Kind::NotUtf8, begins_at(last)), 0)?;
                self.above = 0;
                Ok(())
            }
        }
    }

    // Keeps what is found in a line, and in the guesses behind it.
    fn check_whole(&mut self, number: u64, part: Part<'_>) -> std::result::Result<(), AllocError>
        ensures { (last : ℕ) → OnOk result
            (ChecksWhole number last (logical_of part.entry) self.old self.new) }
    {
        let line = Numbered {
            number,
            is_guess: false,
        };
        if let Some(from) = self.check_part(line, part)? {
            self.check_guesses(number, from, part.text())?;
        }
        Ok(())
    }

    // Keeps what is found in a line, and returns the physical line from which on the rest of it is to be guessed.
    fn check_part(
        &mut self,
        line: Numbered,
        part: Part<'_>,
    ) -> std::result::Result<Option<u64>, AllocError>
        ensures { (last : ℕ) → IfOk result
            (λ from. ChecksPart line last (logical_of part.entry) from self.old self.new) }
    {
        match part {
            Part::Text(text) => self.check_text(line, text),
            Part::Open(_) => {
                let open = part.text();
                let characters = characters_of(self.alloc.clone()?, open)?;
                let fault = line.text(self.dialect, characters.as_slice()).open_fault();
                let said = self.said(open, open.len())?;
                self.keep_fault(line, fault, said)
            }
        }
    }

    // Keeps what is found in the text of a line, and returns the physical line from which on it is to be guessed.
    fn check_text(
        &mut self,
        line: Numbered,
        text: &str,
    ) -> std::result::Result<Option<u64>, AllocError>
        ensures { (last : ℕ) → IfOk result
            (λ from. ChecksPart line last (HasText (chars text.now)) from self.old self.new) }
    {
        match scan_line(text, &self.names, self.dialect) {
            Ok(None) => {
                self.above = line.number;
                Ok(None)
            }
            Ok(Some(declaration)) => {
                self.check_declaration(line, text, declaration.key)?;
                Ok(None)
            }
            Err(wrong) => {
                let characters = trimmed_characters(self.alloc.clone()?, text)?;
                let fault = line.text(self.dialect, characters.as_slice()).fault();
                let said = self.said(wrong.text, wrong.index)?;
                self.keep_fault(line, fault, said)
            }
        }
    }

    // Keeps what is found in a declaration of this key, and keeps the key.
    fn check_declaration(
        &mut self,
        line: Numbered,
        text: &str,
        key: &str,
    ) -> std::result::Result<(), AllocError>
        ensures { OnOk result (KeepsMore
            (declaration_remarks (setting_at self.old line.is_guess) (declared_of self.old.declared)
            line.number (trimmed (chars text.now)) (encode_utf8_all (chars key.now)))
            (with_key (encode_utf8_all (chars key.now)) line.number
            (declared_of self.old.declared)) 0 self.old self.new) }
    {
        let characters = trimmed_characters(self.alloc.clone()?, text)?;
        let trimmed = line.text(self.dialect, characters.as_slice());
        if let Some(first) = self.declared.first_line(key) {
            self.keep(line, (Kind::DeclaredTwice, trimmed.first_place()), first)?;
        }
        let names = KnownNames {
            env: self.names.env,
            declared: &self.declared,
        };
        let marks = trimmed.marks(self.alloc.clone()?, &names, key)?;
        self.keep_marks(line, marks)?;
        self.declared
            .declare(self.alloc.clone()?, key, line.number)?;
        self.above = 0;
        Ok(())
    }

    // Keeps what is told of a declaration.
    fn keep_marks(
        &mut self,
        line: Numbered,
        marks: Vec<Mark<A>, A>,
    ) -> std::result::Result<(), AllocError>
        ensures { OnOk result (KeepsMore
            (map (told_remark (setting_at self.old line.is_guess)) (marks_of marks.items))
            (declared_of self.old.declared) self.old.above self.old self.new) }
    {
        'marks: for mark in marks {
            let Mark { kind, place, name } = mark;
            self.pending.push_back(Pending {
                finding: line.finding(kind, place, 0),
                name,
                said: String::new(self.alloc.clone()?),
                above: self.above,
            })?;
        }
        Ok(())
    }

    // What a load says of a line with this fault, on one line, if that is told.
    fn said(&self, text: &str, index: usize) -> std::result::Result<String<A>, AllocError>
        ensures { IfOk result (λ said. string_bytes said
            ≡ said_of self.now.tells_text (LineParse (chars text.now) index)) }
    {
        if !self.tells_text {
            return Ok(String::new(self.alloc.clone()?));
        }
        let error = Error::LineParse(String::from_str(self.alloc.clone()?, text)?, index);
        let printed = error.to_string(self.alloc.clone()?)?;
        one_line(self.alloc.clone()?, printed.as_str())
    }

    // Keeps the fault of a line, of which a load says this, and returns the physical line from which on the rest of it
    // is to be guessed.
    fn keep_fault(
        &mut self,
        line: Numbered,
        fault: LineFault,
        said: String<A>,
    ) -> std::result::Result<Option<u64>, AllocError>
        ensures { IfOk result (λ from. (from ≡ fault.behind) × KeepsMore
            (fault_remarks (setting_at self.old line.is_guess) fault (string_bytes said))
            (declared_of self.old.declared) 0 self.old self.new) }
    {
        self.pending.push_back(Pending {
            finding: line.finding(fault.kind, fault.place, 0),
            name: String::new(self.alloc.clone()?),
            said,
            above: self.above,
        })?;
        self.above = 0;
        Ok(fault.behind)
    }

    // Keeps something that is found on a line, with the number of another line, or 0.
    fn keep(
        &mut self,
        line: Numbered,
        told: (Kind, Place),
        other: u64,
    ) -> std::result::Result<(), AllocError>
        ensures { OnOk result (KeepsMore
            (found (setting_at self.old line.is_guess) told.0 told.1 other ∷ [])
            (declared_of self.old.declared) self.old.above self.old self.new) }
    {
        self.pending.push_back(Pending {
            finding: line.finding(told.0, told.1, other),
            name: String::new(self.alloc.clone()?),
            said: String::new(self.alloc.clone()?),
            above: self.above,
        })?;
        Ok(())
    }

    // Keeps what is found in the physical lines of a text, from one of them on, each read as a guess.
    fn check_guesses(
        &mut self,
        number: u64,
        from: u64,
        text: &str,
    ) -> std::result::Result<(), AllocError>
        ensures { OnOk result (ChecksGuesses from false number (cut text.now) self.old self.new) }
    {
        let mut line = Numbered {
            number,
            is_guess: true,
        };
        let mut is_open = false;
        let mut left = Some(text);
        'lines: while let Some(rest) = left {
            let (first, after) = split_line(rest);
            is_open = self.check_guess(line, from, is_open, first)?;
            line.number = line.number.saturating_add(1);
            left = after;
        }
        Ok(())
    }

    // Keeps what is found in a physical line that is read as a guess, unless it is passed by. Returns whether it leaves
    // a quote open.
    fn check_guess(
        &mut self,
        line: Numbered,
        from: u64,
        is_open: bool,
        text: &str,
    ) -> std::result::Result<bool, AllocError>
        requires { line.is_guess ≡ true }
        ensures open { IfOk result
            (λ stays. stays ≡ open_behind from is_open line.number (chars text.now)) }
        ensures checks { OnOk result (ChecksGuess (is_passed from is_open line.number (chars text.now))
            line.number (chars text.now) self.old self.new) }
    {
        if self.is_passed(from, is_open, line.number, text)? {
            return Ok(is_open);
        }
        match guess_of(text) {
            Some(part) => {
                self.check_part(line, part)?;
                Ok(part.is_open())
            }
            None => {
                self.above = line.number;
                Ok(false)
            }
        }
    }

    // Whether a physical line is passed by: it stands before the first that is guessed, or a guess left a quote open,
    // and it begins no declaration.
    fn is_passed(
        &self,
        from: u64,
        is_open: bool,
        number: u64,
        text: &str,
    ) -> std::result::Result<bool, AllocError>
        ensures { IfOk result
            (λ passed. passed ≡ is_passed from is_open number (chars text.now)) }
    {
        if number < from {
            return Ok(true);
        }
        if !is_open {
            return Ok(false);
        }
        let characters = characters_of(self.alloc.clone()?, text)?;
        Ok(!begins_declaration(characters.as_slice()))
    }
}
