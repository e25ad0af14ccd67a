//! Checks one file, over any reader and writer.

ghost use Rattle.std.specs.Prelude.{◌≡◌, [], IfOk};
ghost use Rattle.dotenvy_base.specs.Source.{Ahead};
ghost use Rattle.dotenvy_items.specs.Iter.{IsOpen, TellsLeft};
ghost use Rattle.dotenvy_checker.specs.Checks.{names_in, FewLines, Reports, Tells};
ghost use Rattle.dotenvy_checker.specs.Findings.{nothing_yet};

pub use crate::declared::Declared;
use crate::failure::Stop;
use crate::file_report::FileReport;
use crate::lines::Checker;
pub use crate::report::{Found, Reporting};
pub use crate::watched::Watched;
use dotenvy::{Environment, Iter, Sink, Source};
use dotenvy_items::iter::into_lines;
use dotenvy_items::meaning::Names;
use std::alloc::Allocator;
use std::collections::HashMap;

/// What a check of a file tells.
///
/// ```
/// // of a file with the line `A=1`, and of `A`: the line 1
/// let line = checked.declared.first_line("A"); // Some(1)
/// ```
#[derive(Drop)]
pub struct Checked<A: Allocator> {
    /// What is reported.
    pub found: Found,
    /// The names that the file declares.
    pub declared: Declared<A>,
}

/// Checks what is left of a file, and writes a line for each finding: `NAME:LINE:COL: error: MESSAGE [KIND]` or
/// `NAME:LINE:COL: warning: MESSAGE [KIND]`.
///
/// LINE is a physical line and COL a character of it, both counted from 1: where the hand has to go. A name has a value
/// if this environment has it, or the file declares it before. Nothing is set, and no byte of a value or of a faulty
/// text is written. What follows a quote that stays open is told as if the quote had not been opened, as a warning that
/// counts for nothing. Another format than text has its own form. A warning that is allowed isn't written: by `how`, or
/// by a comment `# dotenvy_check: allow KIND` on the line above.
///
/// With `how.text` a line follows in the format text, behind the fault of a line that is text: four blanks, and what a
/// load says of the line, which holds its text or its value.
///
/// Over a reader whose bytes are specified: after `Ok` the end was reached, and the report of all findings that are not
/// allowed was written, and nothing else: in parts of which each is written in at most 2^32 writes, and each but the
/// last has at least 65,536 bytes. After `Stop::Read` it is the report of the findings that the bytes before the fault
/// decide. After `Stop::Memory` it is that of the first findings, which no later line changes; after `Stop::Write` only
/// a first piece of the last part of it was written. An error is never allowed. A comment that allows kinds is a line
/// without a declaration and without a fault.
///
/// ```
/// let file = Iter::new(alloc, Watched::new(alloc, Bytes::new(b"A=1\nB=two words\nC=$X\n"))?)?;
/// let checked = check(file, "a.env", &environment, &mut Reporting::TEXT, &mut writer)?;
/// // a.env:2:6: error: a value with a space needs quotes; put it in double quotes [space-in-value]
/// // a.env:3:3: warning: the name after this dollar has no value; .. [unknown-name]
/// ```
pub fn check<R: Source + Drop, W: Sink, A: Allocator + Clone>(
    file: Iter<Watched<R, A>, A>,
    name: &str,
    env: &Environment<A>,
    how: &mut Reporting<'_>,
    writer: &mut W,
) -> Result<Checked<A>, Stop<A>>
    ensures reports { IsOpen file → (a : Ahead) → TellsLeft file a → FewLines file.lines a →
        Reports W.told how.old name.now (names_in env.now.names) file a writer.old result writer.new }
    ensures how { how.new ≡ record how.old { is_first = how.new.is_first } }
    ensures shut { ¬ (IsOpen file) → IfOk result (Tells how.old [] nothing_yet) }
{
    let (mut lines, dialect) = into_lines(file);
    let alloc = lines.allocator().clone()?;
    let remembered = HashMap::new(alloc.clone()?);
    let names = Names {
        env,
        remembered: &remembered,
    };
    let mut report = FileReport::new(alloc.clone()?, name, *how)?;
    let mut checker = Checker::new(alloc, names, dialect, how.text)?;
    let read = checker.check_all(&mut lines, &mut report, writer);
    how.is_first = report.how.is_first;
    report.end(read, writer)?;
    Ok(Checked {
        found: report.found,
        declared: checker.declared,
    })
}
