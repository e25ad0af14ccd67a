//! What the program does once it has its words, over any reader, writer and runtime.

ghost use Rattle.std.specs.Prelude.{◌≡◌, ◌<◌, ◌||◌, ◌&&◌, true, IfErr, IfOk, IsErrAnd, Ok, OnErr, OnOk};
ghost use Rattle.clap.specs.declared.error.kind.ErrorKind.TheVariants.{DisplayHelp, DisplayVersion};
ghost use Rattle.dotenvy_base.specs.Errors.{IsFileFault};
ghost use Rattle.dotenvy_base.specs.Source.{nothing_told};
ghost use Rattle.dotenvy_items.specs.Iter.{fresh};
ghost use Rattle.dotenvy_words.specs.Asked.{AskForOnly};
ghost use Rattle.dotenvy_words.specs.Found.{texts};
ghost use Rattle.dotenvy_checker.specs.Answers.{AreMistaken, AskQuiet, CountsStop, IsFailureOf};
ghost use Rattle.dotenvy_checker.specs.Answers.{status_of, IsMemoryEnd, IsUsage, Prints};
ghost use Rattle.dotenvy_checker.specs.Checks.{both};
ghost use Rattle.dotenvy_checker.specs.Help.{help_text, version_text};
ghost use Rattle.dotenvy_checker.specs.Schema.{found_between, names_of};
ghost use Rattle.dotenvy_checker.specs.Words.{checker, AreTaken};
ghost use Rattle.dotenvy_checker.specs.inside.CheckedFiles.{KeepsNames};
ghost use Rattle.dotenvy_checker.specs.inside.CheckedLines.{declared_of};

use crate::check::{Checked, Declared, Found, Reporting, Watched, check};
use crate::declared::{set_name, set_names};
use crate::failure::{Failure, Stop};
use crate::folder::{files_of, is_folder};
use crate::help::{VERSION, help, version};
use crate::report::unread_line;
use crate::schema::{Comparison, DeclaredNames, push_comparison};
use crate::words::{Request, Words, read_words};
use dotenvy::{
    Dialect, Environment, Error, Iter, Plain, Sink, Source, find_filename, from_path_iter,
};
use dotenvy_base::output::{MOST_WRITES, write_all};
use dotenvy_items::iter::into_reader;
use dotenvy_reports::format::Format;
use dotenvy_reports::sarif::{push_sarif_end, push_sarif_start};
use std::alloc::{Alloc, AllocError, Allocator, Global};
use std::env::Env;
use std::fs::Files;
use std::io;
use std::io::ErrorKind;
use std::path::Path;

/// Does what the words ask for, and returns the status to end with: it checks each file that they name, in order, or
/// `.env`. The status is 0 if nothing is found that counts, 1 if something is, and 2 if a file can't be opened or read.
/// With `--strict` a warning counts, too.
///
/// A file that can't be opened or read is one line, `NAME: error: TEXT`, and the next file follows. The file `-` is
/// the reader. `--help` and `--version` print their text instead.
///
/// ```
/// // of the word `a.env`, a file whose second line is `B=two words`, it writes
/// // a.env:2:6: error: a value with a space needs quotes; put it in double quotes [space-in-value]
/// let status = run(&rt, global, &words, &mut reader, &mut writer)?; // 1
/// ```
pub fn run<A: Allocator + Clone, R: Files + Env + Alloc<A = A> + Clone + Drop, S: Source, W: Sink>(
    rt: &R,
    global: Global,
    words: &[String<A>],
    reader: &mut S,
    writer: &mut W,
) -> Result<u8, Failure<A>>
    // A mistake in the words refuses the run, before anything is read or written.
    ensures mistaken { AreMistaken (texts words.now)
        → IsErrAnd result (IsFailureOf (texts words.now)) }
    // Whenever it returns `Usage`, nothing was read of standard input, and nothing was written.
    ensures early { IfErr result
        (λ failure. IsUsage failure → (reader.new ≡ reader.old) × (writer.new ≡ writer.old)) }
    ensures taken { AreTaken (texts words.now) →
        IfErr result (λ failure. ¬ (IsUsage failure)) }
    ensures status { IfOk result (λ status. status < 3) }

    // These words print a text, and nothing is read.
    ensures help { AskForOnly checker (texts words.now) DisplayHelp
        → Prints W.told writer.old writer.new help_text result × (reader.new ≡ reader.old) }
    ensures version { AskForOnly checker (texts words.now) DisplayVersion
        → Prints W.told writer.old writer.new version_text result × (reader.new ≡ reader.old) }

    // Of a quiet check nothing is printed.
    ensures quiet { AskQuiet (texts words.now) → writer.new ≡ writer.old }
{
    match read_words(global, rt.alloc(), words)? {
        Request::Check(words) => {
            if words.quiet {
                let mut nowhere = Plain::new(io::sink());
                check_files(rt, &words, reader, &mut nowhere)
            } else {
                check_files(rt, &words, reader, writer)
            }
        }
        Request::Help => print(writer, help()),
        Request::Version => print(writer, version()),
    }
}

// Prints a text, and returns the status to end with.
fn print<A: Allocator, W: Sink>(writer: &mut W, text: &str) -> Result<u8, Failure<A>>
    ensures { Prints W.told writer.old writer.new text.now result }
{
    match write_all(writer, text.as_bytes(), MOST_WRITES) {
        Ok(()) => Ok(0),
        Err(fault) => Err(Failure::Write(fault)),
    }
}

// Checks the files that the words name, or `.env`, and returns the status to end with.
fn check_files<
    A: Allocator + Clone,
    R: Files + Env + Alloc<A = A> + Clone + Drop,
    S: Source,
    W: Sink,
>(rt: &R, words: &Words<A>, reader: &mut S, writer: &mut W) -> Result<u8, Failure<A>>
    ensures status { IfOk result (λ status. status < 3) }
    ensures error { IfErr result (λ failure. ¬ (IsUsage failure)) }
{
    let mut files = CheckedFiles {
        alloc: rt.alloc(),
        env: environment(rt, words)?,
        how: Reporting {
            format: words.format,
            allowed: words.allowed.as_slice(),
            denied: words.denied.as_slice(),
            text: words.text,
            is_first: true,
        },
        writer,
        found: Found::NOTHING,
        unread: false,
        together: words.together,
        compared: words.schema.is_some(),
        declared: DeclaredNames::new(rt.alloc()),
    };
    files.begin()?;
    if words.files.is_empty() {
        files.check_default(rt, words.dialect)?;
    }
    'files: for name in &words.files {
        if name.as_str() == "-" {
            let watched = Watched::new(rt.alloc(), &mut *reader)?;
            let opened = Iter::with_dialect(rt.alloc(), watched, words.dialect);
            files.check("<stdin>", opened)?;
        } else if is_folder(rt, name.as_str()) {
            files.check_folder(rt, name.as_str(), words)?;
        } else {
            files.check_path(rt, name.as_str(), words.dialect)?;
        }
    }
    if let Some(schema) = &words.schema {
        files.compare(rt, schema.as_str(), words.dialect)?;
    }
    files.end()?;
    Ok(files.status(words.strict))
}

// The names that have a value outside the files: those of the process, unless they are left out, and those that the
// words name.
fn environment<A: Allocator + Clone, R: Env + Alloc<A = A>>(
    rt: &R,
    words: &Words<A>,
) -> Result<Environment<A>, AllocError> {
    let mut env = if words.ignores_environment {
        Environment::new(rt.alloc())
    } else {
        match Environment::from_process(rt) {
            Ok(env) => env,
            Err(Error::Memory(refused)) => return Err(refused),
            Err(_) => unreachable!(),
        }
    };
    'known: for name in &words.known {
        set_name(&mut env, name)?;
    }
    Ok(env)
}

// Opens the file at a path, in this dialect; nothing is read yet.
fn open<A: Allocator + Clone, R: Files + Alloc<A = A>>(
    rt: &R,
    path: Path<'_>,
    dialect: Dialect,
) -> dotenvy::Result<Iter<Watched<Plain<R::File>, A>, A>, A>
    ensures file { IfOk result (λ file. file ≡ fresh nothing_told dialect) }
    ensures fault { IfErr result IsFileFault }
{
    let reader = into_reader(from_path_iter(rt, path)?);
    Iter::with_dialect(rt.alloc(), Watched::new(rt.alloc(), reader)?, dialect)
}

// The files that were checked: what was found in them, and where it is written.
#[derive(Drop)]
struct CheckedFiles<'a, A: Allocator, W: Sink> {
    alloc: A,
    env: Environment<A>,
    how: Reporting<'a>,
    writer: &'a mut W,
    found: Found,
    // Whether a file could not be opened or read.
    unread: bool,
    // Whether a file may use the names of the files before it.
    together: bool,
    // Whether the names that the files declare are compared with those of a schema.
    compared: bool,
    // The names that the files declare, if they are compared.
    declared: DeclaredNames<A>,
}

impl<'a, A: Allocator + Clone, W: Sink> CheckedFiles<'a, A, W> {
    // Writes what stands before all findings.
    fn begin(&mut self) -> Result<(), Failure<A>>
        ensures { IfErr result (λ failure. ¬ (IsUsage failure)) }
    {
        let mut text = String::new(self.alloc.clone()?);
        if matches!(self.how.format, Format::Sarif) {
            push_sarif_start(&mut text, VERSION)?;
        }
        self.write(text.as_str())
    }

    // Writes what stands behind all findings.
    fn end(&mut self) -> Result<(), Failure<A>>
        ensures { IfErr result (λ failure. ¬ (IsUsage failure)) }
    {
        let mut text = String::new(self.alloc.clone()?);
        if matches!(self.how.format, Format::Sarif) {
            push_sarif_end(&mut text)?;
        }
        self.write(text.as_str())
    }

    // Writes a text.
    fn write(&mut self, text: &str) -> Result<(), Failure<A>>
        ensures found { self.new.found ≡ self.old.found }
        ensures unread { self.new.unread ≡ self.old.unread }
        ensures error { IfErr result (λ failure. ¬ (IsUsage failure)) }
    {
        match write_all(self.writer, text.as_bytes(), MOST_WRITES) {
            Ok(()) => Ok(()),
            Err(fault) => Err(Failure::Write(fault)),
        }
    }

    // Checks the file at this path.
    fn check_path<R: Files + Alloc<A = A>>(
        &mut self,
        rt: &R,
        path: &str,
        dialect: Dialect,
    ) -> Result<(), Failure<A>>
        ensures { IfErr result (λ failure. ¬ (IsUsage failure)) }
    {
        let opened = open(rt, Path::new(path), dialect);
        self.check(path, opened)
    }

    // Checks the environment files right in this folder, in the order of their names.
    fn check_folder<R: Files + Alloc<A = A> + Clone + Drop>(
        &mut self,
        rt: &R,
        folder: &str,
        words: &Words<A>,
    ) -> Result<(), Failure<A>>
        ensures { IfErr result (λ failure. ¬ (IsUsage failure)) }
    {
        let files = match files_of(rt, folder, words.excluded.as_slice()) {
            Ok(files) => files,
            Err(error) => return self.say_unread(folder, &error),
        };
        'files: for path in &files.names {
            self.check_path(rt, path.as_str(), words.dialect)?;
        }
        if files.unnamed > 0 {
            self.say_unnamed(folder)?;
        }
        Ok(())
    }

    // Writes that a file of a folder has a name that is not UTF-8.
    fn say_unnamed(&mut self, folder: &str) -> Result<(), Failure<A>>
        ensures { IfErr result (λ failure. ¬ (IsUsage failure)) }
    {
        let error = Error::Io(io::Error::new(
            ErrorKind::InvalidData,
            "a file here has a name that is not UTF-8",
        ));
        self.say_unread(folder, &error)
    }

    // Checks the `.env` of the current directory, or of the nearest directory above it that has one.
    fn check_default<R: Files + Env + Alloc<A = A>>(
        &mut self,
        rt: &R,
        dialect: Dialect,
    ) -> Result<(), Failure<A>>
        ensures { IfErr result (λ failure. ¬ (IsUsage failure)) }
    {
        match find_filename(rt, Path::new(".env")) {
            Ok(path) => {
                let name = format!(in rt.alloc(); "{}", path.display())?;
                let opened = open(rt, path.as_path(), dialect);
                self.check(name.as_str(), opened)
            }
            Err(error) => self.say_unread(".env", &error),
        }
    }

    // Checks a file, if it could be opened.
    fn check<R: Source + Drop>(
        &mut self,
        name: &str,
        file: dotenvy::Result<Iter<Watched<R, A>, A>, A>,
    ) -> Result<(), Failure<A>>
        ensures unopened { OnErr file (self.new.unread ≡ true) }
        ensures error { IfErr result (λ failure. ¬ (IsUsage failure)) }
    {
        let outcome = match file {
            Ok(file) => check(file, name, &self.env, &mut self.how, self.writer),
            Err(error) => Err(Stop::Read(error)),
        };
        self.count(name, outcome)
    }

    // Counts what was found in a file, and keeps the names that it declares. Why it could not be read is written.
    //
    // After `Stop::Read` and `Stop::Memory` a file could not be read; after `Stop::Write` it returns that error.
    fn count(&mut self, name: &str, outcome: Result<Checked<A>, Stop<A>>) -> Result<(), Failure<A>>
        ensures ok { OnOk outcome (IfErr result IsMemoryEnd) }
        ensures found { IfOk outcome
            (λ checked. self.new.found ≡ both self.old.found checked.found) }
        ensures keeps { IfOk outcome (λ checked. OnOk result
            (KeepsNames (declared_of checked.declared) self.old self.new)) }
        ensures stopped { IfErr outcome (λ stop. CountsStop stop result self.new.unread) }
        ensures read { OnOk outcome (self.new.unread ≡ self.old.unread) }
        ensures error { IfErr result (λ failure. ¬ (IsUsage failure)) }
    {
        match outcome {
            Ok(checked) => {
                self.found = self.found.and(checked.found);
                self.keep(&checked.declared)?;
                Ok(())
            }
            Err(stop) => self.say_stop(name, stop),
        }
    }

    // Keeps the names that a file declares: for the files after it, and for a schema.
    fn keep(&mut self, declared: &Declared<A>) -> Result<(), AllocError>
        ensures keeps { OnOk result (KeepsNames (declared_of declared.now) self.old self.new) }
        ensures found { self.new.found ≡ self.old.found }
        ensures read { self.new.unread ≡ self.old.unread }
    {
        if self.together {
            set_names(&mut self.env, declared)?;
        }
        if self.compared {
            self.declared.add(declared)?;
        }
        Ok(())
    }

    // Compares the names that the files declare with those of the file at this path.
    fn compare<R: Files + Alloc<A = A>>(
        &mut self,
        rt: &R,
        path: &str,
        dialect: Dialect,
    ) -> Result<(), Failure<A>>
        ensures { IfErr result (λ failure. ¬ (IsUsage failure)) }
    {
        match self.names_at(rt, path, dialect) {
            Ok(schema) => self.say_differences(path, &schema),
            Err(stop) => self.say_stop(path, stop),
        }
    }

    // The names that the file at this path declares. What is found in it is written nowhere.
    fn names_at<R: Files + Alloc<A = A>>(
        &self,
        rt: &R,
        path: &str,
        dialect: Dialect,
    ) -> Result<DeclaredNames<A>, Stop<A>> {
        let file = match open(rt, Path::new(path), dialect) {
            Ok(file) => file,
            Err(error) => return Err(Stop::Read(error)),
        };
        let mut nowhere = Plain::new(io::sink());
        let checked = check(file, path, &self.env, &mut Reporting::TEXT, &mut nowhere)?;
        let mut names = DeclaredNames::new(self.alloc.clone()?);
        names.add(&checked.declared)?;
        Ok(names)
    }

    // Writes how the names that the files declare differ from those of a schema, and counts it.
    fn say_differences(&mut self, path: &str, schema: &DeclaredNames<A>) -> Result<(), Failure<A>>
        ensures found { OnOk result (self.new.found ≡ both self.old.found
            (found_between (names_of schema.now) (names_of self.old.declared))) }
        ensures read { self.new.unread ≡ self.old.unread }
        ensures error { IfErr result (λ failure. ¬ (IsUsage failure)) }
    {
        let mut text = String::new(self.alloc.clone()?);
        let comparison = Comparison {
            file: path,
            schema,
            files: &self.declared,
        };
        let found = push_comparison(&mut text, self.how, &comparison)?;
        self.found = self.found.and(found);
        self.write(text.as_str())
    }

    // Writes why a file could not be read, unless the report can't be written.
    fn say_stop(&mut self, name: &str, stop: Stop<A>) -> Result<(), Failure<A>>
        ensures stopped { CountsStop stop result self.new.unread }
        ensures error { IfErr result (λ failure. ¬ (IsUsage failure)) }
    {
        match stop {
            Stop::Read(fault) => self.say_unread(name, &fault),
            Stop::Memory(refused) => self.say_unread(name, &Error::Memory(refused)),
            Stop::Write(fault) => Err(Failure::Write(fault)),
        }
    }

    // Writes why a file could not be opened or read.
    fn say_unread(&mut self, name: &str, error: &Error<A>) -> Result<(), Failure<A>>
        ensures unread { self.new.unread ≡ true }
        ensures error { IfErr result (λ failure. ¬ (IsUsage failure)) }
    {
        self.unread = true;
        let line = unread_line(&self.alloc, name, error, self.how)?;
        self.how.is_first = false;
        self.write(line.as_str())
    }

    // The status to end with.
    fn status(&self, strict: bool) -> u8
        ensures { result ≡ status_of self.now.unread
            (self.now.found.faults || self.now.found.denied
            || (strict && self.now.found.warnings)) }
    {
        if self.unread {
            2
        } else {
            u8::from(self.found.is_bad(strict))
        }
    }
}
