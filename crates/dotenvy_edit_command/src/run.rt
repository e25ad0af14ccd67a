//! What the program does once it has its words, over any reader, writers and runtime.

ghost use Rattle.std.specs.Prelude.{◌≡◌, ◌<◌, IfErr, IfOk, IsErrAnd, OnErr, false};
ghost use Rattle.clap.specs.declared.error.kind.ErrorKind.TheVariants.{DisplayHelp, DisplayVersion};
ghost use Rattle.dotenvy_words.specs.Asked.{AskForOnly};
ghost use Rattle.dotenvy_words.specs.Found.{texts};
ghost use Rattle.dotenvy_edit_command.specs.Answers.{AreMistaken, AreTaken, IsUsageEnd, IsUsageOf};
ghost use Rattle.dotenvy_edit_command.specs.Ends.{EndsBy, IsWrongCall, Prints, RefusesCall};
ghost use Rattle.dotenvy_edit_command.specs.Help.{help_text, version_text};
ghost use Rattle.dotenvy_edit_command.specs.Replacing.{IsAlone};
ghost use Rattle.dotenvy_edit_command.specs.Tasks.{DoesAsked, EndsTask, may_make};
ghost use Rattle.dotenvy_edit_command.specs.Words.{editor};

use crate::act::act;
use crate::failure::{Failure, Usage};
use crate::help::{help, version};
use crate::replacement::Replaceable;
use crate::told::say_failure;
use crate::words::{How, Request, Task, Words, read_words};
use dotenvy::{Error, Sink, Source};
use dotenvy_base::errors::or_memory;
use dotenvy_base::output::{MOST_WRITES, write_all};
use dotenvy_reports::one_line::one_line;
use dotenvy_streams::telling::say;
use std::alloc::{Allocator, Global};

/// Standard input, output and error of a run.
#[derive(Drop)]
pub struct Streams<S, W, E> {
    /// What a value is read from.
    pub reader: S,
    /// Where values and differences are written.
    pub writer: W,
    /// Where errors and warnings are written.
    pub errors: E,
}

/// Does what the words ask for, and returns the status to end with: it sets, prints, removes or renames a name of the
/// file that they name. The status is 0 if it is done; 1 if the name is not there, or the call is refused; and 2 if
/// something can't be read or written. What is not done is told on a line on `errors`.
///
/// The error is a wrong call, of which nothing is read, written or said. `--help` and `--version` print their text
/// instead.
///
/// ```
/// // of the words `set a.env PORT 80`, where a.env has a line `PORT=1 # of it`, that becomes `PORT=80 # of it`
/// let status = run(&mut file, alloc, global, &words, &mut streams)?; // 0
/// ```
pub fn run<A: Allocator + Clone, F: Replaceable, S: Source, W: Sink, E: Sink>(
    file: &mut F,
    alloc: A,
    global: Global,
    words: &[String<A>],
    streams: &mut Streams<S, W, E>,
) -> Result<u8, Usage<A>>
    requires made { F.is_made file.old ≡ false }
    requires alone { IsAlone (F.known file.old) }

    // A mistake in the words refuses the run, before anything is found, read, written or said.
    ensures mistaken { AreMistaken (texts words.now)
        → RefusesCall (texts words.now) E.told streams.old.errors streams.new.errors result
        × (file.new ≡ file.old) × (streams.new.reader ≡ streams.old.reader)
        × (streams.new.writer ≡ streams.old.writer) }
    ensures early { OnErr result (streams.new ≡ streams.old) }
    ensures early_file { OnErr result (file.new ≡ file.old) }
    ensures status { IfOk result (λ status. status < 3) }

    // These words print a text, and nothing is found or read.
    ensures help { AskForOnly editor (texts words.now) DisplayHelp
        → EndsBy (Prints W.told streams.old.writer streams.new.writer help_text)
        E.told streams.old.errors streams.new.errors result
        × (file.new ≡ file.old) × (streams.new.reader ≡ streams.old.reader) }
    ensures version { AskForOnly editor (texts words.now) DisplayVersion
        → EndsBy (Prints W.told streams.old.writer streams.new.writer version_text)
        E.told streams.old.errors streams.new.errors result
        × (file.new ≡ file.old) × (streams.new.reader ≡ streams.old.reader) }

    // The file has the new bytes, or the old ones with what the refusal says. Of `unset` with several names, the
    // warnings are those of each name in the old file. With `--dry-run` the file is as it was, and the difference is
    // printed. `get` prints the value that a load gives, over an environment without names.
    ensures tasks { AreTaken (texts words.now)
        → EndsBy (EndsTask S.told W.told (texts words.now) (F.known file.old) (F.known file.new)
        streams.old.reader streams.new.reader streams.old.writer streams.new.writer)
        E.told streams.old.errors streams.new.errors result }
{
    match done(file, &alloc, global, words, streams) {
        Ok(said) => {
            say::<A, E>(&mut streams.errors, said.as_str());
            Ok(0)
        }
        Err(failure) => match failure {
            Failure::Usage(usage) => Err(usage),
            other => {
                say_failure(alloc, &mut streams.errors, &other);
                Ok(other.status())
            }
        },
    }
}

// Does what the words ask for, and returns what is to be said of it.
fn done<A: Allocator + Clone, F: Replaceable, S: Source, W: Sink, E: Sink>(
    file: &mut F,
    alloc: &A,
    global: Global,
    words: &[String<A>],
    streams: &mut Streams<S, W, E>,
) -> Result<String<A>, Failure<A>>
    requires made { F.is_made file.old ≡ false }
    requires alone { IsAlone (F.known file.old) }
    ensures errors { streams.new.errors ≡ streams.old.errors }
    ensures early { IfErr result
        (λ failure. IsWrongCall failure → streams.new ≡ streams.old) }
    ensures early_file { IfErr result
        (λ failure. IsWrongCall failure → file.new ≡ file.old) }
    ensures mistaken { AreMistaken (texts words.now)
        → IsErrAnd result (IsUsageEnd (IsUsageOf (texts words.now)))
        × (file.new ≡ file.old) × (streams.new ≡ streams.old) }
    ensures help { AskForOnly editor (texts words.now) DisplayHelp
        → Prints W.told streams.old.writer streams.new.writer help_text result
        × (file.new ≡ file.old) × (streams.new.reader ≡ streams.old.reader) }
    ensures version { AskForOnly editor (texts words.now) DisplayVersion
        → Prints W.told streams.old.writer streams.new.writer version_text result
        × (file.new ≡ file.old) × (streams.new.reader ≡ streams.old.reader) }
    ensures taken { AreTaken (texts words.now)
        → IfErr result (λ failure. ¬ (IsWrongCall failure)) }
    ensures tasks { AreTaken (texts words.now)
        → EndsTask S.told W.told (texts words.now) (F.known file.old) (F.known file.new)
        streams.old.reader streams.new.reader streams.old.writer streams.new.writer result }
{
    match read_words(global, alloc.clone()?, words)? {
        Request::Act(words) => act_on(file, alloc, &words, streams),
        Request::Help => print(alloc, &mut streams.writer, help()),
        Request::Version => print(alloc, &mut streams.writer, version()),
    }
}

// Whether a file that is absent can be made for a task.
fn may_make<A: Allocator>(how: How, task: &Task<A>) -> bool
    ensures { result ≡ may_make how task.now }
{
    match task {
        Task::Set(_, _) => how.creates,
        Task::Get(_) => false,
        Task::Unset(_) => false,
        Task::Rename(_, _) => false,
    }
}

// Finds the file, and does the task with it.
fn act_on<A: Allocator + Clone, F: Replaceable, S: Source, W: Sink, E: Sink>(
    file: &mut F,
    alloc: &A,
    words: &Words<A>,
    streams: &mut Streams<S, W, E>,
) -> Result<String<A>, Failure<A>>
    requires made { F.is_made file.old ≡ false }
    requires alone { IsAlone (F.known file.old) }
    ensures errors { streams.new.errors ≡ streams.old.errors }
    ensures does { DoesAsked S.told W.told words.now (F.known file.old) (F.known file.new)
        streams.old.reader streams.new.reader streams.old.writer streams.new.writer result }
    ensures right { IfErr result (λ failure. ¬ (IsWrongCall failure)) }
{
    let name = one_line(alloc.clone()?, words.file.as_str())?;
    let alloc = alloc.clone()?;
    match file.locate(words.file.as_str(), may_make(words.how, &words.task)) {
        Ok(()) => act(alloc, words, file, streams),
        Err(fault) => Err(Failure::File(name, or_memory(Error::Io(fault)))),
    }
}

// Prints a text, of which nothing is to be said.
fn print<A: Allocator + Clone, W: Sink>(
    alloc: &A,
    writer: &mut W,
    text: &str,
) -> Result<String<A>, Failure<A>>
    ensures { Prints W.told writer.old writer.new text.now result }
{
    let nothing = String::new(alloc.clone()?);
    match write_all(writer, text.as_bytes(), MOST_WRITES) {
        Ok(()) => Ok(nothing),
        Err(fault) => Err(Failure::Write(fault)),
    }
}
