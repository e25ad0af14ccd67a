//! What the program does once it has its words, over any reader, writers and runtime.

ghost use Rattle.std.specs.Prelude.{◌≡◌, ◌<◌, IfErr, IfOk, IsErrAnd, OnErr};
ghost use Rattle.clap.specs.declared.error.kind.ErrorKind.TheVariants.{DisplayHelp, DisplayVersion};
ghost use Rattle.dotenvy_words.specs.Asked.{AskForOnly};
ghost use Rattle.dotenvy_words.specs.Found.{texts};
ghost use Rattle.dotenvy_export_command.specs.Answers.{AreMistaken, IsFailureOf};
ghost use Rattle.dotenvy_export_command.specs.Ends.{EndsBy, EndsExport, IsWrongCall, Prints, RefusesCall};
ghost use Rattle.dotenvy_export_command.specs.Help.{help_text, version_text};
ghost use Rattle.dotenvy_export_command.specs.Words.{exporter, AreTaken};

use crate::export::export;
use crate::failure::{Failure, Usage};
use crate::help::{help, version};
use crate::reading::read_inputs;
use crate::told::say_failure;
use crate::words::{Request, read_words};
use dotenvy::{Sink, Source};
use dotenvy_base::output::{MOST_WRITES, write_all};
use dotenvy_streams::telling::say;
use std::alloc::{Alloc, Allocator, Global};
use std::env::Env;
use std::fs::Files;

/// Standard input, output and error of a run.
#[derive(Drop)]
pub struct Streams<S, W, E> {
    /// What the FILE `-` is.
    pub reader: S,
    /// Where pairs are written.
    pub writer: W,
    /// Where errors and warnings are written.
    pub errors: E,
}

/// Does what the words ask for, and returns the status to end with: it writes what the files that they name declare, or
/// `.env`, for the target. The status is 0 if all is written, and 1 after an error, which is a line on `errors`.
///
/// The error is a wrong call, of which nothing is read, written or said. `--help` and `--version` print their text
/// instead.
///
/// If standard error can't be written, the status stays.
///
/// ```
/// // of the words `sh a.env`, a file whose line is `A="it's"`, it writes export A='it'\''s'
/// let status = run(&rt, global, &words, &mut streams)?; // 0
/// ```
pub fn run<A: Allocator + Clone, R: Files + Env + Alloc<A = A>, S: Source, W: Sink, E: Sink>(
    rt: &R,
    global: Global,
    words: &[String<A>],
    streams: &mut Streams<S, W, E>,
) -> Result<u8, Usage<A>>
    // A mistake in the words refuses the run, before anything is read, written or said.
    ensures mistaken { AreMistaken (texts words.now)
        → RefusesCall (texts words.now) E.told streams.old.errors streams.new.errors result }
    ensures early { OnErr result (streams.new ≡ streams.old) }
    ensures status { IfOk result (λ status. status < 2) }

    // These words print a text, and nothing is read.
    ensures help { AskForOnly exporter (texts words.now) DisplayHelp
        → EndsBy (Prints W.told streams.old.writer streams.new.writer help_text)
        E.told streams.old.errors streams.new.errors result
        × (streams.new.reader ≡ streams.old.reader) }
    ensures version { AskForOnly exporter (texts words.now) DisplayVersion
        → EndsBy (Prints W.told streams.old.writer streams.new.writer version_text)
        E.told streams.old.errors streams.new.errors result
        × (streams.new.reader ≡ streams.old.reader) }

    // These export files. After an error nothing was written, unless the write itself failed.
    ensures exports { AreTaken (texts words.now)
        → EndsBy (EndsExport W.told (texts words.now) streams.old.writer streams.new.writer)
        E.told streams.old.errors streams.new.errors result }
{
    match done(rt, global, words, streams) {
        Ok(warnings) => {
            say::<A, E>(&mut streams.errors, warnings.as_str());
            Ok(0)
        }
        Err(failure) => match failure {
            Failure::Usage(usage) => Err(usage),
            other => {
                say_failure(rt.alloc(), &mut streams.errors, &other);
                Ok(1)
            }
        },
    }
}

// Does what the words ask for, and returns what is to be said of it.
fn done<A: Allocator + Clone, R: Files + Env + Alloc<A = A>, S: Source, W: Sink, E: Sink>(
    rt: &R,
    global: Global,
    words: &[String<A>],
    streams: &mut Streams<S, W, E>,
) -> Result<String<A>, Failure<A>>
    ensures errors { streams.new.errors ≡ streams.old.errors }
    ensures early { IfErr result
        (λ failure. IsWrongCall failure → streams.new ≡ streams.old) }
    ensures mistaken { AreMistaken (texts words.now)
        → IsErrAnd result (IsFailureOf (texts words.now)) }
    ensures help { AskForOnly exporter (texts words.now) DisplayHelp
        → Prints W.told streams.old.writer streams.new.writer help_text result
        × (streams.new.reader ≡ streams.old.reader) }
    ensures version { AskForOnly exporter (texts words.now) DisplayVersion
        → Prints W.told streams.old.writer streams.new.writer version_text result
        × (streams.new.reader ≡ streams.old.reader) }
    ensures exports { AreTaken (texts words.now)
        → EndsExport W.told (texts words.now) streams.old.writer streams.new.writer result }
{
    match read_words(global, rt.alloc(), words)? {
        Request::Export(words) => {
            let inputs = read_inputs(rt, &words, &mut streams.reader)?;
            export(rt.alloc(), words.how, &inputs, &mut streams.writer)
        }
        Request::Help => print(rt.alloc(), &mut streams.writer, help()),
        Request::Version => print(rt.alloc(), &mut streams.writer, version()),
    }
}

// Prints a text, of which nothing is to be said.
fn print<A: Allocator, W: Sink>(
    alloc: A,
    writer: &mut W,
    text: &str,
) -> Result<String<A>, Failure<A>>
    ensures { Prints W.told writer.old writer.new text.now result }
{
    match write_all(writer, text.as_bytes(), MOST_WRITES) {
        Ok(()) => Ok(String::new(alloc)),
        Err(fault) => Err(Failure::Write(fault)),
    }
}
