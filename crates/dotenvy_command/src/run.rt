//! What the program does once it has its words, over any reader, writer and runtime.

ghost use Rattle.std.specs.Prelude.{◌≡◌, ◌≢◌, ◌⊎◌, [], Err, IfErr, IsErrAnd, Ok};
ghost use Rattle.dotenvy.specs.Input.{ReadsBetween};
ghost use Rattle.dotenvy.specs.Iter.{fresh};
ghost use Rattle.dotenvy.specs.Listed.{Lists};
ghost use Rattle.dotenvy_command.specs.Answers.{texts};
ghost use Rattle.dotenvy_command.specs.Ends.{EndsAs, EndsByUsage, IsEarly, IsRunFault, IsUsage, RunsCommand};
ghost use Rattle.dotenvy_command.specs.Words.{CommandLine as Line, Usage as Refusal, AsksCommand, AsksList, HasUsage};

use crate::command_line::{CommandLine, command_line};
use crate::failure::{Failure, Usage};
use crate::loaded::Loader;
use crate::prepared::Starter;
use crate::start::start;
use dotenvy::{Dialect, Sink, Source};
use dotenvy_items::written::{ListOptions, list_lent};
use std::alloc::{Alloc, Allocator};

/// Does what the words ask for, and returns the status to end with (docs/COMMAND.md).
///
/// With `--list` it lists the reader, and reads no file. Otherwise it adds each file that the words name, in order, or
/// `.env`, to the environment of the process, starts the command in that environment, and waits for its end.
///
/// With the word `--list` and a reader of the lines `B=2`, `A=1` and `A=3` it writes the lines `A="1"` and `B="2"`.
pub fn run<A: Allocator + Clone, R: Loader<A> + Starter + Alloc<A = A>, S: Source, W: Sink>(
    rt: &R,
    words: &[String<A>],
    reader: &mut S,
    writer: &mut W,
) -> Result<u8, Failure<A>>
    // If the words are refused, so is the run, before anything is read or written.
    ensures usage { (usage : Refusal) → HasUsage (texts words.now) (Err usage)
        → IsErrAnd result (EndsByUsage usage) }
    // Whenever the failure is a `Usage`, nothing was read and nothing was written.
    ensures early { IfErr result
        (λ failure. IsUsage failure → (reader.new ≡ reader.old) × (writer.new ≡ writer.old)) }

    // A list is that of the reader, in the dialect that the words ask for.
    ensures lists { (line : Line) → AsksList (texts words.now) line
        → IsEarly result
        ⊎ EndsAs (Lists (fresh (S.told reader.old) line.dialect)
        W.told writer.old writer.new) result }

    // These reads are made of it, whatever comes of the list.
    ensures asks { (line : Line) → AsksList (texts words.now) line
        → ReadsBetween (S.told reader.old) (S.told reader.new) }

    // A run of a command leaves the reader and the writer unchanged.
    ensures command { (line : Line) → AsksCommand (texts words.now) line
        → (IsEarly result ⊎ IfErr result IsRunFault)
        × (reader.new ≡ reader.old) × (writer.new ≡ writer.old) }

    // A status is the one with which a command ended that was made of the words and of the names that were loaded, or 1
    // if it ended without one. `Start` holds the error of the start of such a command, or one of kind `OutOfMemory`.
    ensures runs { (line : Line) → AsksCommand (texts words.now) line
        → RunsCommand (R.loads rt.now line.files line.dialect) (R.ends rt.now) line.command
        result }
{
    let line = command_line(rt.alloc(), words)?;
    if line.list {
        list(rt.alloc(), reader, writer, line.dialect)
    } else {
        run_command(rt, &line)
    }
}

// Lists the reader.
fn list<A: Allocator + Clone, S: Source, W: Sink>(
    alloc: A,
    reader: &mut S,
    writer: &mut W,
    dialect: Dialect,
) -> Result<u8, Failure<A>>
    ensures lists { EndsAs (Lists (fresh (S.told reader.old) dialect)
        W.told writer.old writer.new) result }
    ensures asks { ReadsBetween (S.told reader.old) (S.told reader.new) }
{
    let options = ListOptions {
        dialect,
        is_last: true,
    };
    list_lent(alloc, reader, writer, options)?;
    Ok(0)
}

// Starts the command of the line in the environment of its files. The line has to have a command.
fn run_command<A: Allocator + Clone, R: Loader<A> + Starter + Alloc<A = A>>(
    rt: &R,
    line: &CommandLine<A>,
) -> Result<u8, Failure<A>>
    ensures fault { line.now.command.items ≢ [] → IfErr result IsRunFault }
    ensures runs { RunsCommand (R.loads rt.now (texts line.now.files.items) line.now.dialect)
        (R.ends rt.now) (texts line.now.command.items) result }
{
    let Some((program, arguments)) = line.command.split_first() else {
        return Err(Failure::Usage(Usage::MissingCommand));
    };
    let env = rt.load(line.files.as_slice(), line.dialect)?;
    match start(rt, program.as_str(), arguments, &env) {
        Ok(status) => Ok(status),
        Err(fault) => Err(Failure::Start(fault)),
    }
}
