//! Does a task with a file.

ghost use Rattle.std.specs.Prelude.{◌≡◌, ◌++◌, IfErr, IfOk, [], chars, codes, false, string_bytes};
ghost use Rattle.dotenvy_reports.specs.OneLine.{on_one_line};
ghost use Rattle.dotenvy_words.specs.Found.{texts};
ghost use Rattle.dotenvy_edit_command.specs.Edited.{AnswersRename, AnswersUnsets, bytes_of};
ghost use Rattle.dotenvy_edit_command.specs.Ends.{IsWrongCall, PrintsAs};
ghost use Rattle.dotenvy_edit_command.specs.Replacing.{HasRead, IsAlone};
ghost use Rattle.dotenvy_edit_command.specs.Tasks.{DoesTask, DoesWords, EndsEdit, IsUnread, IsValueFrom, KeepsInput, LoadsAndPrints, PrintsDiff, PutsBytes, ReadsValue, SetsGiven, WritesFile, value_of};

use crate::diff::{Texts, diff};
use crate::edits::{Edit, Old, place, rename_name, set_name, unset_names};
use crate::failure::Failure;
use crate::loaded::value_in;
use crate::replacement::{Replaceable, Unreplaced, replace};
use crate::run::Streams;
use crate::words::{Task, Words};
use dotenvy::{Sink, Source};
use dotenvy_base::output::{MOST_WRITES, write_all};
use dotenvy_reports::one_line::one_line;
use dotenvy_streams::reading::read_all;
use std::alloc::Allocator;
use std::str::from_utf8;

/// Does a task with a file, and returns what is to be said of it.
pub(crate) fn act<A: Allocator + Clone, F: Replaceable, S: Source, W: Sink, E>(
    alloc: A,
    words: &Words<A>,
    file: &mut F,
    streams: &mut Streams<S, W, E>,
) -> Result<String<A>, Failure<A>>
    requires made { F.is_made file.old ≡ false }
    requires alone { IsAlone (F.known file.old) }
    ensures errors { streams.new.errors ≡ streams.old.errors }
    ensures does { DoesWords S.told W.told words.now (F.known file.old) (F.known file.new)
        streams.old.reader streams.new.reader streams.old.writer streams.new.writer result }
    ensures right { IfErr result (λ failure. ¬ (IsWrongCall failure)) }
{
    match read_old(&alloc, words, file) {
        Ok(old) => do_task(alloc, &words.task, old, file, streams),
        Err(unread) => Err(unread),
    }
}

// What the file has.
fn read_old<A: Allocator + Clone, F: Replaceable>(
    alloc: &A,
    words: &Words<A>,
    file: &F,
) -> Result<Old<A>, Failure<A>>
    ensures name { IfOk result
        (λ old. string_bytes old.file ≡ on_one_line (chars (string_bytes words.now.file))) }
    ensures how { IfOk result (λ old. old.how ≡ words.now.how) }
    ensures bytes { IfOk result (λ old. HasRead (F.known file.now) old.bytes) }
    ensures unread { IfErr result (IsUnread (on_one_line (chars (string_bytes words.now.file)))) }
{
    let name = one_line(alloc.clone()?, words.file.as_str())?;
    match file.read(alloc.clone()?) {
        Ok(bytes) => Ok(Old {
            file: name,
            bytes,
            how: words.how,
        }),
        Err(error) => Err(Failure::File(name, error)),
    }
}

// Does a task with a file that has these bytes.
fn do_task<A: Allocator + Clone, F: Replaceable, S: Source, W: Sink, E>(
    alloc: A,
    task: &Task<A>,
    old: Old<A>,
    file: &mut F,
    streams: &mut Streams<S, W, E>,
) -> Result<String<A>, Failure<A>>
    requires made { F.is_made file.old ≡ false }
    requires alone { IsAlone (F.known file.old) }
    ensures errors { streams.new.errors ≡ streams.old.errors }
    ensures does { DoesTask S.told W.told old.how (string_bytes old.file) task.now old.bytes
        (F.known file.old) (F.known file.new) streams.old.reader streams.new.reader
        streams.old.writer streams.new.writer result }
    ensures right { IfErr result (λ failure. ¬ (IsWrongCall failure)) }
{
    match task {
        Task::Get(name) => print_loaded(alloc, &old, name.as_str(), &mut streams.writer),
        Task::Set(name, value) => {
            let edited = set_given(&alloc, &old, name.as_str(), value, &mut streams.reader);
            finish(alloc, file, old, edited, &mut streams.writer)
        }
        Task::Unset(names) => {
            let edited = unset_given(&alloc, &old, names.as_slice());
            finish(alloc, file, old, edited, &mut streams.writer)
        }
        Task::Rename(name, new) => {
            let edited = rename_given(&alloc, &old, name.as_str(), new.as_str());
            finish(alloc, file, old, edited, &mut streams.writer)
        }
    }
}

// Prints the value that a load gives a name.
fn print_loaded<A: Allocator + Clone, W: Sink>(
    alloc: A,
    old: &Old<A>,
    name: &str,
    writer: &mut W,
) -> Result<String<A>, Failure<A>>
    ensures prints { LoadsAndPrints W.told old.now.how.dialect (bytes_of old.now.bytes)
        (string_bytes old.now.file) name.now writer.old writer.new result }
    ensures right { IfErr result (λ failure. ¬ (IsWrongCall failure)) }
{
    match value_in(alloc, old, name) {
        Ok(value) => print_value(value, writer),
        Err(none) => Err(none),
    }
}

// Prints a value, and a line feed.
fn print_value<A: Allocator, W: Sink>(
    mut value: String<A>,
    writer: &mut W,
) -> Result<String<A>, Failure<A>>
    ensures prints { PrintsAs W.told writer.old writer.new (string_bytes value ++ codes "\n") []
        result }
    ensures right { IfErr result (λ failure. ¬ (IsWrongCall failure)) }
{
    value.push_str("\n")?;
    match write_all(writer, value.as_bytes(), MOST_WRITES) {
        Ok(()) => {
            value.clear();
            Ok(value)
        }
        Err(fault) => Err(Failure::Write(fault)),
    }
}

// Sets a name to the value that is given, or else to that of standard input.
fn set_given<A: Allocator + Clone, S: Source>(
    alloc: &A,
    old: &Old<A>,
    name: &str,
    value: &Option<String<A>>,
    reader: &mut S,
) -> Result<Edit<A>, Failure<A>>
    ensures keeps { KeepsInput value.now reader.old reader.new }
    ensures sets { SetsGiven old.now.how (string_bytes old.now.file) (bytes_of old.now.bytes)
        name.now value.now (S.told reader.old) result }
    ensures right { IfErr result (λ failure. ¬ (IsWrongCall failure)) }
{
    match value {
        Some(value) => set_name(alloc.clone()?, old, name, value.as_str()),
        None => match read_value(alloc, old, name, reader) {
            Ok(value) => set_name(alloc.clone()?, old, name, value.as_str()),
            Err(none) => Err(none),
        },
    }
}

// Removes the names that are given.
fn unset_given<A: Allocator + Clone>(
    alloc: &A,
    old: &Old<A>,
    names: &[String<A>],
) -> Result<Edit<A>, Failure<A>>
    ensures unsets { AnswersUnsets old.now.how (string_bytes old.now.file) (bytes_of old.now.bytes)
        (texts names.now) result }
    ensures right { IfErr result (λ failure. ¬ (IsWrongCall failure)) }
{
    unset_names(alloc.clone()?, old, names)
}

// Renames a name to the one that is given.
fn rename_given<A: Allocator + Clone>(
    alloc: &A,
    old: &Old<A>,
    name: &str,
    new: &str,
) -> Result<Edit<A>, Failure<A>>
    ensures renames { AnswersRename old.now.how (string_bytes old.now.file) (bytes_of old.now.bytes)
        name.now new.now result }
    ensures right { IfErr result (λ failure. ¬ (IsWrongCall failure)) }
{
    rename_name(alloc.clone()?, old, name, new)
}

// Prints or writes an edit, unless it is refused.
fn finish<A: Allocator + Clone, F: Replaceable, W: Sink>(
    alloc: A,
    file: &mut F,
    old: Old<A>,
    edited: Result<Edit<A>, Failure<A>>,
    writer: &mut W,
) -> Result<String<A>, Failure<A>>
    requires made { F.is_made file.old ≡ false }
    requires alone { IsAlone (F.known file.old) }
    requires right { IfErr edited (λ failure. ¬ (IsWrongCall failure)) }
    ensures ends { EndsEdit old.how.is_dry W.told (string_bytes old.file) old.bytes edited
        (F.known file.old) (F.known file.new) writer.old writer.new result }
    ensures right { IfErr result (λ failure. ¬ (IsWrongCall failure)) }
{
    match edited {
        Ok(edit) => {
            if old.how.is_dry {
                print_diff(alloc, &old, edit, writer)
            } else {
                write_edit(file, old, edit)
            }
        }
        Err(refused) => Err(refused),
    }
}

// Replaces the file by the edited one, and returns what is to be said of it.
fn write_edit<A: Allocator, F: Replaceable>(
    file: &mut F,
    old: Old<A>,
    edit: Edit<A>,
) -> Result<String<A>, Failure<A>>
    requires made { F.is_made file.old ≡ false }
    requires alone { IsAlone (F.known file.old) }
    ensures writes { WritesFile (string_bytes old.file) old.bytes edit.bytes.items
        (string_bytes edit.said) (F.known file.old) (F.known file.new) result }
    ensures right { IfErr result (λ failure. ¬ (IsWrongCall failure)) }
{
    match put_bytes(file, &old, edit.bytes.as_slice()) {
        Ok(()) => Ok(edit.said),
        Err(unreplaced) => Err(Failure::Unreplaced(old.file, unreplaced)),
    }
}

// Replaces the file by new bytes, unless it has them already.
fn put_bytes<A: Allocator, F: Replaceable>(
    file: &mut F,
    old: &Old<A>,
    new: &[u8],
) -> Result<(), Unreplaced>
    requires made { F.is_made file.old ≡ false }
    requires alone { IsAlone (F.known file.old) }
    ensures { PutsBytes old.now.bytes new.now (F.known file.old) (F.known file.new) result }
{
    match &old.bytes {
        Some(bytes) => replace(file, Some(bytes.as_slice()), new),
        None => replace(file, None, new),
    }
}

// Prints what an edit would change.
fn print_diff<A: Allocator + Clone, W: Sink>(
    alloc: A,
    old: &Old<A>,
    edit: Edit<A>,
    writer: &mut W,
) -> Result<String<A>, Failure<A>>
    ensures prints { PrintsDiff W.told (string_bytes old.now.file) old.now.bytes edit.bytes.items
        (string_bytes edit.said) writer.old writer.new result }
    ensures right { IfErr result (λ failure. ¬ (IsWrongCall failure)) }
{
    if old.has(edit.bytes.as_slice()) {
        return Ok(edit.said);
    }
    let texts = Texts {
        old_name: old.name(),
        new_name: old.file.as_str(),
        old: old.bytes(),
        new: edit.bytes.as_slice(),
    };
    let text = diff(alloc, texts)?;
    match write_all(writer, text.as_slice(), MOST_WRITES) {
        Ok(()) => Ok(edit.said),
        Err(fault) => Err(Failure::Write(fault)),
    }
}

// The value that standard input has for a name, without a line feed at its end, unless that is a part of it.
fn read_value<A: Allocator + Clone, S: Source>(
    alloc: &A,
    old: &Old<A>,
    name: &str,
    reader: &mut S,
) -> Result<String<A>, Failure<A>>
    ensures reads { ReadsValue old.now.how.is_exact (string_bytes old.now.file) name.now
        (S.told reader.old) result }
    ensures right { IfErr result (λ failure. ¬ (IsWrongCall failure)) }
{
    match read_all(alloc.clone()?, 0, reader) {
        Ok(bytes) => value_from(alloc, old, name, bytes.as_slice()),
        Err(error) => Err(Failure::Input(error)),
    }
}

// The value that is made of these bytes of standard input.
fn value_from<A: Allocator + Clone>(
    alloc: &A,
    old: &Old<A>,
    name: &str,
    bytes: &[u8],
) -> Result<String<A>, Failure<A>>
    ensures { IsValueFrom old.now.how.is_exact (string_bytes old.now.file) name.now bytes.now
        result }
{
    match from_utf8(value_of(old.how.is_exact, bytes)) {
        Ok(value) => Ok(String::from_str(alloc.clone()?, value)?),
        Err(_) => Err(Failure::Value(place(alloc.clone()?, old, name)?)),
    }
}

// These bytes, or without a line feed at their end.
fn value_of(is_exact: bool, bytes: &[u8]) -> &[u8]
    ensures { result.now ≡ value_of is_exact bytes.now }
{
    if !is_exact && bytes.ends_with(b"\n") {
        &bytes[..bytes.len() - 1]
    } else {
        bytes
    }
}
