//! The two edits, for C.

ghost use Rattle.std.specs.Prelude.{◌≡◌, ◌+◌, chars, false, true};
ghost use Rattle.std.specs.Str.{is_utf8};
ghost use Rattle.dotenvy_editor.specs.Edits.{Sets, Unsets};
ghost use Rattle.dotenvy_editor.specs.Refusals.{RefusesSet, RefusesUnset};
ghost use Rattle.dotenvy_c.specs.Edit.{AnswersEdit, RefusesEdit, TellsOutcome, buffers, refused_edit};
ghost use Rattle.dotenvy_c.specs.Options.{are_among, dialect_of, how_asked};

use crate::buffer::write_if;
use crate::options::{NEXT_DIALECT, PORTABLE, are_among, dialect_of, how_of};
use crate::status::{BAD_OPTION, DONE, NO_KEY, NO_MEMORY, NOT_UTF8, reason_status};
use crate::warnings::{ToldWarning, told_file};
use dotenvy_editor::edit::{set, unset};
use dotenvy_editor::refusal::Unedited;
use dotenvy_editor::warning::Edited;
use std::alloc::Global;
use std::str;

/// What an edit tells C.
#[repr(C)]
#[derive(Drop)]
pub struct Edit {
    /// 0, or why the file is not edited.
    pub status: u32,
    /// Whether the new file, its warnings and their names were written.
    pub fits: bool,
    /// The physical line of a refusal, counted from 1; 0 for one of no line.
    pub line: u64,
    /// How many bytes the new file takes.
    pub file_len: usize,
    /// How many bytes the names of the warnings take, after the file.
    pub names_len: usize,
    /// How many warnings there are.
    pub warnings: usize,
    /// 0. A later version can tell more here.
    pub reserved: [u64; 2],
}

// Nothing was written, for this reason.
fn refused_edit(status: u32, line: u64) -> Edit
    ensures { result ≡ refused_edit status line }
{
    Edit {
        status,
        fits: false,
        line,
        file_len: 0,
        names_len: 0,
        warnings: 0,
        reserved: [0; 2],
    }
}

// Writes what came of an edit to the caller's buffers, if it fits.
fn answer_edit(
    alloc: Global,
    outcome: Result<Edited, Unedited>,
    warnings: &mut [ToldWarning],
    out: &mut [u8],
) -> Edit
    ensures { TellsOutcome outcome result (buffers warnings.old out.old)
        (buffers warnings.new out.new) }
{
    let edited = match outcome {
        Ok(edited) => edited,
        Err(Unedited::Refused(refusal)) => {
            return refused_edit(reason_status(refusal.reason), refusal.line);
        }
        Err(Unedited::Memory(_)) => return refused_edit(NO_MEMORY, 0),
    };
    let file_len = edited.bytes.len();
    let Ok(told) = told_file(alloc, edited) else {
        return refused_edit(NO_MEMORY, 0);
    };
    let fits = told.warnings.len() <= warnings.len() && told.bytes.len() <= out.len();
    write_if(fits, warnings, told.warnings.as_slice());
    write_if(fits, out, told.bytes.as_slice());
    Edit {
        status: DONE,
        fits,
        line: 0,
        file_len,
        names_len: told.bytes.len() - file_len,
        warnings: told.warnings.len(),
        reserved: [0; 2],
    }
}

// Sets as `dotenvy_set` does, and tells what came of it.
fn answer_set(
    alloc: Global,
    file: &[u8],
    key: &[u8],
    value: &[u8],
    options: u32,
    warnings: &mut [ToldWarning],
    out: &mut [u8],
) -> Edit
    ensures option { are_among options (NEXT_DIALECT + PORTABLE) ≡ false →
        RefusesEdit BAD_OPTION 0 result (buffers warnings.old out.old)
        (buffers warnings.new out.new) }
    ensures key { are_among options (NEXT_DIALECT + PORTABLE) ≡ true → is_utf8 key.now ≡ false →
        RefusesEdit NO_KEY 0 result (buffers warnings.old out.old)
        (buffers warnings.new out.new) }
    ensures value { are_among options (NEXT_DIALECT + PORTABLE) ≡ true → is_utf8 key.now ≡ true →
        is_utf8 value.now ≡ false →
        RefusesEdit NOT_UTF8 0 result (buffers warnings.old out.old)
        (buffers warnings.new out.new) }
    ensures sets { are_among options (NEXT_DIALECT + PORTABLE) ≡ true → is_utf8 key.now ≡ true →
        is_utf8 value.now ≡ true →
        AnswersEdit
        (λ edited. Sets (how_asked options) (chars key.now) (chars value.now) file.now
        edited.bytes.items)
        (RefusesSet (how_asked options) (chars key.now) (chars value.now) file.now)
        result (buffers warnings.old out.old) (buffers warnings.new out.new) }
{
    if !are_among(options, NEXT_DIALECT + PORTABLE) {
        return refused_edit(BAD_OPTION, 0);
    }
    let Ok(key) = str::from_utf8(key) else {
        return refused_edit(NO_KEY, 0);
    };
    let Ok(value) = str::from_utf8(value) else {
        return refused_edit(NOT_UTF8, 0);
    };
    let outcome = set(alloc, file, key, value, how_of(options));
    answer_edit(alloc, outcome, warnings, out)
}

/// Sets a key of a file to a value, and writes the new file to `out`, and the names of the warnings after it. The first
/// line that assigns the key has the value, and later ones are gone; where none does, one is appended. Every other byte
/// stays, except for blanks before the line's comment and the end of the last line.
///
/// Where `warnings` is too short for all warnings, or `out` for the file and the names, nothing is written, and the
/// answer tells how long both have to be.
///
/// What came of it is written to `answer`, and its status is returned, too.
///
/// The specification is that of `dotenvy_editor::edit`. The status is 7 for a key that is not UTF-8, as for one that is
/// no key; or that of the reason of a refusal. Then `fits` is false, and neither buffer changed.
#[unsafe(no_mangle)]
pub extern "C" fn dotenvy_set(
    alloc: Global,
    file: &[u8],
    key: &[u8],
    value: &[u8],
    options: u32,
    answer: &mut Edit,
    warnings: &mut [ToldWarning],
    out: &mut [u8],
) -> u32
    ensures option { are_among options (NEXT_DIALECT + PORTABLE) ≡ false →
        RefusesEdit BAD_OPTION 0 answer.new (buffers warnings.old out.old)
        (buffers warnings.new out.new) }
    ensures key { are_among options (NEXT_DIALECT + PORTABLE) ≡ true → is_utf8 key.now ≡ false →
        RefusesEdit NO_KEY 0 answer.new (buffers warnings.old out.old)
        (buffers warnings.new out.new) }
    ensures value { are_among options (NEXT_DIALECT + PORTABLE) ≡ true → is_utf8 key.now ≡ true →
        is_utf8 value.now ≡ false →
        RefusesEdit NOT_UTF8 0 answer.new (buffers warnings.old out.old)
        (buffers warnings.new out.new) }
    ensures sets { are_among options (NEXT_DIALECT + PORTABLE) ≡ true → is_utf8 key.now ≡ true →
        is_utf8 value.now ≡ true →
        AnswersEdit
        (λ edited. Sets (how_asked options) (chars key.now) (chars value.now) file.now
        edited.bytes.items)
        (RefusesSet (how_asked options) (chars key.now) (chars value.now) file.now)
        answer.new (buffers warnings.old out.old) (buffers warnings.new out.new) }
    ensures status { result ≡ answer.new.status }
{
    let told = answer_set(alloc, file, key, value, options, warnings, out);
    let status = told.status;
    *answer = told;
    status
}

// Unsets as `dotenvy_unset` does, and tells what came of it.
fn answer_unset(
    alloc: Global,
    file: &[u8],
    key: &[u8],
    options: u32,
    warnings: &mut [ToldWarning],
    out: &mut [u8],
) -> Edit
    ensures option { are_among options NEXT_DIALECT ≡ false →
        RefusesEdit BAD_OPTION 0 result (buffers warnings.old out.old)
        (buffers warnings.new out.new) }
    ensures key { are_among options NEXT_DIALECT ≡ true → is_utf8 key.now ≡ false →
        RefusesEdit NO_KEY 0 result (buffers warnings.old out.old)
        (buffers warnings.new out.new) }
    ensures unsets { are_among options NEXT_DIALECT ≡ true → is_utf8 key.now ≡ true →
        AnswersEdit
        (λ edited. Unsets (dialect_of options) (chars key.now) file.now edited.bytes.items)
        (RefusesUnset (dialect_of options) (chars key.now) file.now)
        result (buffers warnings.old out.old) (buffers warnings.new out.new) }
{
    if !are_among(options, NEXT_DIALECT) {
        return refused_edit(BAD_OPTION, 0);
    }
    let Ok(key) = str::from_utf8(key) else {
        return refused_edit(NO_KEY, 0);
    };
    let outcome = unset(alloc, file, key, dialect_of(options));
    answer_edit(alloc, outcome, warnings, out)
}

/// Unsets a key of a file, and writes the new file to `out`, and the names of the warnings after it. The lines that
/// assign the key are gone, with their comments. Every other byte stays; one empty line is left where the file would
/// else begin with a byte order mark that it had not.
///
/// Where a buffer is too short, it is as in `dotenvy_set`.
///
/// What came of it is written to `answer`, and its status is returned, too.
///
/// The specification is that of `dotenvy_editor::edit`. The status is 7 for a key that is not UTF-8, as for one that is
/// no key; or that of the reason of a refusal. Then `fits` is false, and neither buffer changed.
#[unsafe(no_mangle)]
pub extern "C" fn dotenvy_unset(
    alloc: Global,
    file: &[u8],
    key: &[u8],
    options: u32,
    answer: &mut Edit,
    warnings: &mut [ToldWarning],
    out: &mut [u8],
) -> u32
    ensures option { are_among options NEXT_DIALECT ≡ false →
        RefusesEdit BAD_OPTION 0 answer.new (buffers warnings.old out.old)
        (buffers warnings.new out.new) }
    ensures key { are_among options NEXT_DIALECT ≡ true → is_utf8 key.now ≡ false →
        RefusesEdit NO_KEY 0 answer.new (buffers warnings.old out.old)
        (buffers warnings.new out.new) }
    ensures unsets { are_among options NEXT_DIALECT ≡ true → is_utf8 key.now ≡ true →
        AnswersEdit
        (λ edited. Unsets (dialect_of options) (chars key.now) file.now edited.bytes.items)
        (RefusesUnset (dialect_of options) (chars key.now) file.now)
        answer.new (buffers warnings.old out.old) (buffers warnings.new out.new) }
    ensures status { result ≡ answer.new.status }
{
    let told = answer_unset(alloc, file, key, options, warnings, out);
    let status = told.status;
    *answer = told;
    status
}
