//! Sets, unsets and renames a key.

ghost use Rattle.std.specs.Prelude.{◌≡◌, IfErr, IfOk, IsTrue, None, OnOk, chars, not, true};
ghost use Rattle.dotenvy.specs.Keys.{is_key};
ghost use Rattle.dotenvy_editor.specs.Edits.{Renames, Sets, Unsets, has_mark as marked};
ghost use Rattle.dotenvy_editor.specs.Portable.{value_refusal};
ghost use Rattle.dotenvy_editor.specs.Refusals.{IsRefused, RefusesRename, RefusesSet, RefusesUnset};
ghost use Rattle.dotenvy_editor.specs.Warnings.{TellsRename, TellsSet, TellsUnset};

use crate::change::Change;
use crate::editing::{Editing, split_mark};
use crate::forms::has;
use crate::portable;
use crate::refusal::{Reason, Unedited, Unportable, refused};
use crate::warning::Edited;
use crate::writing::{How, Setting};
use dotenvy::{Dialect, is_key};
use std::alloc::Allocator;

// Whether the text is a key, or else the refusal.
fn check_key(key: &str) -> Result<(), Unedited>
    ensures key { OnOk result (IsTrue (is_key (chars key.now))) }
    ensures refused { IfErr result (IsRefused (λ reason line.
        (reason ≡ Reason.Key) × (line ≡ 0) × IsTrue (not (is_key (chars key.now))))) }
{
    if is_key(key) {
        Ok(())
    } else {
        Err(refused(Reason::Key, 0))
    }
}

// Refuses a setting that no file can have.
fn check_setting(setting: &Setting<'_>, has_mark: bool) -> Result<(), Unedited>
    ensures key { OnOk result (IsTrue (is_key (chars setting.now.key.now))) }
    ensures value { OnOk result (setting.now.how.is_portable ≡ true →
        value_refusal (chars setting.now.value.now) ≡ None) }
    ensures refused { (bytes : _) → has_mark ≡ marked bytes → IfErr result
        (IsRefused (RefusesSet setting.now.how (chars setting.now.key.now)
        (chars setting.now.value.now) bytes)) }
{
    check_key(setting.key)?;
    if has(setting.value, '\0') {
        return Err(refused(Reason::Nul, 0));
    }
    if !setting.how.is_portable {
        return Ok(());
    }
    if has_mark {
        return Err(refused(Reason::Unportable(Unportable::Mark), 1));
    }
    match portable::value_refusal(setting.value) {
        Some(reason) => Err(refused(Reason::Unportable(reason), 0)),
        None => Ok(()),
    }
}

// How many bytes the file may have once the setting is made, or the greatest number where that is less.
fn room_for(bytes: &[u8], setting: &Setting<'_>) -> usize {
    let ends = "\r\n=\"\"\r\n".len();
    bytes
        .len()
        .saturating_add(setting.key.len())
        .saturating_add(setting.value.len().saturating_mul(2))
        .saturating_add(ends)
}

/// Sets a key to a value: the first line that assigns it has the value, and later ones are gone. Where no line assigns
/// it, a last line does. Everything else stays byte for byte, but a last line gets its end before one is appended.
///
/// Of the line all but the value stays: blanks, `export`, the comment, the end. The value is written in the first form
/// that reads back as this text, whatever names stand for: the old form, if it means the text; the old quotes, if no
/// escape is needed in them; plain; in single quotes; in double quotes.
///
/// ```
/// let edited = set(alloc, b"export PORT = 1  # of the server\n", "PORT", "80", how)?;
/// // edited.bytes is `export PORT = 80  # of the server` and a line feed
/// ```
pub fn set<A: Allocator + Clone>(
    alloc: A,
    bytes: &[u8],
    key: &str,
    value: &str,
    how: How,
) -> Result<Edited<A>, Unedited>
    ensures sets { IfOk result (λ edited. Sets how (chars key.now) (chars value.now) bytes.now
        edited.bytes.items) }
    ensures refused { IfErr result
        (IsRefused (RefusesSet how (chars key.now) (chars value.now) bytes.now)) }
    // The warnings are told kind by kind, each kind in order. In which order several kinds come is left open, as is
    // which refusal is told where two hold.
    ensures told { IfOk result (λ edited. TellsSet how (chars key.now) (chars value.now) bytes.now
        edited.warnings.items) }
{
    let (mark, body) = split_mark(bytes);
    let setting = Setting { key, value, how };
    check_setting(&setting, !mark.is_empty())?;
    let room = room_for(bytes, &setting);
    let mut editing = Editing::new(alloc, Change::Set(setting), mark, room)?;
    editing.telling.tell_dollar(value, how.dialect)?;
    editing.edit_lines(body)?;
    editing.append(&setting, body)?;
    Ok(editing.finish())
}

/// Unsets a key: the lines that assign it are gone, with their comments. Everything else stays byte for byte. An empty
/// line is left where the file would else begin with a byte order mark that it had not.
///
/// ```
/// let edited = unset(alloc, b"A=1\nB=2\n", "A", Dialect::V15)?;
/// // edited.bytes is `B=2` and a line feed
/// ```
pub fn unset<A: Allocator + Clone>(
    alloc: A,
    bytes: &[u8],
    key: &str,
    dialect: Dialect,
) -> Result<Edited<A>, Unedited>
    ensures unsets { IfOk result
        (λ edited. Unsets dialect (chars key.now) bytes.now edited.bytes.items) }
    ensures refused { IfErr result (IsRefused (RefusesUnset dialect (chars key.now) bytes.now)) }
    ensures told { IfOk result
        (λ edited. TellsUnset dialect (chars key.now) bytes.now edited.warnings.items) }
{
    check_key(key)?;
    let (mark, body) = split_mark(bytes);
    let change = Change::Unset(key, dialect);
    let mut editing = Editing::new(alloc, change, mark, bytes.len())?;
    editing.edit_lines(body)?;
    editing.check_found()?;
    Ok(editing.finish())
}

/// Renames a key: the lines that assign it assign the new key, and nothing else of them changes. It is refused if a
/// line assigns the new key already.
///
/// ```
/// let edited = rename(alloc, b"export A=1 # first\n", "A", "B", Dialect::V15)?;
/// // edited.bytes is `export B=1 # first` and a line feed
/// ```
pub fn rename<A: Allocator + Clone>(
    alloc: A,
    bytes: &[u8],
    old: &str,
    new: &str,
    dialect: Dialect,
) -> Result<Edited<A>, Unedited>
    ensures renames { IfOk result
        (λ edited. Renames (chars old.now) (chars new.now) bytes.now edited.bytes.items) }
    ensures refused { IfErr result
        (IsRefused (RefusesRename (chars old.now) (chars new.now) bytes.now)) }
    ensures told { IfOk result
        (λ edited. TellsRename dialect (chars old.now) bytes.now edited.warnings.items) }
{
    check_key(old)?;
    check_key(new)?;
    let (mark, body) = split_mark(bytes);
    let change = Change::Rename(old, new, dialect);
    let mut editing = Editing::new(alloc, change, mark, bytes.len())?;
    editing.edit_lines(body)?;
    editing.check_found()?;
    match editing.notes.present {
        Some(line) => Err(refused(Reason::Present, line)),
        None => Ok(editing.finish()),
    }
}
