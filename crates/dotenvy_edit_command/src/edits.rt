//! What the tasks make of the bytes of a file, and what is said of it.

ghost use Rattle.std.specs.Prelude.{◌≡◌, ◌↔◌, IfErr, IfOk, IsTrue, Some, chars, string_bytes};
ghost use Rattle.dotenvy_words.specs.Found.{texts};
ghost use Rattle.dotenvy_edit_command.specs.Edited.{AnswersRename, AnswersSet, AnswersUnset, AnswersUnsets, IsPlace, IsRefusalOf, bytes_of, is_among, items_of, name_for, said_of};
ghost use Rattle.dotenvy_edit_command.specs.Ends.{IsWrongCall};
ghost use Rattle.dotenvy_edit_command.specs.Tasks.{old_name};

use crate::failure::{Failure, Place};
use crate::warnings::push_warnings;
use crate::words::How;
use dotenvy::is_key;
use dotenvy_editor::edit::{rename, set, unset};
use dotenvy_editor::refusal::{Reason, Unedited};
use dotenvy_editor::warning::Edited;
use dotenvy_editor::writing;
use dotenvy_reports::one_line::one_line;
use std::alloc::{AllocError, Allocator};

/// A file that is to be edited.
#[derive(Drop)]
pub struct Old<A: Allocator> {
    /// Its name, as it is printed.
    pub file: String<A>,
    /// Its bytes, or `None` if it is absent.
    pub bytes: Option<Vec<u8, A>>,
    /// How it is edited.
    pub how: How,
}

impl<A: Allocator> Old<A> {
    /// Its bytes, of which a file that is absent has none.
    pub fn bytes(&self) -> &[u8]
        ensures { result.now ≡ bytes_of self.now.bytes }
    {
        match &self.bytes {
            Some(bytes) => bytes.as_slice(),
            None => b"",
        }
    }

    /// Whether it has these bytes. One that is absent has none, not even an empty text.
    pub fn has(&self, bytes: &[u8]) -> bool
        ensures { IsTrue result ↔ (items_of self.now.bytes ≡ Some bytes.now) }
    {
        match &self.bytes {
            Some(old) => old.as_slice() == bytes,
            None => false,
        }
    }

    /// Its name in a difference, which is another one if it is absent.
    pub fn name(&self) -> &str
        ensures { result.now ≡ old_name (string_bytes self.now.file) self.now.bytes }
    {
        match &self.bytes {
            Some(_) => self.file.as_str(),
            None => "/dev/null",
        }
    }
}

/// An edit that can be made.
#[derive(Drop)]
pub struct Edit<A: Allocator> {
    /// The new bytes of the file.
    pub bytes: Vec<u8, A>,
    /// What is to be said of it.
    pub said: String<A>,
}

/// Sets a name to a value.
pub fn set_name<A: Allocator + Clone>(
    alloc: A,
    old: &Old<A>,
    name: &str,
    value: &str,
) -> Result<Edit<A>, Failure<A>>
    ensures sets { AnswersSet old.now.how (string_bytes old.now.file) (bytes_of old.now.bytes)
        name.now value.now result }
    ensures right { IfErr result (λ failure. ¬ (IsWrongCall failure)) }
{
    let how = writing::How {
        dialect: old.how.dialect,
        is_portable: old.how.is_portable,
    };
    match set(alloc.clone()?, old.bytes(), name, value, how) {
        Ok(edited) => Ok(edit_of(alloc, old, name, edited)?),
        Err(unedited) => Err(refused(alloc, old, name, unedited)?),
    }
}

/// Removes names, one after another. Lines that are told are those of the old file.
pub fn unset_names<A: Allocator + Clone>(
    alloc: A,
    old: &Old<A>,
    names: &[String<A>],
) -> Result<Edit<A>, Failure<A>>
    ensures unsets { AnswersUnsets old.now.how (string_bytes old.now.file) (bytes_of old.now.bytes)
        (texts names.now) result }
    ensures right { IfErr result (λ failure. ¬ (IsWrongCall failure)) }
{
    let mut all = Edit {
        bytes: Vec::from_slice(alloc.clone()?, old.bytes())?,
        said: String::new(alloc.clone()?),
    };
    let mut index = 0;
    'names: while index < names.len() {
        let name = names[index].as_str();
        if !is_among(&names[..index], name) {
            // The bytes of this edit, which may be as many as the file has, are freed before the next one is made.
            let said = unset_name(&alloc, old, old.bytes(), name)?.said;
            all.said.push_str(said.as_str())?;
            all.bytes = unset_name(&alloc, old, all.bytes.as_slice(), name)?.bytes;
        }
        index += 1;
    }
    Ok(all)
}

// Whether a name is one of these.
fn is_among<A: Allocator>(names: &[String<A>], name: &str) -> bool
    ensures { result ≡ is_among (texts names.now) name.now }
{
    'names: for other in names {
        if other.as_str() == name {
            return true;
        }
    }
    false
}

// Removes a name from these bytes, which are those of the file, or what is left of them.
fn unset_name<A: Allocator + Clone>(
    alloc: &A,
    old: &Old<A>,
    bytes: &[u8],
    name: &str,
) -> Result<Edit<A>, Failure<A>>
    ensures unsets { AnswersUnset old.now.how (string_bytes old.now.file) bytes.now name.now
        result }
    ensures right { IfErr result (λ failure. ¬ (IsWrongCall failure)) }
{
    match unset(alloc.clone()?, bytes, name, old.how.dialect) {
        Ok(edited) => Ok(edit_of(alloc.clone()?, old, name, edited)?),
        Err(unedited) => Err(refused(alloc.clone()?, old, name, unedited)?),
    }
}

/// Renames a name.
pub fn rename_name<A: Allocator + Clone>(
    alloc: A,
    old: &Old<A>,
    name: &str,
    new: &str,
) -> Result<Edit<A>, Failure<A>>
    ensures renames { AnswersRename old.now.how (string_bytes old.now.file) (bytes_of old.now.bytes)
        name.now new.now result }
    ensures right { IfErr result (λ failure. ¬ (IsWrongCall failure)) }
{
    match rename(alloc.clone()?, old.bytes(), name, new, old.how.dialect) {
        Ok(edited) => Ok(edit_of(alloc, old, name, edited)?),
        Err(unedited) => {
            let told = refused_name(name, new, &unedited);
            Err(refused(alloc, old, told, unedited)?)
        }
    }
}

// Which of the two names a rename is refused for.
fn refused_name<'a>(old: &'a str, new: &'a str, unedited: &Unedited) -> &'a str
    ensures { result.now ≡ name_for old.now new.now unedited.now }
{
    let Unedited::Refused(refusal) = unedited else {
        return old;
    };
    match refusal.reason {
        Reason::Present => new,
        Reason::Key => { if is_key(old) { new } else { old } }
        _ => old,
    }
}

// The edit, with what is to be said of it.
fn edit_of<A: Allocator + Clone>(
    alloc: A,
    old: &Old<A>,
    name: &str,
    edited: Edited<A>,
) -> Result<Edit<A>, AllocError>
    ensures bytes { IfOk result (λ edit. edit.bytes.items ≡ edited.bytes.items) }
    ensures said { IfOk result (λ edit. string_bytes edit.said
        ≡ said_of old.now.how.is_quiet (string_bytes old.now.file) name.now edited.warnings.items) }
{
    let Edited { bytes, warnings } = edited;
    let mut said = String::new(alloc.clone()?);
    if !old.how.is_quiet {
        let name = one_line(alloc, name)?;
        push_warnings(
            &mut said,
            old.file.as_str(),
            name.as_str(),
            warnings.as_slice(),
        )?;
    }
    Ok(Edit { bytes, said })
}

// Why an edit of this name in this file is not made.
fn refused<A: Allocator + Clone>(
    alloc: A,
    old: &Old<A>,
    name: &str,
    unedited: Unedited,
) -> Result<Failure<A>, AllocError>
    ensures place { IfOk result (IsRefusalOf (string_bytes old.now.file) (λ _. name.now)
        (λ told. told ≡ unedited)) }
    ensures right { IfOk result (λ failure. ¬ (IsWrongCall failure)) }
{
    match unedited {
        Unedited::Refused(refusal) => Ok(Failure::Refused(place(alloc, old, name)?, refusal)),
        Unedited::Memory(refused) => Err(refused),
    }
}

/// A name in the file.
pub(crate) fn place<A: Allocator + Clone>(
    alloc: A,
    old: &Old<A>,
    name: &str,
) -> Result<Place<A>, AllocError>
    ensures { IfOk result (IsPlace (string_bytes old.now.file) name.now) }
{
    Ok(Place {
        file: String::from_str(alloc.clone()?, old.file.as_str())?,
        name: one_line(alloc, name)?,
    })
}
