//! The value that a load of a file gives a name.

ghost use Rattle.std.specs.Prelude.{◌≡◌, IfErr, IfOk, string_bytes};
ghost use Rattle.dotenvy_edit_command.specs.Edited.{bytes_of};
ghost use Rattle.dotenvy_edit_command.specs.Ends.{IsWrongCall};
ghost use Rattle.dotenvy_edit_command.specs.Loaded.{IsLackAfter, IsUnreadOf, LoadsValue};

use crate::edits::{Old, place};
use crate::failure::Failure;
use dotenvy::{Bytes, Environment, Error, Iter};
use dotenvy_editor::refusal::{Reason, Refusal};
use std::alloc::{AllocError, Allocator};

/// The value that a name has after a load of this file alone, into an empty environment: that of its first declaration.
/// What comes after that makes no difference.
///
/// ```
/// // of the lines A=1, B=$A, A=2 and C=two words: A is 1, B is 1, and a load stops before D
/// let value = value_in(alloc, old, "B")?;
/// ```
pub(crate) fn value_in<A: Allocator + Clone>(
    alloc: A,
    old: &Old<A>,
    name: &str,
) -> Result<String<A>, Failure<A>>
    ensures loads { LoadsValue old.now.how.dialect (bytes_of old.now.bytes)
        (string_bytes old.now.file) name.now result }
    ensures right { IfErr result (λ failure. ¬ (IsWrongCall failure)) }
{
    let mut env = Environment::new(alloc.clone()?);
    let mut file = match Iter::with_dialect(
        alloc.clone()?,
        Bytes::new(old.bytes()),
        old.how.dialect,
    ) {
        Ok(file) => file,
        Err(error) => return Err(not_read(alloc, old, error)?),
    };
    let loaded = file.load_rest(&mut env);
    match env.get(name) {
        Some(value) => Ok(String::from_str(alloc, value)?),
        None => Err(no_value(alloc, old, name, loaded, file.first_line())?),
    }
}

// Why a name has no value after a load, which stopped on this line if it has an error.
fn no_value<A: Allocator + Clone>(
    alloc: A,
    old: &Old<A>,
    name: &str,
    loaded: Result<(), Error<A>>,
    line: u64,
) -> Result<Failure<A>, AllocError>
    ensures { IfOk result (IsLackAfter (string_bytes old.now.file) name.now line loaded) }
{
    match loaded {
        Ok(()) => {
            let refusal = Refusal {
                reason: Reason::Absent,
                line: 0,
            };
            Ok(Failure::Refused(place(alloc, old, name)?, refusal))
        }
        Err(Error::Memory(refused)) => Ok(Failure::Memory(refused)),
        Err(_) => Ok(Failure::Stops(place(alloc, old, name)?, line)),
    }
}

// Why a file is not read.
fn not_read<A: Allocator>(alloc: A, old: &Old<A>, error: Error<A>) -> Result<Failure<A>, AllocError>
    ensures { IfOk result (λ failure. IsUnreadOf (string_bytes old.now.file) error failure) }
{
    Ok(Failure::File(String::from_str(alloc, old.file.as_str())?, error))
}
