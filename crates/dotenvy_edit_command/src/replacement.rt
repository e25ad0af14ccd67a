//! How a file is replaced whole, step by step, over anything that takes the steps. The file has its old bytes or all of
//! the new ones.

ghost use Rattle.std.specs.Prelude.{◌≡◌, ◌≢◌, ◌↔◌, Bool, true, false, Option, None, Some, Ok, IfErr, IfOk, IsTrue, is_err, is_ok, is_some};
ghost use Rattle.std.specs.Option.{option_copied};
ghost use Rattle.dotenvy_edit_command.specs.declared.step.Step.TheVariants as step;
ghost use Rattle.dotenvy_edit_command.specs.Replacing.{Fills, HasRead, IsAlone, IsEmpty, IsReady, Known, Leaves, LeavesWritten, Locates, Removes, Replaces, in_place, is_left, told, with_folder, with_new, with_owner, with_permissions, with_sync, without_new};

pub use crate::step::{Step, Unreplaced};
use dotenvy::Error;
use std::alloc::Allocator;
use std::io;

/// A file that can be found by a path, read, and replaced by one call for each step.
///
/// An implementation may specify, for contracts alone and as `known`, what the file has been so far, and what is beside
/// it. Then contracts say what each step leaves. One that specifies nothing can still be replaced. As `is_made` it
/// specifies whether it has made a new file that is still beside the old one: no other file is ever written or removed.
pub trait Replaceable {
    ghost is_made: { Self → Bool };

    ghost known: { Self → Option Known } = { λ _. None };

    /// Finds the file that this path leads to. One that is absent is found only where it may be.
    fn locate(&mut self, path: &str, may_be_absent: bool) -> io::Result<()>
        requires { is_made self.old ≡ false }
        ensures made { is_made self.new ≡ false }
        ensures located { Locates path.now may_be_absent (known self.old) (known self.new) result };

    /// All bytes of the file, or `None` if it is absent.
    fn read<A: Allocator + Clone>(&self, alloc: A) -> Result<Option<Vec<u8, A>>, Error<A>>
        ensures { IfOk result (HasRead (known self.now)) };

    /// Makes an empty file beside the one that is to be replaced, which only its owner can read.
    fn make(&mut self) -> io::Result<()>
        requires { is_made self.old ≡ false }
        ensures made { is_made self.new ≡ is_ok result }
        ensures leaves { Leaves step.Make with_new (known self.old) (known self.new) result };

    /// Writes these bytes to the new file.
    fn write(&mut self, bytes: &[u8]) -> io::Result<()>
        requires { is_made self.old ≡ true }
        ensures made { is_made self.new ≡ true }
        ensures leaves { LeavesWritten bytes.now (known self.old) (known self.new) result };

    /// Gives the new file the owner of the old one.
    fn keep_owner(&mut self) -> io::Result<()>
        requires { is_made self.old ≡ true }
        ensures made { is_made self.new ≡ true }
        ensures leaves { Leaves step.Owner with_owner (known self.old) (known self.new) result };

    /// Gives the new file the permissions of the old one.
    fn keep_permissions(&mut self) -> io::Result<()>
        requires { is_made self.old ≡ true }
        ensures made { is_made self.new ≡ true }
        ensures leaves { Leaves step.Permissions with_permissions (known self.old) (known self.new)
            result };

    /// Sees that all of the new file is on the disk.
    fn sync(&mut self) -> io::Result<()>
        requires { is_made self.old ≡ true }
        ensures made { is_made self.new ≡ true }
        ensures leaves { Leaves step.Sync with_sync (known self.old) (known self.new) result };

    /// Puts the new file in the place of the old one.
    fn put(&mut self) -> io::Result<()>
        requires made { is_made self.old ≡ true }
        requires ready { IsReady (known self.old) }
        ensures made { is_made self.new ≡ is_err result }
        ensures leaves { Leaves step.Put in_place (known self.old) (known self.new) result };

    /// Sees that the folder is on the disk as it is.
    fn sync_folder(&mut self) -> io::Result<()>
        ensures made { is_made self.new ≡ is_made self.old }
        ensures leaves { Leaves step.SyncFolder with_folder (known self.old) (known self.new) result };

    /// Removes the new file.
    fn remove(&mut self) -> io::Result<()>
        requires { is_made self.old ≡ true }
        ensures made { is_made self.new ≡ is_err result }
        ensures leaves { Leaves step.Remove without_new (known self.old) (known self.new) result };
}

/// Replaces a file, which has the old bytes or is absent, by the new bytes. The same bytes again change nothing.
///
/// At each moment the file has all of the old bytes, or all of the new ones. The error says which step failed, and why.
/// Then the file is the old one, unless only its folder could not be synced. The new file that this call made beside it
/// is removed; the error says so if it could not be. A file that another call made is never touched.
pub fn replace<R: Replaceable>(
    file: &mut R,
    old: Option<&[u8]>,
    new: &[u8],
) -> Result<(), Unreplaced>
    requires made { R.is_made file.old ≡ false }
    requires alone { IsAlone (R.known file.old) }

    // The same bytes: no step is taken.
    ensures same { option_copied old.entry ≡ Some new.now → (result ≡ Ok tt) × (file.new ≡ file.old) }
    ensures replaces { option_copied old.entry ≢ Some new.now
        → Replaces new.now (R.known file.old) (R.known file.new) result }

    // A new file is beside the old one only where the error says so.
    ensures made { R.is_made file.new ≡ is_left result }
{
    if is_same(old, new) {
        return Ok(());
    }
    told(Step::Make, file.make())?;
    if let Err(unfilled) = fill(file, new) {
        return Err(removed(file, unfilled));
    }
    told(Step::SyncFolder, file.sync_folder())
}

// Whether the file has these bytes already.
fn is_same(old: Option<&[u8]>, new: &[u8]) -> bool
    ensures same { IsTrue result ↔ (option_copied old.entry ≡ Some new.now) }
{
    match old {
        Some(old) => old == new,
        None => false,
    }
}

// The result of a step.
fn told(step: Step, outcome: io::Result<()>) -> Result<(), Unreplaced>
    ensures { result ≡ told step outcome }
{
    match outcome {
        Ok(()) => Ok(()),
        Err(fault) => Err(Unreplaced {
            step,
            fault,
            left: None,
        }),
    }
}

// Fills the new file, and puts it in the place of the old one.
fn fill<R: Replaceable>(file: &mut R, bytes: &[u8]) -> Result<(), Unreplaced>
    requires made { R.is_made file.old ≡ true }
    requires empty { IsEmpty (R.known file.old) }
    ensures fills { Fills bytes.now (R.known file.old) (R.known file.new) result }
    ensures made { R.is_made file.new ≡ is_err result }
    ensures none_left { IfErr result (λ unfilled. unfilled.left ≡ None) }
{
    told(Step::Write, file.write(bytes))?;
    told(Step::Owner, file.keep_owner())?;
    told(Step::Permissions, file.keep_permissions())?;
    told(Step::Sync, file.sync())?;
    told(Step::Put, file.put())
}

// Why a file is not replaced, where its new file is removed, or is left as it can't be.
fn removed<R: Replaceable>(file: &mut R, unfilled: Unreplaced) -> Unreplaced
    requires made { R.is_made file.old ≡ true }
    requires unleft { unfilled.left ≡ None }
    ensures same { (result.step ≡ unfilled.step) × (result.fault ≡ unfilled.fault) }
    ensures made { R.is_made file.new ≡ is_some result.left }
    ensures leaves { Removes (R.known file.old) (R.known file.new) result.left }
{
    match file.remove() {
        Ok(()) => unfilled,
        Err(fault) => Unreplaced {
            left: Some(fault),
            ..unfilled
        },
    }
}
