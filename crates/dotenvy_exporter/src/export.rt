//! Pairs, written for other readers of environment files.

ghost use Rattle.std.specs.Prelude.{◌≡◌, IfOk, IsNone, chars};
ghost use Rattle.std.specs.Option.{option_map};
ghost use Rattle.dotenvy_items.specs.Listed.{pairs_of};
ghost use Rattle.dotenvy_exporter.specs.Laws.{AreTexts};
ghost use Rattle.dotenvy_exporter.specs.Targets.{WritesFor, first_refusal, refusal, refusal_of, written_for};

use crate::lines::{Form, lines};
use crate::refusal::{Reason, Refusal};
use crate::target::Target;
use crate::{docker, exec, kubernetes, object, shell, systemd};
use dotenvy::{Environment, Error, Sink};
use dotenvy_base::output::{MOST_WRITES, write_all};
use dotenvy_items::written::listing;
use std::alloc::{AllocError, Allocator, Global};

/// Why pairs are not written.
///
/// ```
/// match write_for(alloc, Target::Systemd, &environment, &mut writer) {
///     Err(Unwritten::Refused(refused)) => println!(rt; "{} can't be written", refused.name)?,
///     outcome => { outcome?; }
/// }
/// ```
#[derive(Drop)]
pub enum Unwritten<A: Allocator = Global> {
    /// The target can't be given a pair.
    Refused(Refusal<A>),
    /// They could not be written. A first part may have been.
    Write(Error<A>),
    /// An allocation failed, and nothing was written.
    Memory(AllocError),
}

impl<A: Allocator> From<AllocError> for Unwritten<A> {
    ghost use Rattle.dotenvy_exporter.specs.Laws.{AreTexts};
    ghost use Rattle.dotenvy_exporter.specs.Targets.{IsMemory};

    ghost from_gives = { λ _ unwritten. IsMemory unwritten };

    fn from(failed: AllocError) -> Unwritten<A> {
        Unwritten::Memory(failed)
    }
}

/// Writes each pair of the environment for this target, in byte order of the names. The target reads of it exactly these
/// pairs.
///
/// All is built before the first write: if a pair is refused, or an allocation fails, nothing was written.
///
/// `Unwritten::Refused` has the first pair that the target can't be given. Of several reasons it has the first: the
/// name, a name that shells keep, a NUL, what else is wrong. After `Unwritten::Write` a beginning was appended, and not
/// the whole.
///
/// ```
/// // of A=`it's`, for a shell: export A='it'\''s'
/// write_for(alloc, Target::Sh, &environment, &mut writer)?;
/// ```
pub fn write_for<W: Sink, A: Allocator + Clone>(
    alloc: A,
    target: Target,
    env: &Environment<A>,
    writer: &mut W,
) -> Result<(), Unwritten<A>>
    ensures { WritesFor W.told target (pairs_of env.now.names) writer.old writer.new result }
{
    if let Some(refused) = first_refusal(alloc.clone()?, target, env)? {
        return Err(Unwritten::Refused(refused));
    }
    let bytes = bytes_for(alloc, target, env)?;
    match write_all(writer, bytes.as_slice(), MOST_WRITES) {
        Ok(()) => Ok(()),
        Err(error) => Err(Unwritten::Write(error)),
    }
}

/// Why the target can't be given this pair, if it can't.
///
/// ```
/// // a shell can't be given UID=1000: it keeps the name for itself
/// let reason = refusal(Target::Sh, "UID", "1000"); // Some(Reason::Reserved)
/// ```
pub fn refusal(target: Target, name: &str, value: &str) -> Option<Reason>
    ensures { result ≡ refusal target (chars name.now, chars value.now) }
{
    match target {
        Target::Docker => docker::refusal(name, value),
        Target::Kubernetes => kubernetes::refusal(name, value),
        Target::Systemd => systemd::refusal(name, value),
        Target::Sh => shell::refusal(name, value),
        Target::Json => None,
        Target::Exec => exec::refusal(name, value),
    }
}

// The first pair that the target can't be given.
fn first_refusal<A: Allocator + Clone>(
    alloc: A,
    target: Target,
    env: &Environment<A>,
) -> Result<Option<Refusal<A>>, AllocError>
    ensures refused { IfOk result (λ refused. option_map refusal_of refused
        ≡ first_refusal target (pairs_of env.now.names)) }
    ensures texts { IfOk result (λ refused. IsNone refused → AreTexts (pairs_of env.now.names)) }
{
    'pairs: for (name, value) in env.iter() {
        if let Some(reason) = refusal(target, name.as_str(), value.as_str()) {
            let name = String::from_str(alloc, name.as_str())?;
            return Ok(Some(Refusal { name, reason }));
        }
    }
    Ok(None)
}

// What is written for the target.
fn bytes_for<A: Allocator + Clone>(
    alloc: A,
    target: Target,
    env: &Environment<A>,
) -> Result<Vec<u8, A>, AllocError>
    ensures { IfOk result (λ bytes. bytes.items ≡ written_for target (pairs_of env.now.names)) }
{
    let form = match target {
        Target::Docker | Target::Kubernetes => Form::Docker,
        Target::Systemd => return Ok(listing(alloc, env)?.into_bytes()),
        Target::Sh => Form::Shell,
        Target::Json => return object::bytes(alloc, env),
        Target::Exec => Form::Exec,
    };
    let text = lines(alloc, form, env)?;
    Ok(text.into_bytes())
}
