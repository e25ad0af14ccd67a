//! What is written and what is said, of the contents of files.

ghost use Rattle.std.specs.Prelude.{◌≡◌, ◌⊎◌, ◌<◌, ◌++◌, IfErr, IfOk, OnErr, OnOk, chars, length, map, string_bytes};
ghost use Rattle.dotenvy_base.specs.Errors.{IsMemory};
ghost use Rattle.dotenvy_items.specs.Listed.{pairs_of};
ghost use Rattle.dotenvy_words.specs.Found.{texts};
ghost use Rattle.dotenvy_export_command.specs.Exports.{is_reserved, kept_pairs, names_left_out, warning, warnings, Exports, IsStopOf, IsUnwritten, IsWrite};
ghost use Rattle.dotenvy_export_command.specs.Failures.{IsMemoryEnd};

use crate::failure::Failure;
pub use crate::inputs::Inputs;
use crate::words::How;
use dotenvy::{Environment, Error, Sink};
use dotenvy_exporter::declared::{Loading, Stopped, declared};
use dotenvy_exporter::export::{Unwritten, refusal, write_for};
use dotenvy_exporter::refusal::Reason;
use dotenvy_exporter::target::Target;
use dotenvy_reports::one_line::{one_line, push_one_line};
use std::alloc::{AllocError, Allocator};

/// Writes for the target what the files declare, over the environment, and returns the warnings that are to be said.
///
/// Pairs with a name that the target keeps are left out if `how` asks for it: none, unless the target is a shell. There
/// is a warning for each, in byte order of the names. After `Nul`, `Line`, `Refused` and `Memory` nothing was written.
/// Keys and names in them are as they are printed, on one line, and no value is in them.
///
/// ```
/// // of a file with the line `A=it's`, for a shell, it writes export A='it'\''s'
/// let warnings = export(alloc, how, &inputs, &mut writer)?;
/// ```
pub fn export<W: Sink, A: Allocator + Clone>(
    alloc: A,
    how: How,
    inputs: &Inputs<A>,
    writer: &mut W,
) -> Result<String<A>, Failure<A>>
    ensures { Exports W.told how inputs.now writer.old writer.new result }
{
    let loading = Loading {
        env: &inputs.env,
        mode: how.mode,
        dialect: how.dialect,
    };
    let loaded = declared(alloc.clone()?, inputs.contents.as_slice(), &loading);
    let env = match loaded {
        Ok(env) => env,
        Err(stopped) => return Err(stop(alloc, inputs.names.as_slice(), stopped)?),
    };
    let kept = without_reserved(alloc.clone()?, how, env)?;
    let warnings = warnings(alloc.clone()?, kept.left_out.as_slice())?;
    match write_for(alloc.clone()?, how.target, &kept.env, writer) {
        Ok(()) => Ok(warnings),
        Err(unwritten) => Err(not_written(alloc, how.target, unwritten)?),
    }
}

// Why nothing is written if a load stops.
fn stop<A: Allocator + Clone>(
    alloc: A,
    names: &[String<A>],
    stopped: Stopped<A>,
) -> Result<Failure<A>, AllocError>
    requires { IsMemory stopped.error ⊎ stopped.file < length names.now }
    ensures { IfOk result (IsStopOf (texts names.now) stopped) }
{
    if let Error::Memory(refused) = stopped.error {
        return Err(refused);
    }
    let file = match names.get(stopped.file) {
        Some(name) => String::from_str(alloc.clone()?, name.as_str())?,
        None => unreachable!(),
    };
    let line = stopped.line;
    match stopped.error {
        Error::Nul(name) => {
            let name = one_line(alloc, name.as_str())?;
            Ok(Failure::Nul(file, line, name))
        }
        _ => Ok(Failure::Line(file, line)),
    }
}

// Why pairs are not written.
fn not_written<A: Allocator>(
    alloc: A,
    target: Target,
    unwritten: Unwritten<A>,
) -> Result<Failure<A>, AllocError>
    ensures told { IfOk result (IsUnwritten target unwritten) }
    ensures memory { OnErr result (¬ (IsWrite unwritten)) }
{
    match unwritten {
        Unwritten::Refused(refused) => {
            let name = one_line(alloc, refused.name.as_str())?;
            Ok(Failure::Refused(target, name, refused.reason))
        }
        Unwritten::Write(error) => Ok(Failure::Write(error)),
        Unwritten::Memory(refused) => Err(refused),
    }
}

// The names that are written, and those that are left out.
#[derive(Drop)]
struct Kept<A: Allocator> {
    env: Environment<A>,
    left_out: Vec<String<A>, A>,
}

// Leaves the names out that the target keeps for itself, if that is asked for.
fn without_reserved<A: Allocator + Clone>(
    alloc: A,
    how: How,
    env: Environment<A>,
) -> Result<Kept<A>, Failure<A>>
    ensures kept { IfOk result (λ all. pairs_of all.env.names ≡ kept_pairs how (pairs_of env.names)) }
    ensures left_out { IfOk result
        (λ all. map chars (texts all.left_out.items) ≡ names_left_out how (pairs_of env.names)) }
    ensures memory { IfErr result IsMemoryEnd }
{
    let mut left_out = Vec::new(alloc.clone()?);
    if !how.skips_reserved {
        return Ok(Kept { env, left_out });
    }
    let mut pairs = Vec::new(alloc.clone()?);
    'pairs: for (name, value) in env {
        if is_reserved(how.target, name.as_str(), value.as_str()) {
            left_out.push(name)?;
        } else {
            pairs.push((name, value))?;
        }
    }
    match Environment::from_pairs(alloc, pairs) {
        Ok(env) => Ok(Kept { env, left_out }),
        Err(Error::Memory(refused)) => Err(Failure::Memory(refused)),
        Err(_) => unreachable!(),
    }
}

// Whether a target keeps the name for itself.
fn is_reserved(target: Target, name: &str, value: &str) -> bool
    ensures { result ≡ is_reserved target (chars name.now, chars value.now) }
{
    matches!(refusal(target, name, value), Some(Reason::Reserved))
}

// What is said of the names that are left out.
fn warnings<A: Allocator>(alloc: A, names: &[String<A>]) -> Result<String<A>, AllocError>
    ensures { IfOk result
        (λ text. string_bytes text ≡ warnings (map chars (texts names.now))) }
{
    let mut text = String::new(alloc);
    'names: for name in names {
        push_warning(&mut text, name.as_str())?;
    }
    Ok(text)
}

// Appends what is said of a name that is left out.
fn push_warning<A: Allocator>(text: &mut String<A>, name: &str) -> Result<(), AllocError>
    ensures { OnOk result (string_bytes text.new
        ≡ string_bytes text.old ++ warning (chars name.now)) }
{
    text.push_str("dotenvy_export: warning: ")?;
    push_one_line(text, name)?;
    text.push_str(": shells keep this name, so it is left out\n")?;
    Ok(())
}
