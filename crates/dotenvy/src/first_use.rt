//! The values of an environment, into which the first use loads `.env`.
ghost use Rattle.std.specs.Prelude.{◌≡◌, ◌⊎◌, Err, IfErr, IfOk, None, Ok, OnErr, OnOk, false, true};
ghost use Rattle.std.specs.FinMap as fin;
ghost use Rattle.dotenvy_base.specs.Environment.{KeepsNames};
ghost use Rattle.dotenvy_base.specs.Errors.{IsMemory, IsMemoryErr};
ghost use Rattle.dotenvy.specs.FirstUse.{AnswersVar};
ghost use Rattle.dotenvy_items.specs.LoadsRest.{ChangesKeys};

use crate::files::dotenv;
use dotenvy_base::environment::{Environment, Vars, mark_loaded};
use dotenvy_base::errors::{Error, Result, VarError};
use std::alloc::{Alloc, Allocator};
use std::env::Env;
use std::fs::Files;
use std::path::PathBuf;

/// The value of a name, after the first use: the first call of `var` or [`vars`] with an environment loads `.env` into
/// it by [`dotenv`], and sets its `loaded` flag (docs/GRAMMAR.md, "Finding the file").
///
/// A fault of that load is ignored: what is before it in the file is set. The error is `EnvVar` if the name has no
/// value, and otherwise `Memory`. If an allocation of the load failed, the flag stays, and the next use loads again.
///
/// If the flag is set by then and the name has no value, the error is `EnvVar` and never `Memory`. No clause tells an
/// allocation of the load, after which the flag stays, from one of the copy, which leaves it set; of `mark_after`,
/// which takes the result of the load, it is proved.
///
/// ```
/// let mut environment = Environment::from_process(&rt)?;
/// let port = var(&rt, &mut environment, "PORT")?;
/// ```
pub fn var<A: Allocator + Clone, R: Files + Env + Alloc<A = A>>(
    rt: &R,
    env: &mut Environment<A>,
    key: &str,
) -> Result<String<A>, A>
    ensures marked { env.old.loaded ≡ true → env.new ≡ env.old }
    ensures keeps { KeepsNames env.old.names env.new.names }
    ensures keys { ChangesKeys env.old.names env.new.names }
    ensures mark { (env.new.loaded ≡ true) ⊎ IsMemoryErr result }

    // Of the environment as it stands now. Where the mark is set, only a copy of a value takes memory.
    ensures answer { IsMemoryErr result ⊎ AnswersVar (fin.get env.new.names key.now) result }
    ensures absent { env.new.loaded ≡ true → fin.get env.new.names key.now ≡ None →
        result ≡ Err (Error.EnvVar VarError.NotPresent) }
{
    load_once(rt, env)?;
    match env.get(key) {
        Some(value) => Ok(String::from_str(rt.alloc(), value)?),
        None => Err(Error::EnvVar(VarError::NotPresent)),
    }
}

/// All names and their values, on their own, after the first use (see [`var`]). The error is `Memory`.
///
/// ```
/// for (name, value) in vars(&rt, &mut environment)? {
///     println!(rt; "{name}={value}")?;
/// }
/// ```
pub fn vars<A: Allocator + Clone, R: Files + Env + Alloc<A = A>>(
    rt: &R,
    env: &mut Environment<A>,
) -> Result<Vars<A>, A>
    ensures marked { env.old.loaded ≡ true → env.new ≡ env.old }
    ensures keeps { KeepsNames env.old.names env.new.names }
    ensures keys { ChangesKeys env.old.names env.new.names }
    ensures mark { (env.new.loaded ≡ true) ⊎ IsMemoryErr result }
    ensures pairs { IfOk result (λ pairs. pairs ≡ fin.entries env.new.names) }
    ensures memory { IfErr result IsMemory }
{
    load_once(rt, env)?;
    Ok(env.try_clone()?.into_iter())
}

// Loads `.env` where the mark isn't set, and sets it, unless memory was refused within the load.
fn load_once<A: Allocator + Clone, R: Files + Env + Alloc<A = A>>(
    rt: &R,
    env: &mut Environment<A>,
) -> Result<(), A>
    ensures marked { env.old.loaded ≡ true → env.new ≡ env.old }
    ensures keeps { KeepsNames env.old.names env.new.names }
    ensures keys { ChangesKeys env.old.names env.new.names }
    ensures ok { OnOk result (env.new.loaded ≡ true) }
    ensures refused { OnErr result (env.new.loaded ≡ false) }
    ensures memory { IfErr result IsMemory }
{
    if env.loaded() {
        return Ok(());
    }
    let load = dotenv(rt, env);
    mark_after(load, env)
}

// Sets the mark after this load. A fault of the load is no fault of the use, but for refused memory, which leaves the
// mark as it is.
fn mark_after<A: Allocator>(load: Result<PathBuf<A>, A>, env: &mut Environment<A>) -> Result<(), A>
    ensures refused { IsMemoryErr load → IsMemoryErr result × (env.new ≡ env.old) }
    ensures used { IsMemoryErr load
        ⊎ ((result ≡ Ok tt) × (env.new ≡ record env.old { loaded = true })) }
{
    if let Err(Error::Memory(refused)) = load {
        return Err(Error::Memory(refused));
    }
    mark_loaded(env);
    Ok(())
}
