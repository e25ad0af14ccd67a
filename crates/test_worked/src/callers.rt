//! Small callers, as users of the library write them: what the library gives they hand back to `set`, and need no test
//! of their own for it.

use crate::shown::{environment, pairs, sees_text, vars_without_files};
use dotenvy::{Bytes, Environment, Iter, Result, Vars, is_key};
use std::alloc::Global;
use std::test::Fail;

/// The names of an environment with their values, in one of its own whose mark isn't set.
pub fn copied(alloc: Global, environment: &Environment) -> Result<Environment> {
    let mut copy = Environment::new(alloc);
    for (name, value) in environment.iter() {
        let name = String::from_str(alloc, name.as_str())?;
        let value = String::from_str(alloc, value.as_str())?;
        copy.set(name, value)?;
    }
    Ok(copy)
}

/// Sets each name of another environment.
pub fn set_all(alloc: Global, environment: &mut Environment, others: &Environment) -> Result<()> {
    for (name, value) in others {
        let name = String::from_str(alloc, name.as_str())?;
        let value = String::from_str(alloc, value.as_str())?;
        environment.set(name, value)?;
    }
    Ok(())
}

/// Sets each name that `vars` gave.
pub fn set_vars(environment: &mut Environment, vars: Vars) -> Result<()> {
    for (name, value) in vars {
        environment.set(name, value)?;
    }
    Ok(())
}

/// Sets a name where it is one that a file can declare, and says whether it is.
pub fn set_key(environment: &mut Environment, name: String, value: String) -> Result<bool> {
    if !is_key(name.as_str()) {
        return Ok(false);
    }
    environment.set(name, value)?;
    Ok(true)
}

/// Sets each pair of a file, where a name in a value means what `names` has.
pub fn set_items(
    alloc: Global,
    environment: &mut Environment,
    file: &[u8],
    names: &Environment,
) -> Result<()> {
    let mut file = Iter::new(alloc, Bytes::new(file))?;
    for item in file.items(names) {
        let (name, value) = item?;
        environment.set(name, value)?;
    }
    Ok(())
}

fn two_names(alloc: Global) -> std::result::Result<Environment, Fail> {
    environment(alloc, &[("A", "1"), ("not a key", "")])
}

#[test]
fn names_can_be_copied(rt: HostRuntime) -> std::result::Result<(), Fail> {
    let alloc = rt.alloc();
    let copy = copied(alloc, &two_names(alloc)?)?;
    sees_text(&rt, pairs(alloc, &copy)?, "A=1; not a key=");
    Ok(())
}

#[test]
fn names_of_another_environment_can_be_set(rt: HostRuntime) -> std::result::Result<(), Fail> {
    let alloc = rt.alloc();
    let mut set = environment(alloc, &[("A", "0"), ("B", "2")])?;
    set_all(alloc, &mut set, &two_names(alloc)?)?;
    sees_text(&rt, pairs(alloc, &set)?, "A=1; B=2; not a key=");
    Ok(())
}

#[test]
fn names_of_a_snapshot_can_be_set(rt: HostRuntime) -> std::result::Result<(), Fail> {
    let alloc = rt.alloc();
    let vars = vars_without_files(rt, &mut two_names(alloc)?)?;
    let mut set = Environment::new(alloc);
    set_vars(&mut set, vars)?;
    sees_text(&rt, pairs(alloc, &set)?, "A=1; not a key=");
    Ok(())
}

// Whether the name was set, to 1.
fn set_one(alloc: Global, environment: &mut Environment, name: &str) -> Result<bool> {
    let name = String::from_str(alloc, name)?;
    set_key(environment, name, String::from_str(alloc, "1")?)
}

#[test]
fn keys_can_be_set(rt: HostRuntime) -> std::result::Result<(), Fail> {
    let alloc = rt.alloc();
    let mut set = Environment::new(alloc);
    for (name, want) in [("A", true), ("not a key", false), ("", false)] {
        let is_set = set_one(alloc, &mut set, name)?;
        assert_eq!(rt; is_set, want, "{name}");
    }
    sees_text(&rt, pairs(alloc, &set)?, "A=1");
    Ok(())
}

#[test]
fn items_can_be_set(rt: HostRuntime) -> std::result::Result<(), Fail> {
    let alloc = rt.alloc();
    let mut set = environment(alloc, &[("A", "1")])?;
    set_items(alloc, &mut set, b"B=$A\nC=$B\n", &Environment::new(alloc))?;
    sees_text(&rt, pairs(alloc, &set)?, "A=1; B=; C=");
    Ok(())
}
