//! Environments whose growth is refused.

use crate::refused::{is_done, refuse_in_turn};
use crate::shown::{pairs, sees_text};
use dotenvy::{Environment, Error, Result, is_name};
use std::alloc::{Allocator, Global};
use std::process::Abort;
use std::test::Fail;
use test_support::Rationed;
use test_support::environment::{copied, environment_of};

/// Names enough for a map of more than one node.
const NAMES: &str = "A B C D E F G H I J K L M N O P Q R S T U V W X Y Z";

/// The same names again, so that values are replaced too.
const NAMES_TWICE: &str = "A B C D E F G H I J K L M N O P Q R S T U V W X Y Z A M Z";

/// Sets one name to its place in the list of names.
fn set_to<A: Allocator + Clone>(
    alloc: A,
    environment: &mut Environment<A>,
    name: &str,
    place: usize,
) -> Result<(), A> {
    let key = copied(&alloc, name)?;
    let value = place.to_string(alloc)?;
    if !is_name(key.as_str()) {
        return Err(Error::Nul(key));
    }
    environment.set(key, value)
}

fn sets_names(
    rt: &impl Abort,
    alloc: Global,
    ration: &Rationed<Global>,
) -> std::result::Result<bool, Fail> {
    let mut environment = Environment::new(ration);
    let mut before = String::new(alloc);
    for (place, name) in NAMES_TWICE.split_whitespace().enumerate() {
        let answer = set_to(ration, &mut environment, name, place);
        let after = pairs(alloc, &environment)?;
        if !is_done(rt, ration, &answer) {
            sees_text(rt, after, before.as_str());
            return Ok(false);
        }
        before = after;
    }
    assert_eq!(rt; (environment.len(), environment.get("M")), (26, Some("27")));
    Ok(true)
}

#[test]
fn set(rt: HostRuntime) -> std::result::Result<(), Fail> {
    let alloc = rt.alloc();
    refuse_in_turn(&rt, alloc, |ration| sets_names(&rt, alloc, ration))
}

/// Each name, with the value `1`.
fn names(alloc: Global) -> std::result::Result<Vec<(String, String)>, Fail> {
    let mut names = Vec::new(alloc);
    for name in NAMES.split_whitespace() {
        names.push((copied(&alloc, name)?, copied(&alloc, "1")?))?;
    }
    Ok(names)
}

#[test]
fn from_pairs(rt: HostRuntime) -> std::result::Result<(), Fail> {
    let names = names(rt.alloc())?;
    refuse_in_turn(&rt, rt.alloc(), |ration| {
        let answer = environment_of(ration, &names);
        if let Ok(environment) = &answer {
            assert_eq!(rt; environment.len(), 26);
        }
        Ok(is_done(&rt, ration, &answer))
    })
}

fn clones_names(
    rt: &impl Abort,
    alloc: Global,
    ration: &Rationed<Global>,
    names: &[(String, String)],
) -> std::result::Result<bool, Fail> {
    let answer = environment_of(ration, names);
    if !is_done(rt, ration, &answer) {
        return Ok(false);
    }
    clones(rt, alloc, ration, &answer?)
}

fn clones<A: Allocator + Clone>(
    rt: &impl Abort,
    alloc: Global,
    ration: &Rationed<Global>,
    environment: &Environment<A>,
) -> std::result::Result<bool, Fail> {
    let before = pairs(alloc, environment)?;
    let copy = environment.try_clone();
    sees_text(rt, pairs(alloc, environment)?, before.as_str());
    if let Ok(copy) = &copy {
        sees_text(rt, pairs(alloc, copy)?, before.as_str());
    }
    Ok(is_done(rt, ration, &copy))
}

#[test]
fn try_clone(rt: HostRuntime) -> std::result::Result<(), Fail> {
    let alloc = rt.alloc();
    let names = names(alloc)?;
    refuse_in_turn(
        &rt,
        alloc,
        |ration| clones_names(&rt, alloc, ration, &names),
    )
}
