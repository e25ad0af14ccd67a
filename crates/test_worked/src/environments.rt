//! Environments and their names.

use crate::shown::{environment, pairs, sees_text, vars_without_files};
use dotenvy::{Bytes, Dialect, Environment, Iter, is_key, is_name};
use std::alloc::{AllocError, Global};
use std::test::Fail;
use test_support::answers::{answer, next_item};

#[test]
fn pairs_that_are_passed_by(rt: HostRuntime) -> Result<(), Fail> {
    let alloc = rt.alloc();
    let list = [
        ("B", "b\0"),
        ("B", "1"),
        ("", "3"),
        ("B=", "4"),
        ("é", "5"),
        ("B", "2"),
        ("A", ""),
        ("C", "x\0y"),
    ];
    let environment = environment(alloc, &list)?;
    sees_text(&rt, pairs(alloc, &environment)?, "A=; B=1; é=5");
    assert!(rt; !environment.loaded());
    let copy = environment.try_clone()?;
    sees_text(&rt, pairs(alloc, &copy)?, "A=; B=1; é=5");
    Ok(())
}

// What it answers to set `A` to the value, and the pairs then.
fn set_a(alloc: Global, environment: &mut Environment, value: &str) -> Result<String, AllocError> {
    let key = String::from_str(alloc, "A")?;
    let set = environment.set(key, String::from_str(alloc, value)?);
    let answer = answer(alloc, &set)?;
    format!(in alloc; "{answer}: {}", pairs(alloc, environment)?)
}

#[test]
fn names_are_set_and_replaced(rt: HostRuntime) -> Result<(), Fail> {
    let mut environment = Environment::new(rt.alloc());
    for (value, want) in [
        ("x\0y", "nul A: "),
        ("1", "ok: A=1"),
        ("", "ok: A="),
        ("2", "ok: A=2"),
        ("\0", "nul A: A=2"),
    ] {
        let got = set_a(rt.alloc(), &mut environment, value)?;
        assert_eq!(rt; got.as_str(), want, "at {value:?}");
    }
    Ok(())
}

#[test]
fn names_that_were_set_are_there(rt: HostRuntime) -> Result<(), Fail> {
    let mut environment = Environment::new(rt.alloc());
    let _ = set_a(rt.alloc(), &mut environment, "2")?;
    assert!(rt; environment.len() == 1 && environment.contains("A"));
    assert!(rt; !environment.contains("B"));
    assert_eq!(rt; environment.get("A"), Some("2"));
    assert_eq!(rt; environment.get("B"), None);
    Ok(())
}

#[test]
fn equal_environments(rt: HostRuntime) -> Result<(), Fail> {
    let alloc = rt.alloc();
    let one = environment(alloc, &[("A", "1"), ("B", "")])?;
    assert!(rt; one == one.try_clone()?);
    assert!(rt; one == environment(alloc, &[("B", ""), ("A", "1")])?);
    assert!(rt; Environment::new(alloc).is_empty() && !one.is_empty());
    Ok(())
}

#[test]
fn environments_that_differ(rt: HostRuntime) -> Result<(), Fail> {
    let alloc = rt.alloc();
    let one = environment(alloc, &[("A", "1"), ("B", "")])?;
    let others: [&[(&str, &str)]; 4] = [
        &[],
        &[("A", "1")],
        &[("A", "1"), ("B", "1")],
        &[("A", "1"), ("C", "")],
    ];
    for other in others {
        assert!(rt; one != environment(alloc, other)?, "at {other:?}");
    }
    Ok(())
}

#[test]
fn environments_whose_marks_differ(rt: HostRuntime) -> Result<(), Fail> {
    let one = environment(rt.alloc(), &[("A", "1"), ("B", "")])?;
    let mut marked = one.try_clone()?;
    let _ = vars_without_files(rt, &mut marked)?;
    assert!(rt; marked.loaded() && marked != one);
    Ok(())
}

#[test]
fn values_are_not_shown(rt: HostRuntime) -> Result<(), Fail> {
    let alloc = rt.alloc();
    let environment = environment(alloc, &[("TOKEN", "secret"), ("A", "")])?;
    let shown = format!(in alloc; "{environment:?}")?;
    sees_text(
        &rt,
        shown,
        "Environment { names: {\"A\", \"TOKEN\"}, loaded: false }",
    );
    let shown = format!(in alloc; "{:?} {:?}", Dialect::V15, Dialect::Next)?;
    sees_text(&rt, shown, "V15 Next");
    assert!(rt; Dialect::V15 != Dialect::Next);
    Ok(())
}

#[test]
fn keys_and_names(rt: HostRuntime) {
    for (text, key, name) in [
        ("A", true, true),
        ("_a.9", true, true),
        ("export", true, true),
        ("", false, false),
        ("9A", false, true),
        (".A", false, true),
        ("A B", false, true),
        ("A-B", false, true),
        ("é", false, true),
        ("Aé", false, true),
        ("=", false, false),
        ("A=", false, false),
        ("A=B", false, false),
        ("A\0", false, false),
    ] {
        assert_eq!(rt; (is_key(text), is_name(text)), (key, name), "{text:?}");
    }
}

#[test]
fn another_environment_at_each_item(rt: HostRuntime) -> Result<(), Fail> {
    let alloc = rt.alloc();
    let mut entries = Iter::new(alloc, Bytes::new(b"A=$X\nB=$X\n"))?;
    for (value, want) in [("1", "A=1"), ("2", "B=2")] {
        let environment = environment(alloc, &[("X", value)])?;
        let item = next_item(alloc, &mut entries, &environment)?;
        sees_text(&rt, item.unwrap_or(String::new(alloc)), want);
    }
    Ok(())
}
