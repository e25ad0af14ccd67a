//! The names that a file declares, and which names have a value.

ghost use Rattle.std.specs.Prelude.{◌≡◌, ℕ, List, OnOk, bytes_eq, is_some, string_bytes};
ghost use Rattle.std.specs.FinMap as fin;
ghost use Rattle.dotenvy_checker.specs.Checks.{names_in};
ghost use Rattle.dotenvy_words.specs.Found.{texts};
ghost use Rattle.dotenvy_checker.specs.Findings.{none_declared, with_key, has_value};
ghost use Rattle.dotenvy_checker.specs.Folders.{is_among};
ghost use Rattle.dotenvy_checker.specs.Together.{is_declared, settable, with_empty, with_names};
ghost use Rattle.dotenvy_checker.specs.inside.CheckedLines.{declared_of, known_names};

use dotenvy::{Environment, is_name};
use dotenvy_base::environment::set_absent;
use dotenvy_findings::names::Names;
use std::alloc::{AllocError, Allocator};
use std::collections::HashMap;
use std::collections::hash_map::Keys;
use std::hash::{BuildHasherDefault, FoldHasher};

/// The names that a file declares, each with the first line that declares it.
///
/// ```
/// // of a file with the lines `A=1`, `B=2` and `A=3`
/// declared.first_line("A") // Some(1)
/// ```
#[derive(Drop)]
pub struct Declared<A: Allocator> {
    lines: HashMap<String<A>, u64, BuildHasherDefault<FoldHasher>, A>,
}

impl<A: Allocator> Declared<A> {
    /// No names.
    pub(crate) fn new(alloc: A) -> Declared<A>
        ensures { declared_of result ≡ none_declared }
    {
        Declared {
            lines: HashMap::new(alloc),
        }
    }

    /// The first line that declares the name.
    ///
    /// ```
    /// declared.first_line("B") // Some(2)
    /// ```
    pub fn first_line(&self, name: &str) -> Option<u64>
        ensures { result ≡ declared_of self.now name.now }
    {
        self.lines.get(name).copied()
    }

    /// The names, in any order.
    pub(crate) fn names(&self) -> Keys<'_, String<A>, u64>
        ensures { (name : List ℕ) → is_among (texts result) name ≡ is_some (declared_of self.now name) }
    {
        self.lines.keys()
    }
}

impl<A: Allocator + Clone> Declared<A> {
    /// Keeps the line as the first that declares the key, unless there is one.
    pub(crate) fn declare(&mut self, alloc: A, key: &str, line: u64) -> Result<(), AllocError>
        ensures { OnOk result (declared_of self.new ≡ with_key key.now line (declared_of self.old)) }
    {
        if self.first_line(key).is_none() {
            self.lines.insert(String::from_str(alloc, key)?, line)?;
        }
        Ok(())
    }
}

/// The names that have a value: those of an environment, and those that a file declared so far.
#[derive(Drop)]
pub(crate) struct KnownNames<'a, A: Allocator> {
    pub(crate) env: &'a Environment<A>,
    pub(crate) declared: &'a Declared<A>,
}

impl<'a, A: Allocator> Names for KnownNames<'a, A> {
    ghost has_value = { λ names. known_names names };

    fn has(&self, name: &str) -> bool {
        self.env.contains(name) || self.declared.first_line(name).is_some()
    }
}

/// Sets a name to the empty value, if an environment can have it and this one lacks it.
pub(crate) fn set_name<A: Allocator + Clone>(
    env: &mut Environment<A>,
    name: &String<A>,
) -> Result<(), AllocError>
    ensures { OnOk result ((other : List ℕ) → fin.get env.new.names other
        ≡ with_empty env.old.names (settable (bytes_eq (string_bytes name.now))) other) }
{
    if !is_name(name.as_str()) {
        return Ok(());
    }
    let value = String::new(name.allocator().clone()?);
    match set_absent(env, name.clone()?, value) {
        Ok(_) => Ok(()),
        Err(_) => Err(AllocError),
    }
}

/// Sets each name that a file declares, and that the environment lacks, to the empty value. Out of memory, it may have
/// set some.
///
/// A name that no environment can have is passed by; a key of a file is none.
pub(crate) fn set_names<A: Allocator + Clone>(
    env: &mut Environment<A>,
    declared: &Declared<A>,
) -> Result<(), AllocError>
    ensures sets { OnOk result ((name : List ℕ) → fin.get env.new.names name
        ≡ with_empty env.old.names (settable (is_declared (declared_of declared.now))) name) }
    ensures names { OnOk result (names_in env.new.names
        ≡ with_names (names_in env.old.names) (settable (is_declared (declared_of declared.now)))) }
{
    'keys: for name in declared.names() {
        set_name(env, name)?;
    }
    Ok(())
}
