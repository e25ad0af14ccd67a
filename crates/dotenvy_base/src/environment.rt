//! Environments: the names of a process with their values, kept apart from the process itself.

ghost use Rattle.std.specs.BTreeMap.{get};
ghost use Rattle.std.specs.Prelude.{◌≡◌, None, Ok, IsTrue, filter, true, false, option_copied, string_bytes, IfOk, OnOk, OnErr, IfErr, IfSome, MatchResult, ◌==◌};
ghost use Rattle.std.specs.FinMap as fin;
ghost use Rattle.std.specs.Iterator.{YieldsFirstBy, item_count};
ghost use Rattle.dotenvy_base.specs.Environment.{name_ok, value_ok, pair_ok, text_entries, IsEnvironment, AreTexts};
ghost use Rattle.dotenvy_base.specs.Errors.{IsMemory, IsNulOf};

use crate::errors::{Error, Result};
use crate::process::text_entries;
use std::alloc::{Alloc, Allocator, Global};
use std::collections::BTreeMap;
use std::collections::btree_map::{IntoIter, Iter};
use std::env::Env;
use std::fmt;
use std::marker::Model;

/// Names with their values, and a `loaded` flag that says whether the first use has loaded `.env`.
///
/// A name is not empty and has no `=` and no NUL; a value has no NUL. Names are compared byte by byte. Loads change
/// this value, and never the environment of the process.
///
/// ```
/// let mut environment = Environment::new(alloc);
/// environment.set(String::from_str(alloc, "HOST")?, String::from_str(alloc, "db.local")?)?;
/// assert_eq!(rt; environment.get("HOST"), Some("db.local"));
/// ```
#[derive(Drop)]
pub struct Environment<A: Allocator = Global> {
    entries: BTreeMap<String<A>, String<A>, A>,
    loaded: bool,
}

impl<A: Allocator> Model for Environment<A> {
    ghost use Rattle.dotenvy_base.specs.Environment.{Env, env_code, env_of, IsEnvironment};

    ghost Value = { Env };

    ghost coded = { env_code };

    ghost view = { λ e. env_of e.entries.entries e.loaded };

    ghost invariant = { λ e. IsEnvironment (env_of e.entries.entries e.loaded) };
}

/// Whether the whole text may be a name of an environment: it is not empty, and has no `=` and no NUL.
///
/// A key of a file is one of these names, but not each name can be a key (see `is_key`).
///
/// ```
/// assert!(rt; is_name("my name") && !is_name("A=B"));
/// ```
pub fn is_name(text: &str) -> bool
    ensures { result ≡ name_ok text.now }
{
    !text.is_empty() && !text.as_bytes().contains(&b'=') && !text.as_bytes().contains(&0)
}

fn is_value(text: &str) -> bool
    ensures { result ≡ value_ok text.now }
{
    !text.as_bytes().contains(&0)
}

impl<A: Allocator> Environment<A> {
    /// An environment with no names, whose `loaded` flag is not set. It allocates nothing; names that are set later are
    /// kept in `alloc`.
    ///
    /// ```
    /// assert_eq!(rt; Environment::new(alloc).len(), 0);
    /// ```
    pub fn new(alloc: A) -> Environment<A>
        ensures empty { result.names ≡ fin.empty }
        ensures mark { result.loaded ≡ false }
    {
        Environment {
            entries: BTreeMap::new(alloc),
            loaded: false,
        }
    }

    /// An environment with these names and values, whose `loaded` flag is not set.
    ///
    /// A pair is skipped if its name is not valid (see [`is_name`]) or its value has a NUL. Of several pairs with one
    /// name the first counts. The error is `Memory`.
    ///
    /// ```
    /// let environment = Environment::from_pairs(alloc, list)?;
    /// // from the pairs ("A", "1"), ("A", "2") and ("", "3"): A is 1, and there is no other name
    /// ```
    pub fn from_pairs(alloc: A, list: Vec<(String<A>, String<A>), A>) -> Result<Environment<A>, A>
    where
        A: Clone,
        // If a name is there several times, `from_entries` keeps its first value.
        ensures names { IfOk result
            (λ e. e.names ≡ fin.from_entries (filter pair_ok (text_entries list.items))) }
        ensures mark { IfOk result (λ e. e.loaded ≡ false) }
        ensures memory { IfErr result IsMemory }
    {
        let mut env = Environment::new(alloc);
        for (name, value) in list {
            if is_name(&name) && is_value(&value) && !env.contains(&name) {
                env.set(name, value)?;
            }
        }
        Ok(env)
    }

    /// An environment with the names and values of the process, whose `loaded` flag is not set.
    ///
    /// An entry of the process is skipped if it is not UTF-8, has no `=` or has no valid name; of several entries with
    /// one name the first counts. The environment of the process is only read. The error is `Memory`.
    ///
    /// No clause says that the names are those of the process: tests do.
    ///
    /// ```
    /// let environment = Environment::from_process(&rt)?;
    /// ```
    pub fn from_process<R: Env + Alloc<A = A>>(rt: &R) -> Result<Environment<A>, A>
    where
        A: Clone,
        ensures good { IfOk result IsEnvironment }
        ensures mark { IfOk result (λ e. e.loaded ≡ false) }
        ensures memory { IfErr result IsMemory }
    {
        Environment::from_pairs(rt.alloc(), text_entries(rt)?)
    }

    /// A separate environment with the same names and values and the same `loaded` flag. The error is `Memory`.
    ///
    /// ```
    /// let before = environment.try_clone()?;
    /// ```
    pub fn try_clone(&self) -> Result<Environment<A>, A>
    where
        A: Clone,
        ensures ok { IfOk result (λ e. e ≡ self.now) }
        ensures memory { IfErr result IsMemory }
    {
        Ok(Environment {
            entries: self.entries.clone()?,
            loaded: self.loaded,
        })
    }

    /// The number of names.
    ///
    /// ```
    /// assert_eq!(rt; environment.len(), environment.iter().count());
    /// ```
    pub fn len(&self) -> usize
        ensures { result ≡ fin.len self.now.names }
    {
        self.entries.len()
    }

    /// Whether there is no name.
    ///
    /// ```
    /// assert!(rt; Environment::new(alloc).is_empty());
    /// ```
    pub fn is_empty(&self) -> bool
        ensures { result ≡ (fin.len self.now.names == 0) }
    {
        self.len() == 0
    }

    /// The `loaded` flag: whether the first use has loaded `.env` (docs/GRAMMAR.md, "Finding the file").
    ///
    /// ```
    /// assert!(rt; !Environment::new(alloc).loaded());
    /// ```
    pub fn loaded(&self) -> bool
        ensures { result ≡ self.now.loaded }
    {
        self.loaded
    }

    /// The value of a name, or `None` if this environment has no such name.
    ///
    /// ```
    /// let host = environment.get("HOST").unwrap_or("localhost");
    /// ```
    pub fn get(&self, name: &str) -> Option<&str>
        ensures { option_copied result ≡ fin.get self.now.names name.now }
    {
        match self.entries.get(name) {
            Some(value) => Some(value.as_str()),
            None => None,
        }
    }

    /// Whether the name has a value, which may be empty.
    ///
    /// ```
    /// if !environment.contains("HOST") { .. }
    /// ```
    pub fn contains(&self, name: &str) -> bool
        ensures { result ≡ fin.contains_key self.now.names name.now }
    {
        self.entries.contains_key(name)
    }

    /// The names with their values, in the byte order of the names.
    ///
    /// ```
    /// for (name, value) in environment.iter() {
    ///     println!(rt; "{name}={value}")?;
    /// }
    /// ```
    pub fn iter(&self) -> Pairs<'_, A>
        ensures pairs { result ≡ fin.entries self.now.names }
        ensures good { IsEnvironment self.now }
        ensures texts { AreTexts self.now.names }
    {
        let pairs = self.entries.iter();
        Pairs { pairs }
    }

    /// Sets the value of one name, or replaces it. The other names and the `loaded` flag are unchanged.
    ///
    /// It requires a valid name (see [`is_name`]); each key of the file format is one. The error is `Nul` with that key
    /// if the value has a NUL, and otherwise `Memory`. After an error the environment is unchanged.
    ///
    /// ```
    /// environment.set(String::from_str(alloc, "HOST")?, String::from_str(alloc, "db.local")?)?;
    /// ```
    pub fn set(&mut self, key: String<A>, value: String<A>) -> Result<(), A>
    where
        A: Clone,
        requires { IsTrue (name_ok (string_bytes key)) }
        ensures ok { OnOk result (self.new
            ≡ record self.old {
              names = fin.insert self.old.names (string_bytes key) (string_bytes value);
            }) }
        ensures same { OnErr result (self.new ≡ self.old) }

        // If the value has no NUL, `Memory` is the only error; if it has one, the error is `Nul`.
        ensures good { IsTrue (value_ok (string_bytes value)) → IfErr result IsMemory }
        ensures nul { value_ok (string_bytes value) ≡ false →
            MatchResult result (λ _. ⊥) (IsNulOf (string_bytes key)) }
    {
        if !is_value(value.as_str()) {
            return Err(Error::Nul(key));
        }
        self.entries.insert(key, value)?;
        Ok(())
    }
}

/// Sets the value of one name if it is absent, and returns whether it was. A name that is there keeps its value.
///
/// It requires a valid name (see [`is_name`]). If the name is absent, the errors are those of [`Environment::set`]. If
/// it is there, there is none. After an error the environment is unchanged.
pub fn set_absent<A: Allocator + Clone>(
    env: &mut Environment<A>,
    key: String<A>,
    value: String<A>,
) -> Result<bool, A>
    requires { IsTrue (name_ok (string_bytes key)) }
    ensures kept { fin.contains_key env.old.names (string_bytes key) ≡ true →
        (result ≡ Ok false) × (env.new ≡ env.old) }
    ensures ok { fin.contains_key env.old.names (string_bytes key) ≡ false →
        OnOk result ((result ≡ Ok true) × (env.new ≡ record env.old {
          names = fin.insert env.old.names (string_bytes key) (string_bytes value);
        })) }
    ensures same { OnErr result (env.new ≡ env.old) }
    ensures good { IsTrue (value_ok (string_bytes value)) → IfErr result IsMemory }
    ensures nul { fin.contains_key env.old.names (string_bytes key) ≡ false →
        value_ok (string_bytes value) ≡ false →
        MatchResult result (λ _. ⊥) (IsNulOf (string_bytes key)) }
{
    if !is_value(value.as_str()) {
        return if env.contains(key.as_str()) {
            Ok(false)
        } else {
            Err(Error::Nul(key))
        };
    }
    // The map is searched once.
    let len = env.entries.len();
    env.entries.entry(key)?.or_insert(value);
    Ok(env.entries.len() != len)
}

/// Sets the `loaded` flag of an environment. Only the first use does this, after its load.
pub fn mark_loaded<A: Allocator>(env: &mut Environment<A>)
    ensures { env.new ≡ record env.old { loaded = true } }
{
    env.loaded = true;
}

/// Two environments are equal if they have the same names with the same values, and the same `loaded` flag.
impl<A: Allocator> PartialEq for Environment<A> {
    ghost use Rattle.std.specs.Cmp.{partial_equiv_from_equiv};
    ghost use Rattle.dotenvy_base.specs.Environment.{is_same, is_same-equiv};

    ghost eq = { is_same };

    ghost laws = { partial_equiv_from_equiv is_same-equiv };

    fn eq(&self, other: &Environment<A>) -> bool {
        if self.entries.len() != other.entries.len() {
            return false;
        }
        self.entries == other.entries && self.loaded == other.loaded
    }
}

impl<A: Allocator> Eq for Environment<A> {
    ghost use Rattle.dotenvy_base.specs.Environment.{is_same-equiv};

    ghost laws = { is_same-equiv };
}

/// Shows the names and the `loaded` flag. Values are often secrets, and are never shown.
impl<A: Allocator> fmt::Debug for Environment<A> {
    fn fmt<W: fmt::Write>(&self, f: &mut fmt::Formatter<W>) -> fmt::Result {
        f.debug_struct("Environment")
            .field("names", &Names(self))
            .field("loaded", &self.loaded)
            .finish()
    }
}

// The names of an environment, as `Debug` shows them.
#[derive(Drop)]
struct Names<'a, A: Allocator>(&'a Environment<A>);

impl<'a, A: Allocator> fmt::Debug for Names<'a, A> {
    fn fmt<W: fmt::Write>(&self, f: &mut fmt::Formatter<W>) -> fmt::Result {
        let env = self.0;
        f.debug_set().entries(env.entries.keys()).finish()
    }
}

impl<'a, A: Allocator> IntoIterator for &'a Environment<A> {
    type Item = (&'a String<A>, &'a String<A>);

    type IntoIter = Pairs<'a, A>;

    ghost use Rattle.std.specs.Prelude.{◌≡◌};
    ghost use Rattle.std.specs.FinMap as fin;

    ghost into_iter_gives = { λ env pairs. pairs ≡ fin.entries env.now.names };

    fn into_iter(self) -> Pairs<'a, A> {
        self.iter()
    }
}

/// The names with their values, in the byte order of the names, without a copy.
impl<A: Allocator> IntoIterator for Environment<A> {
    type Item = (String<A>, String<A>);

    type IntoIter = Vars<A>;

    ghost use Rattle.std.specs.Prelude.{◌≡◌};
    ghost use Rattle.std.specs.FinMap as fin;

    ghost into_iter_gives = { λ env vars. vars ≡ fin.entries env.names };

    fn into_iter(self) -> Vars<A> {
        let Environment { entries, loaded: _ } = self;
        Vars {
            pairs: entries.into_iter(),
        }
    }
}

/// An iterator over the names of an environment with their values, in the byte order of the names, each once.
///
/// [`Environment::iter`] makes it. Each name and each value is one that [`Environment::set`] takes.
///
/// ```
/// for (name, value) in &environment {
///     println!(rt; "{name}={value}")?;
/// }
/// ```
#[derive(Drop)]
pub struct Pairs<'a, A: Allocator = Global> {
    pairs: Iter<'a, String<A>, String<A>>,
}

impl<'a, A: Allocator> Model for Pairs<'a, A> {
    ghost use Rattle.std.specs.Prelude.{ℕ, List};
    ghost use Rattle.dotenvy_base.specs.Environment.{text_entries, AreGood};

    ghost Value = { List (List ℕ × List ℕ) };

    ghost view = { λ s. text_entries s.pairs };

    ghost invariant = { λ s. AreGood (text_entries s.pairs) };
}

impl<'a, A: Allocator> Iterator for Pairs<'a, A> {
    type Item = (&'a String<A>, &'a String<A>);

    ghost next_gives = { λ s item t. IfSome item
        (λ pair. IsTrue (name_ok (string_bytes pair.0.now))
        × IsTrue (value_ok (string_bytes pair.1.now)))
        × YieldsFirstBy (λ pair. (string_bytes pair.0.now, string_bytes pair.1.now))
        (λ s. s) s item t };

    ghost remaining = { item_count (λ s. s) };

    fn next(&mut self) -> Option<(&'a String<A>, &'a String<A>)> {
        self.pairs.next()
    }
}

/// An iterator over names with their values, in the byte order of the names, each once.
///
/// It holds copies: later changes of the environment don't change it. [`vars`](crate::vars) makes it. Each name and
/// each value is one that [`Environment::set`] takes.
///
/// ```
/// for (name, value) in vars(&rt, &mut environment)? {
///     println!(rt; "{name}={value}")?;
/// }
/// ```
#[derive(Drop)]
pub struct Vars<A: Allocator = Global> {
    pairs: IntoIter<String<A>, String<A>, A>,
}

impl<A: Allocator> Model for Vars<A> {
    ghost use Rattle.std.specs.Prelude.{ℕ, List};
    ghost use Rattle.dotenvy_base.specs.Environment.{text_entries, AreGood};

    ghost Value = { List (List ℕ × List ℕ) };

    ghost view = { λ s. text_entries s.pairs };

    ghost invariant = { λ s. AreGood (text_entries s.pairs) };
}

impl<A: Allocator> Iterator for Vars<A> {
    type Item = (String<A>, String<A>);

    ghost next_gives = { λ s item t. IfSome item
        (λ pair. IsTrue (name_ok (string_bytes pair.0)) × IsTrue (value_ok (string_bytes pair.1)))
        × YieldsFirstBy (λ pair. (string_bytes pair.0, string_bytes pair.1)) (λ s. s) s item t };

    ghost remaining = { item_count (λ s. s) };

    fn next(&mut self) -> Option<(String<A>, String<A>)> {
        self.pairs.next()
    }
}
