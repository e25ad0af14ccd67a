//! The names whose values an edit of a key changes, as far as they were read.

ghost use Rattle.std.specs.Prelude.{◌≡◌, ◌∷◌, [], OnOk, chars};
ghost use Rattle.dotenvy_editor.specs.Told.{AreNames};
ghost use Rattle.dotenvy_editor.specs.Warnings.{is_among};

use std::alloc::{AllocError, Allocator};
use std::collections::HashSet;
use std::hash::{BuildHasherDefault, FoldHasher};
use std::marker::Model;

/// A set of names.
#[derive(Drop)]
pub(crate) struct Names<A: Allocator> {
    names: HashSet<String<A>, BuildHasherDefault<FoldHasher>, A>,
}

impl<A: Allocator> Model for Names<A> {
    ghost use Rattle.std.specs.Prelude.{ℕ, List, map, chars, string_bytes};

    ghost Value = { List (List ℕ) };

    ghost view = { λ s. map (λ name. chars (string_bytes name)) s.names.keys };
}

impl<A: Allocator + Clone> Names<A> {
    /// No names.
    pub(crate) fn new(alloc: A) -> Names<A>
        ensures { result ≡ [] }
    {
        Names {
            names: HashSet::new(alloc),
        }
    }

    /// Whether the name is one of them.
    pub(crate) fn has(&self, name: &str) -> bool
        ensures { result ≡ is_among self.now (chars name.now) }
    {
        self.names.contains(name)
    }

    /// Adds a name.
    pub(crate) fn add(&mut self, alloc: A, name: &str) -> Result<(), AllocError>
        ensures { OnOk result ((names : _) → AreNames self.old names →
            AreNames self.new (chars name.now ∷ names)) }
    {
        if self.has(name) {
            return Ok(());
        }
        self.names.insert(String::from_str(alloc, name)?)?;
        Ok(())
    }
}
