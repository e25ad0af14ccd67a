//! Layers over an environment.
ghost use Rattle.std.specs.Prelude.{◌≡◌, ◌≢◌, [], IfOk, OnErr};
ghost use Rattle.std.specs.Path.{path_bytes, path_buf_bytes};
ghost use Rattle.dotenvy.specs.Environment.{KeepsNames};
ghost use Rattle.dotenvy.specs.Find.{IsPathOf};
ghost use Rattle.dotenvy.specs.Iter.{fresh, IsOpen};
ghost use Rattle.dotenvy.specs.LoadsRest.{ChangesOnlyKeys, OnlyAdds};
ghost use Rattle.env_layers.specs.Layers.{AddsLayer};
ghost use Rattle.env_layers.specs.Missing.{absent_names, lent_texts, AnswersRequire, HoldsTexts};

use crate::missing::Missing;
use dotenvy::{Dialect, Environment, Iter, Result, Source, open_filename};
use std::alloc::{Alloc, AllocError, Allocator, Global};
use std::env::Env;
use std::fs::Files;
use std::marker::Model;
use std::path::{Path, PathBuf};

/// What a layer does with a name that is there already.
#[derive(Clone, Copy, Drop)]
pub enum Mode {
    /// The name keeps its value, as under `dotenvy::from_read`.
    Keep,
    /// The name takes the value of the layer, as under `dotenvy::from_read_override`.
    Override,
}

/// An environment, and the layers that were accepted over it.
///
/// A layer is a reader or a file. It is accepted where the load of it answers `Ok`; else it changes nothing, and the
/// layers before it stay.
///
/// ```
/// let mut layers = Layers::new(Environment::from_process(&rt)?);
/// layers.add_file(&rt, Path::new("service.env"), Dialect::V15)?;
/// layers.add(alloc, Bytes::new(b"PORT=8080\n"), Mode::Keep)?;
/// layers.require(alloc, &["HOST", "PORT"])?;
/// let settings = layers.into_environment();
/// ```
#[derive(Drop)]
pub struct Layers<A: Allocator = Global> {
    env: Environment<A>,
}

impl<A: Allocator> Model for Layers<A> {
    ghost use Rattle.dotenvy.specs.Environment.{Env, env_code};

    ghost Value = { Env };

    ghost coded = { env_code };

    ghost view = { λ s. s.env };
}

impl<A: Allocator> Layers<A> {
    /// No layer yet over this environment, whose mark and names stay as they are.
    ///
    /// ```
    /// let layers = Layers::new(Environment::new(alloc));
    /// ```
    pub fn new(env: Environment<A>) -> Layers<A>
        ensures { result ≡ env }
    {
        Layers { env }
    }

    /// The environment with the layers that were accepted.
    ///
    /// ```
    /// let settings = layers.into_environment();
    /// ```
    pub fn into_environment(self) -> Environment<A>
        ensures { result ≡ self }
    {
        self.env
    }
}

impl<A: Allocator + Clone> Layers<A> {
    /// Adds a reader as a layer, in the first dialect: an opening byte order mark is dropped, and a name in a value
    /// means what the layers so far say of it (docs/GRAMMAR.md, "Loading").
    ///
    /// The errors are those of the load: `LineParse`, `Io`, `Nul`, `Memory`. After each of them the layers are as they
    /// were, unlike after a load, which keeps what stands before its fault.
    ///
    /// Over a reader whose bytes are specified, the result and, on `Ok`, the environment are those of the load: of
    /// `Iter::load` for `Mode::Keep`, and of `Iter::load_override` for `Mode::Override`.
    ///
    /// ```
    /// layers.add(alloc, Bytes::new(b"HOST=db.local\n"), Mode::Override)?;
    /// ```
    pub fn add<R: Source + Drop>(&mut self, alloc: A, reader: R, mode: Mode) -> Result<(), A>
        ensures told { AddsLayer mode (fresh (R.told reader) Dialect.V15)
            self.old.names result self.new.names }
        ensures refused { OnErr result (self.new ≡ self.old) }
        ensures keeps { mode ≡ Mode.Keep → KeepsNames self.old.names self.new.names }
        ensures changes { ChangesOnlyKeys self.old self.new }
    {
        self.add_rest(Iter::new(alloc, reader)?, mode)
    }

    /// Searches for the file of a name in the current directory and in those above it, and adds it as a layer: a name
    /// that is there keeps its value. The path that was found is the answer (docs/GRAMMAR.md, "Finding the file").
    ///
    /// The errors are those of `dotenvy::from_filename_with`. After each of them the layers are as they were.
    ///
    /// ```
    /// let path = layers.add_file(&rt, Path::new("service.env"), Dialect::V15)?;
    /// ```
    pub fn add_file<R: Files + Env + Alloc<A = A>>(
        &mut self,
        rt: &R,
        filename: Path<'_>,
        dialect: Dialect,
    ) -> Result<PathBuf<A>, A>
        ensures path { IfOk result (λ p. IsPathOf (path_bytes filename.entry) (path_buf_bytes p)) }
        ensures refused { OnErr result (self.new ≡ self.old) }
        ensures adds { OnlyAdds self.old self.new }
    {
        self.add_file_with(rt, filename, dialect, Mode::Keep)
    }

    /// As [`add_file`](Layers::add_file), and the mode says what becomes of a name that is there.
    ///
    /// ```
    /// layers.add_file_with(&rt, Path::new("local.env"), Dialect::V15, Mode::Override)?;
    /// ```
    pub fn add_file_with<R: Files + Env + Alloc<A = A>>(
        &mut self,
        rt: &R,
        filename: Path<'_>,
        dialect: Dialect,
        mode: Mode,
    ) -> Result<PathBuf<A>, A>
        ensures path { IfOk result (λ p. IsPathOf (path_bytes filename.entry) (path_buf_bytes p)) }
        ensures refused { OnErr result (self.new ≡ self.old) }
        ensures keeps { mode ≡ Mode.Keep → KeepsNames self.old.names self.new.names }
        ensures changes { ChangesOnlyKeys self.old self.new }
    {
        let (path, file) = open_filename(rt, filename, dialect)?;
        self.add_rest(file, mode)?;
        Ok(path)
    }

    // Adds what an iterator has left as a layer: all of it, or nothing where the load of it stops.
    //
    // After an error of the load, of whichever kind and in either mode, the layers are as they were.
    fn add_rest<R: Source + Drop>(&mut self, file: Iter<R, A>, mode: Mode) -> Result<(), A>
        requires { IsOpen file }
        ensures told { AddsLayer mode file self.old.names result self.new.names }
        ensures refused { OnErr result (self.new ≡ self.old) }
        ensures keeps { mode ≡ Mode.Keep → KeepsNames self.old.names self.new.names }
        ensures changes { ChangesOnlyKeys self.old self.new }
    {
        let mut layered = self.env.try_clone()?;
        match mode {
            Mode::Keep => file.load(&mut layered)?,
            Mode::Override => file.load_override(&mut layered)?,
        }
        self.env = layered;
        Ok(())
    }

    /// Whether each of these names has a value, be it the empty one. It takes no memory where each has.
    ///
    /// `Missing::Names` holds those that have none.
    ///
    /// They are in the order in which you asked, and as often. `Missing::Memory` comes only if a name is absent.
    ///
    /// ```
    /// layers.require(alloc, &["HOST", "PORT"])?;
    /// ```
    pub fn require(&self, alloc: A, names: &[&str]) -> std::result::Result<(), Missing<A>>
        ensures { AnswersRequire (absent_names self.now.names (lent_texts names.now)) result }
    {
        let absent = self.absent(alloc, names)?;
        if absent.is_empty() {
            return Ok(());
        }
        Err(Missing::Names(absent))
    }

    // The names that have no value, in the order given. Memory is asked for only if there is one.
    fn absent(&self, alloc: A, names: &[&str]) -> std::result::Result<Vec<String<A>, A>, AllocError>
        ensures ok { IfOk result
            (λ found. HoldsTexts found.items (absent_names self.now.names (lent_texts names.now))) }
        ensures err { OnErr result (absent_names self.now.names (lent_texts names.now) ≢ []) }
    {
        let mut absent = Vec::new(alloc);
        'names: for name in names {
            if !self.env.contains(name) {
                let name = String::from_str(absent.allocator().clone()?, name)?;
                absent.push(name)?;
            }
        }
        Ok(absent)
    }
}
