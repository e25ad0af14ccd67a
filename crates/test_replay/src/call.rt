//! Calls by name: those that find a file, open one, or load one at the first use of an environment, and those on
//! layers.

use crate::layers::push_required;
use dotenvy::{Bytes, Dialect, Environment, Iter, Plain, Result};
use env_layers::{Layers, Missing, Mode};
use std::alloc::{Alloc, Allocator};
use std::env::Env;
use std::fs::{File, Files};
use std::mem;
use std::path::{Path, PathBuf};
use test_support::answers::push_items;

// A call that answers nothing but that it is done.
#[derive(Clone, Copy)]
enum Loading {
    FromPath,
    FromPathOverride,
    FromRead,
    FromReadOverride,
    Add(Mode),
}

// A call that answers the path of the file that it found.
#[derive(Clone, Copy)]
enum Finding {
    FromFilename,
    FromFilenameOverride,
    FromFilenameWith(Dialect),
    AddFile(Dialect),
    AddFileWith(Dialect, Mode),
    FindFilename,
    /// The opened file is loaded.
    OpenFilename(Dialect),
    Dotenv,
    DotenvOverride,
}

// A call that opens a file.
#[derive(Clone, Copy)]
enum Opening {
    FromPath,
    FromFilename,
    Dotenv,
}

#[derive(Clone, Copy)]
enum Form {
    Load(Loading),
    Find(Finding),
    /// The opened file is loaded.
    Open(Opening),
    /// The items of the opened file are taken.
    Items(Opening),
    Var,
    Vars,
    Require,
}

/// A call, and the path, the name, the key or the text that it is given.
#[derive(Clone, Copy)]
pub struct Call<'a> {
    form: Form,
    given: &'a str,
}

fn form_named(name: &str) -> Option<Form> {
    let form = match name {
        "from_path" => Form::Load(Loading::FromPath),
        "from_path_override" => Form::Load(Loading::FromPathOverride),
        "from_read" => Form::Load(Loading::FromRead),
        "from_read_override" => Form::Load(Loading::FromReadOverride),
        "add_keep" => Form::Load(Loading::Add(Mode::Keep)),
        "add_override" => Form::Load(Loading::Add(Mode::Override)),
        "from_filename" => Form::Find(Finding::FromFilename),
        "from_filename_override" => Form::Find(Finding::FromFilenameOverride),
        "from_filename_v15" => Form::Find(Finding::FromFilenameWith(Dialect::V15)),
        "from_filename_next" => Form::Find(Finding::FromFilenameWith(Dialect::Next)),
        "add_file_v15" => Form::Find(Finding::AddFile(Dialect::V15)),
        "add_file_next" => Form::Find(Finding::AddFile(Dialect::Next)),
        "add_file_keep" => Form::Find(Finding::AddFileWith(Dialect::V15, Mode::Keep)),
        "add_file_override" => Form::Find(Finding::AddFileWith(Dialect::V15, Mode::Override)),
        "add_file_override_next" => Form::Find(Finding::AddFileWith(Dialect::Next, Mode::Override)),
        "find_filename" => Form::Find(Finding::FindFilename),
        "open_filename_v15" => Form::Find(Finding::OpenFilename(Dialect::V15)),
        "open_filename_next" => Form::Find(Finding::OpenFilename(Dialect::Next)),
        "dotenv" => Form::Find(Finding::Dotenv),
        "dotenv_override" => Form::Find(Finding::DotenvOverride),
        "from_path_iter" => Form::Open(Opening::FromPath),
        "from_filename_iter" => Form::Open(Opening::FromFilename),
        "dotenv_iter" => Form::Open(Opening::Dotenv),
        "items_from_path" => Form::Items(Opening::FromPath),
        "items_from_filename" => Form::Items(Opening::FromFilename),
        "items_dotenv" => Form::Items(Opening::Dotenv),
        "var" => Form::Var,
        "vars" => Form::Vars,
        "require" => Form::Require,
        _ => return None,
    };
    Some(form)
}

impl<'a> Call<'a> {
    /// The call of this name, if there is one.
    pub fn named(name: &str, given: &'a str) -> Option<Call<'a>> {
        Some(Call {
            form: form_named(name)?,
            given,
        })
    }

    /// Makes the call, and adds the texts of its answer: `ok`, the path that was found, the items, the value, the
    /// pairs. A fault is its answer.
    pub fn make<A: Allocator + Clone, R: Files + Env + Alloc<A = A>>(
        self,
        rt: &R,
        environment: &mut Environment<A>,
        texts: &mut Vec<String>,
    ) -> Result<(), A> {
        match self.form {
            Form::Load(loading) => {
                self.load(rt, loading, environment)?;
                push(texts, "ok")
            }
            Form::Find(finding) => {
                let path = self.find(rt, finding, environment)?;
                push(texts, path.as_str())
            }
            Form::Open(opening) => {
                self.open(rt, opening)?.load(environment)?;
                push(texts, "ok")
            }
            Form::Items(opening) => push_items(texts, &mut self.open(rt, opening)?, environment),
            Form::Var => {
                let value = dotenvy::var(rt, environment, self.given)?;
                push(texts, value.as_str())
            }
            Form::Vars => push_vars(rt, environment, texts),
            Form::Require => self.require(rt, environment, texts),
        }
    }

    fn load<A: Allocator + Clone, R: Files + Env + Alloc<A = A>>(
        self,
        rt: &R,
        loading: Loading,
        environment: &mut Environment<A>,
    ) -> Result<(), A> {
        let path = Path::new(self.given);
        match loading {
            Loading::FromPath => dotenvy::from_path(rt, path, environment),
            Loading::FromPathOverride => dotenvy::from_path_override(rt, path, environment),
            Loading::FromRead => {
                let file = Plain::new(File::open(rt, path)?);
                dotenvy::from_read(rt.alloc(), file, environment)
            }
            Loading::FromReadOverride => {
                let file = Plain::new(File::open(rt, path)?);
                dotenvy::from_read_override(rt.alloc(), file, environment)
            }
            Loading::Add(mode) => {
                let mut layers = taken(rt, environment);
                let answer = layers.add(rt.alloc(), Bytes::new(self.given.as_bytes()), mode);
                *environment = layers.into_environment();
                answer
            }
        }
    }

    fn find<A: Allocator + Clone, R: Files + Env + Alloc<A = A>>(
        self,
        rt: &R,
        finding: Finding,
        environment: &mut Environment<A>,
    ) -> Result<PathBuf<A>, A> {
        let name = Path::new(self.given);
        match finding {
            Finding::FromFilename => dotenvy::from_filename(rt, name, environment),
            Finding::FromFilenameOverride => dotenvy::from_filename_override(rt, name, environment),
            Finding::FromFilenameWith(dialect) => {
                dotenvy::from_filename_with(rt, name, dialect, environment)
            }
            Finding::AddFile(dialect) => {
                let mut layers = taken(rt, environment);
                let answer = layers.add_file(rt, name, dialect);
                *environment = layers.into_environment();
                answer
            }
            Finding::AddFileWith(dialect, mode) => {
                let mut layers = taken(rt, environment);
                let answer = layers.add_file_with(rt, name, dialect, mode);
                *environment = layers.into_environment();
                answer
            }
            Finding::FindFilename => dotenvy::find_filename(rt, name),
            Finding::OpenFilename(dialect) => {
                let (path, mut file) = dotenvy::open_filename(rt, name, dialect)?;
                file.load_rest(environment)?;
                Ok(path)
            }
            Finding::Dotenv => dotenvy::dotenv(rt, environment),
            Finding::DotenvOverride => dotenvy::dotenv_override(rt, environment),
        }
    }

    fn open<A: Allocator + Clone, R: Files + Env + Alloc<A = A>>(
        self,
        rt: &R,
        opening: Opening,
    ) -> Result<Iter<Plain<R::File>, A>, A> {
        let path = Path::new(self.given);
        match opening {
            Opening::FromPath => dotenvy::from_path_iter(rt, path),
            Opening::FromFilename => dotenvy::from_filename_iter(rt, path),
            Opening::Dotenv => dotenvy::dotenv_iter(rt),
        }
    }

    // Requires the names, which stand between blanks: `ok`, or `missing` and the names.
    fn require<A: Allocator + Clone, R: Alloc<A = A>>(
        self,
        rt: &R,
        environment: &mut Environment<A>,
        texts: &mut Vec<String>,
    ) -> Result<(), A> {
        let names: Vec<&str> = self.given.split_whitespace().collect(*texts.allocator())?;
        let layers = taken(rt, environment);
        let answer = layers.require(rt.alloc(), &names);
        *environment = layers.into_environment();
        match answer {
            Err(Missing::Memory(refused)) => Err(refused.into()),
            _ => Ok(push_required(texts, &answer)?),
        }
    }
}

// Layers over the environment, in whose place an empty one stands.
fn taken<A: Allocator + Clone, R: Alloc<A = A>>(
    rt: &R,
    environment: &mut Environment<A>,
) -> Layers<A> {
    Layers::new(mem::replace(environment, Environment::new(rt.alloc())))
}

fn push_vars<A: Allocator + Clone, R: Files + Env + Alloc<A = A>>(
    rt: &R,
    environment: &mut Environment<A>,
    texts: &mut Vec<String>,
) -> Result<(), A> {
    for (name, value) in dotenvy::vars(rt, environment)? {
        let text = format!(in *texts.allocator(); "{name}={value}")?;
        texts.push(text)?;
    }
    Ok(())
}

fn push<A: Allocator>(texts: &mut Vec<String>, text: &str) -> Result<(), A> {
    let text = String::from_str(*texts.allocator(), text)?;
    texts.push(text)?;
    Ok(())
}
