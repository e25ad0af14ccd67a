//! The reading of the files that the words name, before anything is written.

ghost use Rattle.std.specs.Prelude.{◌≡◌, IfErr, IfOk, true};
ghost use Rattle.std.specs.FinMap as fin;
ghost use Rattle.dotenvy_export_command.specs.Ends.{IsUnread};

use crate::failure::Failure;
use crate::inputs::Inputs;
use crate::words::{Named, Words};
use dotenvy::{Environment, Error, Plain, Source, find_filename};
use dotenvy_base::errors::or_memory;
use dotenvy_reports::one_line::one_line;
use dotenvy_streams::reading::read_all;
use std::alloc::{Alloc, AllocError, Allocator};
use std::env::Env;
use std::fs::{File, Files};
use std::io::ErrorKind;
use std::path::{Path, PathBuf};

/// Reads the files that the words name, or `.env`, each to its end.
pub(crate) fn read_inputs<A: Allocator + Clone, R: Files + Env + Alloc<A = A>, S: Source>(
    rt: &R,
    words: &Words<A>,
    reader: &mut S,
) -> Result<Inputs<A>, Failure<A>>
    ensures alone { IfOk result
        (λ inputs. words.now.ignores_environment ≡ true → inputs.env.names ≡ fin.empty) }
    ensures unread { IfErr result IsUnread }
{
    let mut inputs = Inputs {
        names: Vec::new(rt.alloc()),
        contents: Vec::new(rt.alloc()),
        env: environment(rt, words.ignores_environment)?,
    };
    if words.files.is_empty() {
        inputs.read_file(rt, ".env", false)?;
    }
    'files: for file in &words.files {
        inputs.read(rt, file, reader)?;
    }
    Ok(inputs)
}

// Whether a file of this name is standard input.
fn is_input(name: &str) -> bool {
    name == "-"
}

// The environment of the process, or the empty one.
fn environment<A: Allocator + Clone, R: Env + Alloc<A = A>>(
    rt: &R,
    ignored: bool,
) -> Result<Environment<A>, AllocError>
    ensures { IfOk result (λ env. ignored ≡ true → env.names ≡ fin.empty) }
{
    if ignored {
        return Ok(Environment::new(rt.alloc()));
    }
    match Environment::from_process(rt) {
        Ok(env) => Ok(env),
        Err(Error::Memory(refused)) => Err(refused),
        Err(_) => unreachable!(),
    }
}

impl<A: Allocator + Clone> Inputs<A> {
    // Reads the file that the words name so, or standard input.
    fn read<R: Files + Env + Alloc<A = A>, S: Source>(
        &mut self,
        rt: &R,
        file: &Named<A>,
        reader: &mut S,
    ) -> Result<(), Failure<A>>
        ensures env { self.new.env ≡ self.old.env }
        ensures unread { IfErr result IsUnread }
    {
        if is_input(file.name.as_str()) {
            self.read_input(rt.alloc(), reader)
        } else {
            self.read_file(rt, file.name.as_str(), file.optional)
        }
    }

    // Reads standard input.
    fn read_input<S: Source>(&mut self, alloc: A, reader: &mut S) -> Result<(), Failure<A>>
        ensures env { self.new.env ≡ self.old.env }
        ensures unread { IfErr result IsUnread }
    {
        let contents = read_all(alloc, 0, reader);
        self.push("<stdin>", contents)
    }

    // Reads the file of this name. One that may be absent and is adds nothing.
    fn read_file<R: Files + Env + Alloc<A = A>>(
        &mut self,
        rt: &R,
        name: &str,
        optional: bool,
    ) -> Result<(), Failure<A>>
        ensures env { self.new.env ≡ self.old.env }
        ensures unread { IfErr result IsUnread }
    {
        let path = match path_of(rt, name) {
            Ok(path) => path,
            Err(error) if optional && error.not_found() => return Ok(()),
            Err(error) => return self.push(name, Err(error)),
        };
        match File::open(rt, path.as_path()) {
            Ok(file) => {
                let contents = read_all(rt.alloc(), 0, &mut Plain::new(file));
                self.push(path.as_path().as_str(), contents)
            }
            Err(fault) if optional && fault.kind() == ErrorKind::NotFound => Ok(()),
            Err(fault) => self.push(path.as_path().as_str(), Err(or_memory(Error::Io(fault)))),
        }
    }

    // Adds the contents of a file.
    fn push(&mut self, name: &str, contents: Result<Vec<u8, A>, Error<A>>) -> Result<(), Failure<A>>
        ensures env { self.new.env ≡ self.old.env }
        ensures unread { IfErr result IsUnread }
    {
        let alloc = self.names.allocator().clone()?;
        let name = one_line(alloc, name)?;
        match contents {
            Ok(contents) => {
                self.names.push(name)?;
                self.contents.push(contents)?;
                Ok(())
            }
            Err(error) => Err(Failure::File(name, error)),
        }
    }
}

// The path of the file of this name: one without a `/` is searched in the current directory and in those above it.
fn path_of<A: Allocator + Clone, R: Files + Env + Alloc<A = A>>(
    rt: &R,
    name: &str,
) -> Result<PathBuf<A>, Error<A>> {
    if name.contains('/') {
        Ok(PathBuf::from_str(rt.alloc(), name)?)
    } else {
        find_filename(rt, Path::new(name))
    }
}
