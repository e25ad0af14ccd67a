//! Calls that take a reader and load or list it, by name.

use dotenvy::{
    Dialect, Environment, Error, Iter, Result, Sink, Source, from_read, from_read_override, list,
    list_with,
};
use dotenvy_command::failure::{Failure, Usage};
use dotenvy_command::run::run;
use env_layers::{Layers, Mode};
use std::alloc::{Alloc, Allocator};
use std::env::Env;
use std::fs::Files;
use std::io;
use std::process::Processes;
use test_support::environment::copied;

/// A call, and the dialect if it is given one. The others read the first dialect.
#[derive(Clone, Copy)]
pub enum ReaderCall {
    Load(Dialect),
    LoadOverride(Dialect),
    FromRead,
    FromReadOverride,
    Add(Mode),
    List,
    ListWith(Dialect),
    Run(Dialect),
}

/// The loads that are given a dialect.
pub const LOADS: [&str; 2] = ["load", "load_override"];

/// The loads that are given none, and layers.
pub const FIRST_LOADS: [&str; 4] = [
    "from_read",
    "from_read_override",
    "add_keep",
    "add_override",
];

/// The listings that are given a dialect.
pub const LISTINGS: [&str; 2] = ["list_with", "run"];

/// The listing that is given none.
pub const FIRST_LISTINGS: [&str; 1] = ["list"];

impl ReaderCall {
    /// The call of this name, in this dialect if it is given one.
    pub fn named(name: &str, dialect: Dialect) -> Option<ReaderCall> {
        let call = match name {
            "load" => ReaderCall::Load(dialect),
            "load_override" => ReaderCall::LoadOverride(dialect),
            "from_read" => ReaderCall::FromRead,
            "from_read_override" => ReaderCall::FromReadOverride,
            "add_keep" => ReaderCall::Add(Mode::Keep),
            "add_override" => ReaderCall::Add(Mode::Override),
            "list" => ReaderCall::List,
            "list_with" => ReaderCall::ListWith(dialect),
            "run" => ReaderCall::Run(dialect),
            _ => return None,
        };
        Some(call)
    }

    /// Makes the call on this reader: a load into an environment of one name, or a listing to this writer.
    pub fn make<
        A: Allocator + Clone,
        R: Files + Env + Processes + Alloc<A = A>,
        S: Source + Drop,
        W: Sink,
    >(self, rt: &R, mut reader: S, writer: &mut W) -> Result<(), A> {
        let alloc = rt.alloc();
        let mut environment = one_name(rt.alloc())?;
        match self {
            ReaderCall::Load(dialect) => {
                Iter::with_dialect(alloc, reader, dialect)?.load(&mut environment)
            }
            ReaderCall::LoadOverride(dialect) => {
                Iter::with_dialect(alloc, reader, dialect)?.load_override(&mut environment)
            }
            ReaderCall::FromRead => from_read(alloc, reader, &mut environment),
            ReaderCall::FromReadOverride => from_read_override(alloc, reader, &mut environment),
            ReaderCall::Add(mode) => Layers::new(environment).add(alloc, reader, mode),
            ReaderCall::List => list(alloc, reader, writer),
            ReaderCall::ListWith(dialect) => list_with(alloc, reader, writer, dialect),
            ReaderCall::Run(dialect) => run_list(rt, &mut reader, writer, dialect),
        }
    }
}

// An environment whose copies take memory.
fn one_name<A: Allocator + Clone>(alloc: A) -> Result<Environment<A>, A> {
    let mut pairs = Vec::new(alloc.clone()?);
    pairs.push((copied(&alloc, "THERE")?, copied(&alloc, "1")?))?;
    Environment::from_pairs(alloc, pairs)
}

// Lists the reader by the program's words.
fn run_list<A: Allocator + Clone, R: Files + Env + Processes + Alloc<A = A>, S: Source, W: Sink>(
    rt: &R,
    reader: &mut S,
    writer: &mut W,
    dialect: Dialect,
) -> Result<(), A> {
    let alloc = rt.alloc();
    let mut words = Vec::new(rt.alloc());
    words.push(copied(&alloc, "--list")?)?;
    if dialect == Dialect::Next {
        words.push(copied(&alloc, "--next")?)?;
    }
    match run(rt, &words, reader, writer) {
        Ok(_) => Ok(()),
        Err(Failure::Load(error)) => Err(error),
        Err(Failure::Usage(Usage::Memory(refused))) => Err(Error::Memory(refused)),
        Err(_) => Err(Error::Io(io::Error::other("no list"))),
    }
}
