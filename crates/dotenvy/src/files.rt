//! Loads and iterators of files, by their path or by a name that is searched for.
ghost use Rattle.std.specs.Prelude.{◌≡◌, IfErr, IfOk, codes};
ghost use Rattle.std.specs.Path.{path_bytes, path_buf_bytes};
ghost use Rattle.dotenvy_base.specs.Errors.{IsFileFault};
ghost use Rattle.dotenvy_base.specs.Find.{IsPathOf};
ghost use Rattle.dotenvy_base.specs.Source.{nothing_told};
ghost use Rattle.dotenvy_items.specs.Iter.{fresh};
ghost use Rattle.dotenvy_items.specs.LoadsRest.{ChangesOnlyKeys, OnlyAdds};

use crate::find::{open_filename, opened};
use dotenvy_base::environment::Environment;
use dotenvy_base::errors::Result;
use dotenvy_base::source::Plain;
use dotenvy_format::dialect::Dialect;
use dotenvy_items::iter::{Iter, from_read_iter};
use std::alloc::{Alloc, Allocator};
use std::env::Env;
use std::fs::{File, Files};
use std::path::{Path, PathBuf};

/// Loads the file at a path: a name that is there keeps its value (docs/GRAMMAR.md, "Loading").
///
/// `Io` tells why the file could not be opened or read. After any error what stands before it in the file is set.
///
/// Whatever the file holds and whatever is returned, only names that are keys change, and the `loaded` flag stays. The
/// same goes for each call here that loads a file.
///
/// ```
/// from_path(&rt, Path::new("/etc/service.env"), &mut environment)?;
/// ```
pub fn from_path<A: Allocator + Clone, R: Files + Alloc<A = A>>(
    rt: &R,
    path: Path<'_>,
    env: &mut Environment<A>,
) -> Result<(), A>
    ensures adds { OnlyAdds env.old env.new }
{
    from_path_iter(rt, path)?.load(env)
}

/// As [`from_path`], but each name that the file declares is set.
///
/// ```
/// from_path_override(&rt, Path::new("/etc/service.env"), &mut environment)?;
/// ```
pub fn from_path_override<A: Allocator + Clone, R: Files + Alloc<A = A>>(
    rt: &R,
    path: Path<'_>,
    env: &mut Environment<A>,
) -> Result<(), A>
    ensures changes { ChangesOnlyKeys env.old env.new }
{
    from_path_iter(rt, path)?.load_override(env)
}

/// A fresh iterator over the file at a path; nothing is read yet, and nothing is set. `Io` tells why the file could not
/// be opened.
///
/// The error is `Memory` or `Io`, and the kind of an `Io` is never `OutOfMemory`.
///
/// ```
/// let mut file = from_path_iter(&rt, Path::new("/etc/service.env"))?;
/// ```
pub fn from_path_iter<A: Allocator + Clone, R: Files + Alloc<A = A>>(
    rt: &R,
    path: Path<'_>,
) -> Result<Iter<Plain<R::File>, A>, A>
    ensures ok { IfOk result (λ file. file ≡ fresh nothing_told Dialect.V15) }
    ensures fault { IfErr result IsFileFault }
{
    from_read_iter(rt.alloc(), opened(File::open(rt, path))?)
}

/// Searches for the file of a name in the current directory and in those above it, and loads it: a name that is there
/// keeps its value. The path that was found is the answer (docs/GRAMMAR.md, "Finding the file").
///
/// `Io` tells why there was no current directory, why a candidate could not be looked at, or why the file could not be
/// opened or read; its kind is `NotFound` where there is no such file (see [`Error::not_found`](crate::Error)). After
/// any error what stands before it in the file is set.
///
/// ```
/// let path = from_filename(&rt, Path::new("service.env"), &mut environment)?;
/// ```
pub fn from_filename<A: Allocator + Clone, R: Files + Env + Alloc<A = A>>(
    rt: &R,
    filename: Path<'_>,
    env: &mut Environment<A>,
) -> Result<PathBuf<A>, A>
    ensures path { IfOk result (λ p. IsPathOf (path_bytes filename.entry) (path_buf_bytes p)) }
    ensures adds { OnlyAdds env.old env.new }
{
    from_filename_with(rt, filename, Dialect::V15, env)
}

/// As [`from_filename`], with the dialect of the file (docs/GRAMMAR.md, "The second dialect").
///
/// ```
/// from_filename_with(&rt, Path::new("service.env"), Dialect::Next, &mut environment)?;
/// ```
pub fn from_filename_with<A: Allocator + Clone, R: Files + Env + Alloc<A = A>>(
    rt: &R,
    filename: Path<'_>,
    dialect: Dialect,
    env: &mut Environment<A>,
) -> Result<PathBuf<A>, A>
    ensures path { IfOk result (λ p. IsPathOf (path_bytes filename.entry) (path_buf_bytes p)) }
    ensures adds { OnlyAdds env.old env.new }
{
    let (path, file) = open_filename(rt, filename, dialect)?;
    file.load(env)?;
    Ok(path)
}

/// As [`from_filename`], but each name that the file declares is set.
///
/// ```
/// let path = from_filename_override(&rt, Path::new("service.env"), &mut environment)?;
/// ```
pub fn from_filename_override<A: Allocator + Clone, R: Files + Env + Alloc<A = A>>(
    rt: &R,
    filename: Path<'_>,
    env: &mut Environment<A>,
) -> Result<PathBuf<A>, A>
    ensures path { IfOk result (λ p. IsPathOf (path_bytes filename.entry) (path_buf_bytes p)) }
    ensures changes { ChangesOnlyKeys env.old env.new }
{
    let (path, file) = open_filename(rt, filename, Dialect::V15)?;
    file.load_override(env)?;
    Ok(path)
}

/// Searches as [`from_filename`] does. A fresh iterator over the file that was found; nothing is read yet, and nothing
/// is set.
///
/// ```
/// let mut file = from_filename_iter(&rt, Path::new("service.env"))?;
/// ```
pub fn from_filename_iter<A: Allocator + Clone, R: Files + Env + Alloc<A = A>>(
    rt: &R,
    filename: Path<'_>,
) -> Result<Iter<Plain<R::File>, A>, A>
    ensures ok { IfOk result (λ file. file ≡ fresh nothing_told Dialect.V15) }
    ensures fault { IfErr result IsFileFault }
{
    let (_, file) = open_filename(rt, filename, Dialect::V15)?;
    Ok(file)
}

/// [`from_filename`] of `.env`. The `loaded` flag stays as it is: only the first use sets it (see [`var`](crate::var)).
///
/// ```
/// let mut environment = Environment::from_process(&rt)?;
/// let path = dotenv(&rt, &mut environment)?;
/// ```
pub fn dotenv<A: Allocator + Clone, R: Files + Env + Alloc<A = A>>(
    rt: &R,
    env: &mut Environment<A>,
) -> Result<PathBuf<A>, A>
    ensures path { IfOk result (λ p. IsPathOf (codes ".env") (path_buf_bytes p)) }
    ensures adds { OnlyAdds env.old env.new }
{
    from_filename(rt, Path::new(".env"), env)
}

/// [`from_filename_override`] of `.env`.
///
/// ```
/// let path = dotenv_override(&rt, &mut environment)?;
/// ```
pub fn dotenv_override<A: Allocator + Clone, R: Files + Env + Alloc<A = A>>(
    rt: &R,
    env: &mut Environment<A>,
) -> Result<PathBuf<A>, A>
    ensures path { IfOk result (λ p. IsPathOf (codes ".env") (path_buf_bytes p)) }
    ensures changes { ChangesOnlyKeys env.old env.new }
{
    from_filename_override(rt, Path::new(".env"), env)
}

/// [`from_filename_iter`] of `.env`.
///
/// ```
/// let mut file = dotenv_iter(&rt)?;
/// ```
pub fn dotenv_iter<A: Allocator + Clone, R: Files + Env + Alloc<A = A>>(
    rt: &R,
) -> Result<Iter<Plain<R::File>, A>, A>
    ensures ok { IfOk result (λ file. file ≡ fresh nothing_told Dialect.V15) }
    ensures fault { IfErr result IsFileFault }
{
    from_filename_iter(rt, Path::new(".env"))
}
