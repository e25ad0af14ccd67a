//! A file found in the current directory or above it, opened.
ghost use Rattle.std.specs.Prelude.{◌≡◌, Err, IfErr, IfOk, IsOk, OnOk};
ghost use Rattle.std.specs.Fs.{file_type, IsFile};
ghost use Rattle.std.specs.Path.{path_bytes, path_buf_bytes};
ghost use Rattle.dotenvy_base.specs.Errors.{IsFileFault, or_memory};
ghost use Rattle.dotenvy_base.specs.Find.{IsPathOf};
ghost use Rattle.dotenvy_base.specs.Source.{nothing_told};
ghost use Rattle.dotenvy_items.specs.Iter.{fresh};

use dotenvy_base::errors::{Error, Result, or_memory};
use dotenvy_base::search;
use dotenvy_base::search::Look;
use dotenvy_base::source::Plain;
use dotenvy_format::dialect::Dialect;
use dotenvy_items::iter::Iter;
use std::alloc::{Alloc, Allocator};
use std::env::Env;
use std::fs::{File, Files, Metadata};
use std::io::{ErrorKind, Read};
use std::path::{Path, PathBuf};
use std::{env, fs, io};

/// Searches for the file of a name in the current directory and in those above it. Links are followed.
///
/// Returns the path that was found, which also names the file in messages; nothing is opened (docs/GRAMMAR.md, "Finding
/// the file"). The errors are those of [`from_filename`](crate::from_filename) that come before the file is opened.
///
/// The error is `Memory` or `Io`, and the kind of an `Io` is never `OutOfMemory`.
///
/// ```
/// let path = find_filename(&rt, Path::new(".env"))?; // for example `/srv/app/.env`
/// ```
pub fn find_filename<A: Allocator + Clone, R: Files + Env + Alloc<A = A>>(
    rt: &R,
    filename: Path<'_>,
) -> Result<PathBuf<A>, A>
    ensures path { IfOk result (λ path.
        IsPathOf (path_bytes filename.entry) (path_buf_bytes path)) }
    ensures fault { IfErr result IsFileFault }
{
    let directory = match env::current_dir(rt) {
        Ok(directory) => directory,
        Err(fault) => return Err(or_memory(Error::Io(fault))),
    };
    match search::find(
        rt.alloc(),
        directory.as_path(),
        filename,
        &mut |path| { look_of(fs::metadata(rt, path)) },
    ) {
        Ok(path) => Ok(path),
        Err(error) if error.not_found() => Err(Error::Io(io::Error::new(
            ErrorKind::NotFound,
            "no such file in the current directory or above it",
        ))),
        Err(error) => Err(or_memory(error)),
    }
}

/// Searches for the file of a name in the current directory and in those above it, and opens it. Links are followed.
///
/// Returns the path that was found, and a fresh iterator over the file, in this dialect (docs/GRAMMAR.md, "Finding the
/// file"). Nothing is read yet, and nothing is set. The errors are those of [`from_filename`](crate::from_filename).
///
/// The error is `Memory` or `Io`, and the kind of an `Io` is never `OutOfMemory`.
///
/// ```
/// let (path, mut file) = open_filename(&rt, Path::new(".env"), Dialect::V15)?;
/// file.load_rest(&mut environment)?;
/// ```
pub fn open_filename<A: Allocator + Clone, R: Files + Env + Alloc<A = A>>(
    rt: &R,
    filename: Path<'_>,
    dialect: Dialect,
) -> Result<(PathBuf<A>, Iter<Plain<R::File>, A>), A>
    ensures path { IfOk result
        (λ found. IsPathOf (path_bytes filename.entry) (path_buf_bytes found.0)) }
    ensures file { IfOk result (λ found. found.1 ≡ fresh nothing_told dialect) }
    ensures fault { IfErr result IsFileFault }
{
    let path = find_filename(rt, filename)?;
    let file = opened(File::open(rt, path.as_path()))?;
    Ok((path, Iter::with_dialect(rt.alloc(), file, dialect)?))
}

/// The file that an opening gave, or why there is none: each fault of an opening is one.
pub(crate) fn opened<F: Read, A: Allocator>(answer: io::Result<F>) -> Result<Plain<F>, A>
    ensures file { OnOk answer (IsOk result) }
    ensures fault { IfErr answer (λ fault. result ≡ Err (or_memory (Error.Io fault))) }
{
    match answer {
        Ok(file) => Ok(Plain::new(file)),
        Err(fault) => Err(or_memory(Error::Io(fault))),
    }
}

// What a result of the file system says. Only a regular file is a file, whatever else is known of it. A fault is passed
// on as it came: which faults end a search is for the search.
fn look_of(answer: io::Result<Metadata>) -> Look
    ensures file { IfOk answer (λ found. IsFile (file_type found) → result ≡ Look.File) }
    ensures other { IfOk answer (λ found. ¬ (IsFile (file_type found)) → result ≡ Look.Other) }
    ensures fault { IfErr answer (λ fault. result ≡ Look.Fault fault) }
{
    match answer {
        Ok(found) if found.is_file() => Look::File,
        Ok(_) => Look::Other,
        Err(fault) => Look::Fault(fault),
    }
}
