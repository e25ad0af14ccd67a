//! The search for a file, in a directory and in those above it. What is at a path is asked of a function, once for each
//! candidate and in order.

ghost use Rattle.std.specs.Prelude.{◌≡◌, IfOk};
ghost use Rattle.std.specs.Option.{option_map};
ghost use Rattle.std.specs.Path.{path_bytes, path_buf_bytes};
ghost use Rattle.dotenvy_base.specs.Search.{parent_of, path_in};
ghost use Rattle.dotenvy_base.specs.Find.{Finds};

use crate::errors::{Error, Result};
use std::alloc::{AllocError, Allocator};
use std::io;
use std::io::ErrorKind;
use std::path::{Path, PathBuf};

/// What is at a path.
///
/// ```
/// let path = find(alloc, directory, filename, &mut |path| Look::Other)?; // no file anywhere: an error
/// ```
#[derive(Drop)]
pub enum Look {
    /// A file, which ends the search.
    File,
    /// Anything else, such as a directory.
    Other,
    /// It can't be told. An error of kind `NotFound` says that nothing is there; any other ends the search.
    Fault(io::Error),
}

/// Returns the path of the first file with this name, in the directory or in those above it, as `look` sees them.
///
/// `look` is called once for each directory, from this one up, and no more once a file is found (docs/GRAMMAR.md,
/// "Finding the file"). Paths are texts: `.`, `..` and links mean nothing here, and an absolute name is asked for as it
/// is, once for each directory.
///
/// The error is the `Io` that ended the search, an `Io` of kind `NotFound` if no directory has the file, or `Memory`.
///
/// After `Memory`, the candidates that were asked are the first of some search. `look` has to be a function that can
/// always be called. It is borrowed, so that the contract can follow it from state to state: so it is proved that no
/// place is looked at twice, out of order or after the end.
///
/// ```
/// let path = find(alloc, Path::new("/srv/app"), Path::new(".env"), &mut |path| seen_at(path))?;
/// // asks for /srv/app/.env, /srv/.env and /.env, up to the first file
/// ```
pub fn find<A: Allocator + Clone, F: FnMut(Path<'_>) -> Look>(
    alloc: A,
    directory: Path<'_>,
    filename: Path<'_>,
    look: &mut F,
) -> Result<PathBuf<A>, A>
    requires { F.IsAlwaysCallable look.old }
    ensures { Finds F.step look.old look.new
        (path_bytes directory.entry) (path_bytes filename.entry) result }
{
    let mut above = Some(directory);
    'directories: while let Some(place) = above {
        let path = path_in(alloc.clone()?, place, filename)?;
        match look(path.as_path()) {
            Look::File => return Ok(path),
            Look::Other => {}
            Look::Fault(fault) => {
                if fault.kind() != ErrorKind::NotFound {
                    return Err(Error::Io(fault));
                }
            }
        }
        above = parent_of(place);
    }
    Err(Error::Io(io::Error::new(
        ErrorKind::NotFound,
        "no such file in the directory or above it",
    )))
}

// The path of the name in the directory, joined as texts.
fn path_in<A: Allocator>(
    alloc: A,
    directory: Path<'_>,
    filename: Path<'_>,
) -> std::result::Result<PathBuf<A>, AllocError>
    ensures { IfOk result (λ p.
        path_buf_bytes p ≡ path_in (path_bytes directory.entry) (path_bytes filename.entry)) }
{
    let mut path = PathBuf::from_str(alloc, directory.as_str())?;
    path.push(filename)?;
    Ok(path)
}

// The directory above, cut off as a text. The `parent` of std also leaves out `.` and doubled slashes.
fn parent_of<'a>(directory: Path<'a>) -> Option<Path<'a>>
    ensures { option_map path_bytes result ≡ parent_of (path_bytes directory.entry) }
{
    let text = directory.as_str();
    if text.is_empty() || text == "/" {
        return None;
    }
    match text.rfind('/') {
        Some(0) => Some(Path::new("/")),
        Some(end) => Some(Path::new(&text[..end])),
        None => Some(Path::new("")),
    }
}
