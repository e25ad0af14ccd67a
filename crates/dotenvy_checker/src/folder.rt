//! The environment files of a folder.

ghost use Rattle.std.specs.Prelude.{◌≡◌, IfOk, string_bytes};
ghost use Rattle.std.specs.List.{filter};
ghost use Rattle.std.specs.List.Sorted.{IsPermutation, IsSorted};
ghost use Rattle.std.specs.String.{string_cmp};
ghost use Rattle.dotenvy_words.specs.Found.{texts};
ghost use Rattle.dotenvy_checker.specs.Folders.{is_among, is_chosen, is_environment_name, path_in, paths_in};

use dotenvy::Error;
use std::alloc::{Alloc, AllocError, Allocator, Global};
use std::fs::{DirEntry, Files};
use std::path::Path;
use std::{fs, io};

/// The files of a folder.
#[derive(Drop)]
pub struct Entries<A: Allocator = Global> {
    /// What each is called, or the path of each.
    pub names: Vec<String<A>, A>,
    /// How many entries are left out since their name is not UTF-8.
    pub unnamed: usize,
}

/// Whether a word names a folder, or a link to one.
pub fn is_folder<R: Files>(rt: &R, word: &str) -> bool {
    match fs::metadata(rt, Path::new(word)) {
        Ok(metadata) => metadata.is_dir(),
        Err(_) => false,
    }
}

/// The environment files right in a folder, each as `FOLDER/NAME`, in the order of their names.
///
/// ```
/// // of the folder `config` with the files `b.env`, `.env` and `.env.example`, where `.env.example` is excluded:
/// // `config/.env` and `config/b.env`
/// let files = files_of(rt, "config", &words.excluded)?;
/// ```
pub fn files_of<A: Allocator + Clone, R: Files + Alloc<A = A> + Clone + Drop>(
    rt: &R,
    folder: &str,
    excluded: &[String<A>],
) -> Result<Entries<A>, Error<A>> {
    let entries = entries_of(rt, folder)?;
    let names = chosen(entries.names, excluded);
    Ok(Entries {
        names: paths_in(rt.alloc(), folder, names.as_slice())?,
        unnamed: entries.unnamed,
    })
}

/// The regular files right in a folder, in any order. A link is none.
pub fn entries_of<A: Allocator + Clone, R: Files + Alloc<A = A> + Clone + Drop>(
    rt: &R,
    folder: &str,
) -> Result<Entries<A>, Error<A>> {
    let mut entries = Entries {
        names: Vec::new(rt.alloc()),
        unnamed: 0,
    };
    for entry in fs::read_dir(rt, Path::new(folder))? {
        entries.add(rt.alloc(), entry)?;
    }
    Ok(entries)
}

impl<A: Allocator> Entries<A> {
    // Adds an entry of a folder, if it is a regular file.
    fn add<R: Files + Drop>(
        &mut self,
        alloc: A,
        entry: io::Result<DirEntry<R, A>>,
    ) -> Result<(), Error<A>> {
        let entry = match entry {
            Ok(entry) => entry,
            Err(fault) if fault.kind() == io::ErrorKind::InvalidFilename => {
                self.unnamed = self.unnamed.saturating_add(1);
                return Ok(());
            }
            Err(fault) => return Err(Error::Io(fault)),
        };
        if entry.file_type()?.is_file() {
            self.names
                .push(String::from_str(alloc, entry.file_name())?)?;
        }
        Ok(())
    }
}

/// The names of environment files, without those that are excluded, in the order of their bytes.
pub fn chosen<A: Allocator>(names: Vec<String<A>, A>, excluded: &[String<A>]) -> Vec<String<A>, A>
    ensures chosen { IsPermutation
        (filter (λ name. is_chosen (texts excluded.now) (string_bytes name)) names.items)
        result.items }
    ensures sorted { IsSorted string_cmp result.items }
{
    let mut chosen = names;
    chosen.retain(|name| is_chosen(excluded, name.as_str()));
    chosen.sort_unstable();
    chosen
}

// Whether a file of this name is checked.
fn is_chosen<A: Allocator>(excluded: &[String<A>], name: &str) -> bool
    ensures { result ≡ is_chosen (texts excluded.now) name.now }
{
    is_environment_name(name) && !is_among(excluded, name)
}

// Whether an environment file is called like this.
fn is_environment_name(name: &str) -> bool
    ensures { result ≡ is_environment_name name.now }
{
    let bytes = name.as_bytes();
    bytes.ends_with(b".env".as_slice())
        || (bytes.len() > 5 && bytes.starts_with(b".env.".as_slice()))
}

// Whether a name is one of these.
fn is_among<A: Allocator>(names: &[String<A>], name: &str) -> bool
    ensures { result ≡ is_among (texts names.now) name.now }
{
    let mut rest = names;
    'names: while let Some((first, after)) = rest.split_first() {
        if first.as_str() == name {
            return true;
        }
        rest = after;
    }
    false
}

// The paths of the files of these names in a folder.
fn paths_in<A: Allocator + Clone>(
    alloc: A,
    folder: &str,
    names: &[String<A>],
) -> Result<Vec<String<A>, A>, AllocError>
    ensures { IfOk result (λ paths. texts paths.items ≡ paths_in folder.now (texts names.now)) }
{
    let mut paths = Vec::new(alloc.clone()?);
    'names: for name in names {
        paths.push(path_in(alloc.clone()?, folder, name.as_str())?)?;
    }
    Ok(paths)
}

// The path of the file of this name in a folder.
fn path_in<A: Allocator>(alloc: A, folder: &str, name: &str) -> Result<String<A>, AllocError>
    ensures { IfOk result (λ path. string_bytes path ≡ path_in folder.now name.now) }
{
    let mut path = String::from_str(alloc, folder)?;
    if !folder.as_bytes().ends_with(b"/".as_slice()) {
        path.push('/')?;
    }
    path.push_str(name)?;
    Ok(path)
}
