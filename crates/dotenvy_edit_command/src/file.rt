//! A file of the system, and the calls that replace it.

ghost use Rattle.std.specs.Prelude.{◌≡◌, false, is_some};

use crate::replacement::Replaceable;
use dotenvy::{Error, Plain};
use dotenvy_base::errors::or_memory;
use dotenvy_base::output::{MOST_WRITES, write_all};
use dotenvy_streams::reading::read_all;
use std::alloc::{Alloc, Allocator};
use std::fs::{File, Files, OpenFile, OpenOptions, Permissions};
use std::io::{ErrorKind, Write};
use std::os::unix::fs::{MetadataExt, OpenOptionsExt, PermissionsExt, chown};
use std::path::Path;
use std::{fs, io};

// The most names that are tried for a new file. One that is taken is that of another call, which may have been killed.
const MOST_NAMES: u32 = 1000;

// Who owns a file, and what each may do with it.
#[derive(Clone, Copy)]
struct Rights {
    user: u32,
    group: u32,
    mode: u32,
}

// A new file beside another one.
#[derive(Drop)]
struct Beside<F: Drop, A: Allocator> {
    file: F,
    path: String<A>,
}

/// A file of the system.
#[derive(Drop)]
pub struct RealFile<'r, R: Files, A: Allocator> {
    rt: &'r R,
    alloc: A,
    // Its path, without a link, once it is found.
    path: String<A>,
    // Those of the file; `None` if it is absent.
    rights: Option<Rights>,
    beside: Option<Beside<R::File, A>>,
}

// Where a file is.
#[derive(Drop)]
struct Place<A: Allocator> {
    path: String<A>,
    rights: Option<Rights>,
}

impl<'r, A: Allocator, R: Files + Alloc<A = A>> RealFile<'r, R, A> {
    /// A file of this system, which is not found yet.
    pub fn new(rt: &'r R) -> RealFile<'r, R, A>
        ensures { is_some result.beside ≡ false }
    {
        RealFile {
            rt,
            alloc: rt.alloc(),
            path: String::new(rt.alloc()),
            rights: None,
            beside: None,
        }
    }
}

// A path that leads to no file that can be edited.
fn no_file() -> io::Error {
    io::Error::new(ErrorKind::InvalidInput, "it is no regular file")
}

// Where the file is that this path leads to. One that is absent is found only where it may be.
fn place_of<A: Allocator + Clone, R: Files + Alloc<A = A>>(
    rt: &R,
    path: &str,
    may_be_absent: bool,
) -> io::Result<Place<A>> {
    let absent = match fs::canonicalize(rt, path) {
        Ok(found) => return existing(rt, found.into_string()),
        Err(fault) => fault,
    };
    if !may_be_absent || absent.kind() != ErrorKind::NotFound || is_there(rt, path) {
        return Err(absent);
    }
    match absent_path(rt, path)? {
        Some(path) => Ok(Place { path, rights: None }),
        None => Err(absent),
    }
}

// Whether something is at this path: a link that leads to nothing, if the path leads to nothing.
fn is_there<R: Files>(rt: &R, path: &str) -> bool {
    fs::symlink_metadata(rt, path).is_ok()
}

// The file at this path, which has no link.
fn existing<A: Allocator + Clone, R: Files + Alloc<A = A>>(
    rt: &R,
    path: String<A>,
) -> io::Result<Place<A>> {
    let metadata = fs::metadata(rt, path.as_str())?;
    if !metadata.is_file() {
        return Err(no_file());
    }
    let rights = Rights {
        user: metadata.uid(),
        group: metadata.gid(),
        mode: metadata.mode() & 0o7777,
    };
    Ok(Place {
        path,
        rights: Some(rights),
    })
}

// The path of a file that is absent, in a folder without a link; `None` if no file can have this path.
fn absent_path<A: Allocator + Clone, R: Files + Alloc<A = A>>(
    rt: &R,
    path: &str,
) -> io::Result<Option<String<A>>> {
    let parts = Path::new(path);
    let Some(name) = parts.file_name() else {
        return Ok(None);
    };
    if !path.ends_with(name) {
        return Ok(None);
    }
    let folder = match parts.parent() {
        Some(folder) if !folder.as_str().is_empty() => fs::canonicalize(rt, folder)?,
        _ => fs::canonicalize(rt, ".")?,
    };
    let path = folder.as_path().join(rt.alloc(), name)?;
    Ok(Some(path.into_string()))
}

// How many bytes an open file has, or 0 if that can't be known. It may grow before it is read.
fn length_of<F: OpenFile>(file: &F) -> usize {
    match file.metadata() {
        Ok(metadata) => metadata.len() as usize,
        Err(_) => 0,
    }
}

// Writes all bytes to a file.
fn write_file<A: Allocator, F: Write>(file: &mut F, bytes: &[u8]) -> io::Result<()> {
    let written: Result<(), Error<A>> = write_all(&mut Plain::new(file), bytes, MOST_WRITES);
    match written {
        Ok(()) => Ok(()),
        Err(Error::Io(fault)) => Err(fault),
        Err(_) => unreachable!(),
    }
}

impl<'r, A: Allocator + Clone, R: Files + Alloc<A = A>> Replaceable for RealFile<'r, R, A> {
    ghost is_made = { λ file. is_some file.beside };

    fn locate(&mut self, path: &str, may_be_absent: bool) -> io::Result<()> {
        let place = place_of(self.rt, path, may_be_absent)?;
        self.path = place.path;
        self.rights = place.rights;
        Ok(())
    }

    fn read<B: Allocator + Clone>(&self, alloc: B) -> Result<Option<Vec<u8, B>>, Error<B>> {
        if self.rights.is_none() {
            return Ok(None);
        }
        match File::open(self.rt, self.path.as_str()) {
            Ok(file) => {
                let room = length_of(&file);
                Ok(Some(read_all(alloc, room, &mut Plain::new(file))?))
            }
            Err(fault) => Err(or_memory(Error::Io(fault))),
        }
    }

    fn make(&mut self) -> io::Result<()> {
        let mut options = OpenOptions::new();
        options.write(true).create_new(true).mode(0o600);
        'names: for number in 0..MOST_NAMES {
            let alloc = self.alloc.clone()?;
            let path = format!(in alloc; "{}.dotenvy_edit-{number}", self.path)?;
            match options.open(self.rt, path.as_str()) {
                Ok(file) => {
                    self.beside = Some(Beside { file, path });
                    return Ok(());
                }
                Err(fault) if fault.kind() == ErrorKind::AlreadyExists => {}
                Err(fault) => return Err(fault),
            }
        }
        Err(io::Error::new(
            ErrorKind::AlreadyExists,
            "all names for a new file are taken",
        ))
    }

    fn write(&mut self, bytes: &[u8]) -> io::Result<()> {
        let Some(mut beside) = self.beside.take() else {
            unreachable!()
        };
        let written = write_file::<A, R::File>(&mut beside.file, bytes);
        self.beside = Some(beside);
        written
    }

    fn keep_owner(&mut self) -> io::Result<()> {
        let (Some(beside), Some(rights)) = (&self.beside, self.rights) else {
            return Ok(());
        };
        chown(
            self.rt,
            beside.path.as_str(),
            Some(rights.user),
            Some(rights.group),
        )
    }

    fn keep_permissions(&mut self) -> io::Result<()> {
        let (Some(beside), Some(rights)) = (&self.beside, self.rights) else {
            return Ok(());
        };
        beside
            .file
            .set_permissions(Permissions::from_mode(rights.mode))
    }

    fn sync(&mut self) -> io::Result<()> {
        match &self.beside {
            Some(beside) => beside.file.sync_all(),
            None => Ok(()),
        }
    }

    fn put(&mut self) -> io::Result<()> {
        if let Some(beside) = &self.beside {
            fs::rename(self.rt, beside.path.as_str(), self.path.as_str())?;
        }
        self.beside = None;
        Ok(())
    }

    fn sync_folder(&mut self) -> io::Result<()> {
        match Path::new(self.path.as_str()).parent() {
            Some(folder) => fs::open(self.rt, folder)?.sync_all(),
            None => Ok(()),
        }
    }

    fn remove(&mut self) -> io::Result<()> {
        if let Some(beside) = &self.beside {
            fs::remove_file(self.rt, beside.path.as_str())?;
        }
        self.beside = None;
        Ok(())
    }
}
