//! A system that fails where a test wants it, in a current directory and with entries of the process that a test wants.
//! It notes at what it looks, and what is opened and started.

ghost use Rattle.std.specs.Io.{WritesAtMost};

use crate::file::{FailingRead, PlayedFile};
use crate::process::{PlayedProcess, Start, described};
use crate::system_fault::SystemFault;
use std::alloc::{Alloc, Allocator, Global};
use std::cell::RefCell;
use std::env::{Env, FillError};
use std::fs::{Files, Metadata, OpenOptions};
use std::io::ErrorKind;
use std::process::{Child, Command, Processes, Stdio};
use std::{io, mem};

/// The system of a test, which opens its files and looks at them. It has the current directory and the entries of the
/// process that are given here.
#[derive(Drop)]
pub struct PlayedSystem {
    rt: HostRuntime,
    /// The current directory, if it is another one.
    pub directory: Option<String>,
    /// The fault of asking for the current directory, if that fails.
    pub lost: Option<SystemFault>,
    /// The fault of each opening, if they fail.
    pub closed: Option<SystemFault>,
    /// The fault of each opening that asks for more than to read, if these fail.
    pub sealed: Option<SystemFault>,
    /// A path whose opening fails, and the fault.
    pub locked: Option<(String, SystemFault)>,
    /// A read of each opened file, if one is to fail.
    pub broken: Option<FailingRead>,
    /// A path at which looks fail, and their fault.
    pub hidden: Option<(String, SystemFault)>,
    /// The entries of the process.
    pub entries: Vec<Vec<u8>>,
    /// What becomes of a command.
    pub start: Start,
    looks: RefCell<Vec<String>>,
    notes: RefCell<Vec<String>>,
}

impl PlayedSystem {
    /// Nothing fails, the process has no entries, and a command ends with the status 0.
    pub fn new(rt: HostRuntime) -> PlayedSystem {
        PlayedSystem {
            rt,
            directory: None,
            lost: None,
            closed: None,
            sealed: None,
            locked: None,
            broken: None,
            hidden: None,
            entries: Vec::new(rt.alloc()),
            start: Start::Ends(0),
            looks: RefCell::new(Vec::new(rt.alloc())),
            notes: RefCell::new(Vec::new(rt.alloc())),
        }
    }

    /// As `new`, but no file is found, since there is no current directory.
    pub fn without_files(rt: HostRuntime) -> PlayedSystem {
        let mut system = PlayedSystem::new(rt);
        system.lost = Some(SystemFault::Kind(ErrorKind::NotFound));
        system
    }

    /// The paths at which was looked since the last call.
    pub fn take_looks(&mut self) -> Vec<String> {
        mem::replace(self.looks.get_mut(), Vec::new(self.rt.alloc()))
    }

    /// The paths that were opened since the last call, and the commands that were started, as
    /// `start [sh][-c][exit] A=[1] P=[0]`. Those that failed are among them.
    pub fn take_notes(&mut self) -> Vec<String> {
        mem::replace(self.notes.get_mut(), Vec::new(self.rt.alloc()))
    }
}

// Adds a text to those that are noted.
fn note(notes: &RefCell<Vec<String>>, text: String) -> io::Result<()> {
    let Ok(mut notes) = notes.try_borrow_mut() else {
        return Err(io::Error::from(ErrorKind::Other));
    };
    Ok(notes.push(text)?)
}

impl Processes for PlayedSystem {
    type Started = PlayedProcess;

    fn spawn<B: Allocator + Clone>(
        &self,
        command: &Command<B>,
        stdin: &Stdio,
        stdout: &Stdio,
        stderr: &Stdio,
    ) -> io::Result<Child<PlayedProcess>> {
        let alloc = self.rt.alloc();
        let text = format!(in alloc; "start {}", described(alloc, command)?)?;
        note(&self.notes, text)?;
        let process = match self.start {
            Start::Runs => PlayedProcess::ended(self.rt.spawn(command, stdin, stdout, stderr)?),
            Start::Ends(status) => PlayedProcess::with(status),
            Start::Fails(fault) => return Err(fault.error()),
            Start::IsLost(fault) => PlayedProcess::lost(fault),
        };
        Ok(Child::from_parts(process, None, None, None))
    }
}

impl Alloc for PlayedSystem {
    type A = Global;

    fn alloc(&self) -> Global {
        self.rt.alloc()
    }
}

impl Env for PlayedSystem {
    fn arg(&self, _i: usize, _buf: &mut [u8]) -> Result<usize, FillError> {
        Err(FillError::NotPresent)
    }

    fn var(&self, name: &str, buf: &mut [u8]) -> Result<usize, FillError> {
        for entry in &self.entries {
            if let Some(rest) = entry.strip_prefix(name.as_bytes())
                && let Some(value) = rest.strip_prefix(b"=")
            {
                return fill(value, buf);
            }
        }
        Err(FillError::NotPresent)
    }

    fn var_at(&self, i: usize, buf: &mut [u8]) -> Result<usize, FillError> {
        match self.entries.get(i) {
            Some(entry) => fill(entry, buf),
            None => Err(FillError::NotPresent),
        }
    }

    fn current_dir(&self, buf: &mut [u8]) -> io::Result<usize> {
        match (self.lost, &self.directory) {
            (Some(fault), _) => Err(fault.error()),
            (None, None) => self.rt.current_dir(buf),
            (None, Some(directory)) => match fill(directory.as_bytes(), buf) {
                Ok(length) => Ok(length),
                Err(_) => Err(io::Error::from(ErrorKind::InvalidFilename)),
            },
        }
    }
}

// Puts the bytes at the front of the buffer, and counts them.
fn fill(bytes: &[u8], buf: &mut [u8]) -> Result<usize, FillError>
    ensures { WritesAtMost result buf.new }
{
    match buf.get_mut(..bytes.len()) {
        Some(front) => front.copy_from_slice(bytes),
        None => return Err(FillError::TooLong),
    }
    Ok(bytes.len())
}

impl Files for PlayedSystem {
    type File = PlayedFile;

    type Dir = <HostRuntime as Files>::Dir;

    fn open_file(&self, how: &OpenOptions, path: &str) -> io::Result<PlayedFile> {
        note(&self.notes, String::from_str(self.rt.alloc(), path)?)?;
        if let Some(fault) = self.closed {
            return Err(fault.error());
        }
        if let Some((locked, fault)) = &self.locked
            && locked.as_str() == path
        {
            return Err(fault.error());
        }
        match self.sealed {
            Some(fault) if asks_for_more(how) => Err(fault.error()),
            _ => Ok(PlayedFile::new(self.rt.open_file(how, path)?, self.broken)),
        }
    }

    fn metadata(&self, path: &str) -> io::Result<Metadata> {
        note(&self.looks, String::from_str(self.rt.alloc(), path)?)?;
        match &self.hidden {
            Some((hidden, fault)) if hidden.as_str() == path => Err(fault.error()),
            _ => self.rt.metadata(path),
        }
    }

    fn symlink_metadata(&self, path: &str) -> io::Result<Metadata> {
        self.rt.symlink_metadata(path)
    }

    fn open_dir(&self, path: &str) -> io::Result<<HostRuntime as Files>::Dir> {
        self.rt.open_dir(path)
    }

    fn copy(&self, _from: &str, _to: &str) -> io::Result<u64> {
        unsupported()
    }

    fn rename(&self, _from: &str, _to: &str) -> io::Result<()> {
        unsupported()
    }

    fn remove_file(&self, _path: &str) -> io::Result<()> {
        unsupported()
    }

    fn create_dir(&self, _path: &str) -> io::Result<()> {
        unsupported()
    }

    fn remove_dir(&self, _path: &str) -> io::Result<()> {
        unsupported()
    }

    fn remove_dir_all<B: Allocator>(&self, _alloc: B, _path: &str) -> io::Result<()> {
        unsupported()
    }
}

// Whether more is asked for than to read.
fn asks_for_more(how: &OpenOptions) -> bool {
    how.asks_write()
        || how.asks_append()
        || how.asks_truncate()
        || how.asks_create()
        || how.asks_create_new()
}

fn unsupported<T>() -> io::Result<T> {
    Err(io::Error::from(ErrorKind::Unsupported))
}
