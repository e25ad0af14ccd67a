//! Faults of a played system: of a kind alone, or with a code of the system (docs/ROWS.md, "Steps on files and on the
//! system").

use crate::notation::kind;
use anyhow::Result;
use std::io;
use std::io::ErrorKind;

/// A fault of the system.
#[derive(Clone, Copy, Drop)]
pub enum SystemFault {
    /// Of this kind, without a code.
    Kind(ErrorKind),
    /// With this code, which has a kind and a text.
    Code(i32),
}

impl SystemFault {
    /// The fault of a text: the name of a kind, or a code.
    ///
    /// ```
    /// let fault = SystemFault::read("24")?;    // Too many open files (os error 24)
    /// ```
    pub fn read(written: &str) -> Result<SystemFault> {
        match written.parse::<u8>() {
            Ok(code) => Ok(SystemFault::Code(i32::from(code))),
            Err(_) => Ok(SystemFault::Kind(kind(written)?)),
        }
    }

    /// The fault that an error of the system is.
    pub fn of(error: &io::Error) -> SystemFault {
        match error.raw_os_error() {
            Some(code) => SystemFault::Code(code),
            None => SystemFault::Kind(error.kind()),
        }
    }

    /// The error of a call that fails so.
    pub fn error(self) -> io::Error {
        match self {
            SystemFault::Kind(kind) => io::Error::from(kind),
            SystemFault::Code(code) => io::Error::from_raw_os_error(code),
        }
    }
}
