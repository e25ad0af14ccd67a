//! The steps by which a file is replaced, and why it was not.

use std::{fmt, io};

/// A step of the replacement of a file.
#[derive(Clone, Copy, Debug, PartialEq, Eq, Drop)]
pub enum Step {
    /// To make a new file beside the old one.
    Make,
    /// To write the new file.
    Write,
    /// To give it the owner of the old one.
    Owner,
    /// To give it the permissions of the old one.
    Permissions,
    /// To sync it.
    Sync,
    /// To put it in the place of the old one.
    Put,
    /// To sync the folder.
    SyncFolder,
    /// To remove the new file, where another step failed.
    Remove,
}

/// Why a file was not replaced, or its folder not synced.
#[derive(Debug, Drop)]
pub struct Unreplaced {
    /// The step that failed.
    pub step: Step,
    /// Why it failed.
    pub fault: io::Error,
    /// Why the new file is left beside the old one, if it is.
    pub left: Option<io::Error>,
}
