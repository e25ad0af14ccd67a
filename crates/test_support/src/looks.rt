//! Looks at paths that are played.

use dotenvy::search::Look;
use std::alloc::{AllocError, Global};
use std::path::Path;
use std::{io, vec};

/// Says one thing after another of a list, and keeps the paths that it was asked for.
#[derive(Drop)]
pub struct PlayedLooks {
    alloc: Global,
    looks: vec::IntoIter<Look>,
    asked: Vec<String>,
}

impl PlayedLooks {
    /// Says these looks, and after them that no file is there.
    pub fn new(alloc: Global, looks: Vec<Look>) -> PlayedLooks {
        PlayedLooks {
            alloc,
            looks: looks.into_iter(),
            asked: Vec::new(alloc),
        }
    }

    /// What is said next, of this path.
    pub fn look(&mut self, path: Path<'_>) -> Look {
        match self.keep(path) {
            Ok(()) => self.looks.next().unwrap_or(Look::Other),
            Err(refused) => Look::Fault(io::Error::from(refused)),
        }
    }

    fn keep(&mut self, path: Path<'_>) -> Result<(), AllocError> {
        let path = String::from_str(self.alloc, path.as_str())?;
        self.asked.push(path)?;
        Ok(())
    }

    /// The paths so far, in order.
    pub fn into_asked(self) -> Vec<String> {
        let PlayedLooks {
            alloc: _,
            looks: _,
            asked,
        } = self;
        asked
    }
}
