//! What C is told of the warnings of an edit.

ghost use Rattle.std.specs.Prelude.{◌≡◌, IfOk};
ghost use Rattle.dotenvy_c.specs.Warnings.{TellsWarnings, noted_of, warning_told};

use dotenvy_editor::warning::{Edited, Warning};
use std::alloc::{AllocError, Global};

/// The value of a name, which a line declares, mentions the key, itself or through other names.
pub const MENTIONS: u32 = 1;

/// A load stops at a line, before it comes to the key.
pub const STOPS_BEFORE: u32 = 2;

/// Lines went: a later assignment of the key, or lines of a value with a fault.
pub const REMOVED: u32 = 3;

/// The value has a dollar and a name, which are text in the file.
pub const DOLLAR: u32 = 4;

/// Something to know of an edit that was made.
#[repr(C)]
#[derive(Clone, Copy, Drop)]
pub struct ToldWarning {
    /// Which warning it is.
    pub kind: u32,
    /// Where its name begins in the buffer for the new file: the names are after it.
    pub name_at: usize,
    /// How many bytes its name takes: none, if it is not of a name.
    pub name_len: usize,
    /// The physical line on which it begins, counted from 1, as it was before the edit; 0 for one that is on no line.
    pub first_line: u64,
    /// The physical line on which it ends.
    pub last_line: u64,
    /// 0. A later version can tell more here.
    pub reserved: [u64; 2],
}

/// A new file, and the names of its warnings after it; and the records of the warnings.
#[derive(Drop)]
pub struct ToldFile {
    /// The bytes of the file, and of the names.
    pub bytes: Vec<u8>,
    /// A record of each warning.
    pub warnings: Vec<ToldWarning>,
}

// What is told of a warning.
#[derive(Clone, Copy)]
struct Noted<'a> {
    kind: u32,
    name: &'a [u8],
    first_line: u64,
    last_line: u64,
}

// What is told of this warning.
fn warning_told<'a>(warning: &'a Warning) -> Noted<'a>
    ensures { noted_of result ≡ warning_told warning.now }
{
    let (kind, name, first_line, last_line) = match warning {
        Warning::Mentions { name, line } => (MENTIONS, name.as_bytes(), *line, *line),
        Warning::StopsBefore { line } => (STOPS_BEFORE, b"".as_slice(), *line, *line),
        Warning::Removed { first, last } => (REMOVED, b"".as_slice(), *first, *last),
        Warning::Dollar => (DOLLAR, b"".as_slice(), 0, 0),
    };
    Noted {
        kind,
        name,
        first_line,
        last_line,
    }
}

/// The file of an edit, with what is told of its warnings.
pub fn told_file(alloc: Global, edited: Edited) -> Result<ToldFile, AllocError>
    ensures { IfOk result (TellsWarnings edited) }
{
    let Edited {
        mut bytes,
        warnings: given,
    } = edited;
    let mut warnings = Vec::new(alloc);
    'warnings: for warning in given.iter() {
        let noted = warning_told(warning);
        warnings.push(ToldWarning {
            kind: noted.kind,
            name_at: bytes.len(),
            name_len: noted.name.len(),
            first_line: noted.first_line,
            last_line: noted.last_line,
            reserved: [0; 2],
        })?;
        bytes.extend_from_slice(noted.name)?;
    }
    Ok(ToldFile { bytes, warnings })
}
