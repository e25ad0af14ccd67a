//! Lists of texts, and the bytes that a text stands for (docs/ROWS.md, "Texts").

use anyhow::{Context, Result, bail};
use std::alloc::{AllocError, Global};
use std::io::ErrorKind;

/// The texts of a list, as they are written: none of an empty field.
///
/// ```
/// let texts = list(alloc, "A=1; B=x%3b y")?;    // A=1 and B=x%3b y
/// ```
pub fn list<'a>(alloc: Global, field: &'a str) -> std::result::Result<Vec<&'a str>, AllocError> {
    if field.is_empty() {
        return Ok(Vec::new(alloc));
    }
    field.split("; ").collect(alloc)
}

/// The bytes that a text stands for.
///
/// ```
/// let file = bytes(alloc, "A=%(3*ab)%0a")?;    // A=ababab and a line feed
/// ```
pub fn bytes(alloc: Global, text: &str) -> Result<Vec<u8>> {
    let mut bytes = Vec::new(alloc);
    let mut parts = text.split("%(");
    if let Some(first) = parts.next() {
        push_bytes(&mut bytes, first)?;
    }
    for part in parts {
        let (repeated, rest) = part
            .split_once(')')
            .context("a repetition without its end")?;
        push_repeated(&mut bytes, repeated)?;
        push_bytes(&mut bytes, rest)?;
    }
    Ok(bytes)
}

/// The text that a text stands for, which must be UTF-8.
pub fn text(alloc: Global, written: &str) -> Result<String> {
    Ok(String::from_utf8(bytes(alloc, written)?)?)
}

/// The texts that those of a list stand for.
pub fn texts(alloc: Global, field: &str) -> Result<Vec<String>> {
    let mut texts = Vec::new(alloc);
    for written in list(alloc, field)? {
        texts.push(text(alloc, written)?)?;
    }
    Ok(texts)
}

/// The names and values of a list such as `A=1; B=2`.
pub fn pairs(alloc: Global, field: &str) -> Result<Vec<(String, String)>> {
    let mut pairs = Vec::new(alloc);
    for written in list(alloc, field)? {
        pairs.push(pair(alloc, written)?)?;
    }
    Ok(pairs)
}

/// A name and its value, as `A=1`.
pub fn pair(alloc: Global, written: &str) -> Result<(String, String)> {
    let (name, value) = written.split_once('=').context("a pair without `=`")?;
    Ok((text(alloc, name)?, text(alloc, value)?))
}

// Each kind of std's faults, and its name there.
const KINDS: [(&str, ErrorKind); 42] = [
    ("NotFound", ErrorKind::NotFound),
    ("PermissionDenied", ErrorKind::PermissionDenied),
    ("ConnectionRefused", ErrorKind::ConnectionRefused),
    ("ConnectionReset", ErrorKind::ConnectionReset),
    ("HostUnreachable", ErrorKind::HostUnreachable),
    ("NetworkUnreachable", ErrorKind::NetworkUnreachable),
    ("ConnectionAborted", ErrorKind::ConnectionAborted),
    ("NotConnected", ErrorKind::NotConnected),
    ("AddrInUse", ErrorKind::AddrInUse),
    ("AddrNotAvailable", ErrorKind::AddrNotAvailable),
    ("NetworkDown", ErrorKind::NetworkDown),
    ("BrokenPipe", ErrorKind::BrokenPipe),
    ("AlreadyExists", ErrorKind::AlreadyExists),
    ("WouldBlock", ErrorKind::WouldBlock),
    ("NotADirectory", ErrorKind::NotADirectory),
    ("IsADirectory", ErrorKind::IsADirectory),
    ("DirectoryNotEmpty", ErrorKind::DirectoryNotEmpty),
    ("ReadOnlyFilesystem", ErrorKind::ReadOnlyFilesystem),
    ("FilesystemLoop", ErrorKind::FilesystemLoop),
    ("StaleNetworkFileHandle", ErrorKind::StaleNetworkFileHandle),
    ("InvalidInput", ErrorKind::InvalidInput),
    ("InvalidData", ErrorKind::InvalidData),
    ("TimedOut", ErrorKind::TimedOut),
    ("WriteZero", ErrorKind::WriteZero),
    ("StorageFull", ErrorKind::StorageFull),
    ("NotSeekable", ErrorKind::NotSeekable),
    ("QuotaExceeded", ErrorKind::QuotaExceeded),
    ("FileTooLarge", ErrorKind::FileTooLarge),
    ("ResourceBusy", ErrorKind::ResourceBusy),
    ("ExecutableFileBusy", ErrorKind::ExecutableFileBusy),
    ("Deadlock", ErrorKind::Deadlock),
    ("CrossesDevices", ErrorKind::CrossesDevices),
    ("TooManyLinks", ErrorKind::TooManyLinks),
    ("InvalidFilename", ErrorKind::InvalidFilename),
    ("ArgumentListTooLong", ErrorKind::ArgumentListTooLong),
    ("Interrupted", ErrorKind::Interrupted),
    ("Unsupported", ErrorKind::Unsupported),
    ("UnexpectedEof", ErrorKind::UnexpectedEof),
    ("OutOfMemory", ErrorKind::OutOfMemory),
    ("InProgress", ErrorKind::InProgress),
    ("Other", ErrorKind::Other),
    ("Uncategorized", ErrorKind::Uncategorized),
];

/// A kind of fault, by its name in std.
pub fn kind(name: &str) -> Result<ErrorKind> {
    for (known, kind) in KINDS {
        if known == name {
            return Ok(kind);
        }
    }
    bail!("no kind of fault is called {name}")
}

/// What a text such as `take 1 x5` says so often: here `take 1` and 5. A text without a number is said once.
pub fn repeated<'a>(written: &'a str) -> Result<(&'a str, usize)> {
    match written.split_once(" x") {
        Some((once, times)) => Ok((once, times.parse()?)),
        None => Ok((written, 1)),
    }
}

// Adds a text without repetitions.
fn push_bytes(bytes: &mut Vec<u8>, text: &str) -> Result<()> {
    let mut parts = text.split('%');
    if let Some(first) = parts.next() {
        bytes.extend_from_slice(first.as_bytes())?;
    }
    for part in parts {
        let (digits, rest) = part
            .split_at_checked(2)
            .context("a byte without two digits")?;
        bytes.push(u8::from_str_radix(digits, 16)?)?;
        bytes.extend_from_slice(rest.as_bytes())?;
    }
    Ok(())
}

// Adds what `3*ab` says.
fn push_repeated(bytes: &mut Vec<u8>, repeated: &str) -> Result<()> {
    let (count, text) = repeated
        .split_once('*')
        .context("a repetition without `*`")?;
    let count: usize = count.parse()?;
    let mut once = Vec::new(*bytes.allocator());
    push_bytes(&mut once, text)?;
    for _ in 0..count {
        bytes.extend_from_slice(&once)?;
    }
    Ok(())
}
