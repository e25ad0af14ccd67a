//! Why a pair can't be written.

use std::alloc::{Allocator, Global};

/// Why a target can't be given a pair.
///
/// ```
/// // of A.B=`1`, Sh gives Reason::Name; of UID=`1000`, Reason::Reserved; and Json takes both
/// ```
#[derive(Clone, Copy, Debug, PartialEq, Eq)]
pub enum Reason {
    /// The name is none that the target takes.
    Name,
    /// The target keeps the name for itself.
    Reserved,
    /// The value has a NUL.
    Nul,
    /// The value has a line feed.
    LineFeed,
    /// The line has 65,536 bytes or more.
    TooLong,
    /// The value has a noncharacter of Unicode, as U+FFFF. systemd refuses a whole file that has one in a value.
    Noncharacter,
}

/// A pair that a target can't be given. Its value isn't kept, since it may be a secret.
///
/// ```
/// if let Err(Unwritten::Refused(refused)) = write_for(alloc, Target::Docker, &environment, &mut writer) {
///     // of KEY with a line feed in its value: refused.name is KEY, and refused.reason is Reason::LineFeed
/// }
/// ```
#[derive(Drop)]
pub struct Refusal<A: Allocator = Global> {
    /// The name.
    pub name: String<A>,
    /// Why it can't.
    pub reason: Reason,
}
