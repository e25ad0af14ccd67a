//! How a value is written.

use dotenvy::Dialect;

/// How a key is set: the dialect of the file, and which readers are to give the value alike.
///
/// ```
/// // for a file that Python, Node or Ruby reads, too
/// let how = How { dialect: Dialect::V15, is_portable: true };
/// ```
#[derive(Clone, Copy, Debug, PartialEq, Eq, Drop)]
pub struct How {
    /// The dialect of the file.
    pub dialect: Dialect,
    /// Whether the readers of Python, Node and Ruby have to give the value, too.
    pub is_portable: bool,
}

/// A key, and the value that it is given.
#[derive(Clone, Copy)]
pub(crate) struct Setting<'a> {
    pub(crate) key: &'a str,
    pub(crate) value: &'a str,
    pub(crate) how: How,
}
