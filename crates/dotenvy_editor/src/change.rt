//! What is done with the assignments of a key.

ghost use Rattle.std.specs.Prelude.{◌≡◌, ◌↔◌, IsTrue, chars};
ghost use Rattle.dotenvy_editor.specs.inside.Changing.{dialect_of, gives, key_of};

use crate::values::is_same;
use crate::writing::Setting;
use dotenvy::Dialect;

/// What is done with the assignments of a key.
#[derive(Clone, Copy)]
pub(crate) enum Change<'k> {
    /// The first has this value, and later ones go.
    Set(Setting<'k>),
    /// Those of this key go.
    Unset(&'k str, Dialect),
    /// Those of the first key assign the second.
    Rename(&'k str, &'k str, Dialect),
}

impl<'k> Change<'k> {
    /// The key whose assignments are changed.
    pub(crate) fn key(self) -> &'k str
        ensures { chars result.now ≡ key_of self.entry }
    {
        match self {
            Change::Set(setting) => setting.key,
            Change::Unset(key, _) | Change::Rename(key, _, _) => key,
        }
    }

    /// The dialect of the file.
    pub(crate) fn dialect(self) -> Dialect
        ensures { result ≡ dialect_of self.entry }
    {
        match self {
            Change::Set(setting) => setting.how.dialect,
            Change::Unset(_, dialect) | Change::Rename(_, _, dialect) => dialect,
        }
    }

    /// Whether this is the new key of a rename.
    pub(crate) fn gives(self, key: &str) -> bool
        ensures { result ≡ gives self.entry (chars key.now) }
    {
        match self {
            Change::Rename(_, new, _) => is_same(new, key),
            Change::Set(_) | Change::Unset(_, _) => false,
        }
    }
}
