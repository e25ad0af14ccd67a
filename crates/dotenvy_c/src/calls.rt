//! The calls that need no memory.

ghost use Rattle.std.specs.Prelude.{◌≡◌, ◌↔◌, IsTrue};
ghost use Rattle.std.specs.Str.{chars, is_utf8};
ghost use Rattle.dotenvy.specs.Keys.{is_key};

use std::str;

/// Whether these bytes are a key of a file (docs/GRAMMAR.md, "Keys").
#[unsafe(no_mangle)]
pub extern "C" fn dotenvy_is_key(text: &[u8]) -> bool
    ensures { IsTrue result ↔ (IsTrue (is_utf8 text.now) × IsTrue (is_key (chars text.now))) }
{
    match str::from_utf8(text) {
        Ok(text) => dotenvy::is_key(text),
        Err(_) => false,
    }
}

/// The version of these calls: 1000000 times the major number, 1000 times the minor one, and the number of the patch.
/// Calls of one major number stay as they are.
#[unsafe(no_mangle)]
pub extern "C" fn dotenvy_version() -> u32
    ensures { result ≡ 1000000 }
{
    1_000_000
}
