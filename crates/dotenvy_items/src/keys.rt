//! Keys: the texts that a statement of a file may name.

ghost use Rattle.std.specs.Prelude.{◌≡◌, IsTrue};
ghost use Rattle.std.specs.Str.{chars};
ghost use Rattle.dotenvy_base.specs.Environment.{name_ok};
ghost use Rattle.dotenvy_format.specs.Keys.{is_key};

use dotenvy_format::classes::{begins_key, continues_key};

/// Whether the whole text is a key, as docs/GRAMMAR.md says under "Keys". Each key is a name.
///
/// ```
/// assert!(rt; is_key("_a.B9") && !is_key("1A") && !is_key("my name"));
/// ```
pub fn is_key(text: &str) -> bool
    ensures key { result ≡ is_key (chars text.now) }
    ensures name { IsTrue result → IsTrue (name_ok text.now) }
{
    let mut characters = text.chars();
    match characters.next() {
        Some(first) => begins_key(first) && characters.all(continues_key),
        None => false,
    }
}
