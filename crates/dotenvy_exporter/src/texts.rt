//! Tests on texts, by their bytes.

ghost use Rattle.std.specs.Prelude.{◌≡◌, ◌<◌, chars};
ghost use Rattle.dotenvy_exporter.specs.Docker.{ends_in_return};
ghost use Rattle.dotenvy_exporter.specs.Texts.{has};

use memchr::memchr;

/// Whether a character of ASCII is in the text.
pub(crate) fn has(text: &str, wanted: u8) -> bool
    requires { wanted < 128 }
    ensures { result ≡ has wanted (chars text.now) }
{
    memchr(wanted, text.as_bytes()).is_some()
}

/// Whether the text's last character is a carriage return.
pub(crate) fn ends_in_return(text: &str) -> bool
    ensures { result ≡ ends_in_return (chars text.now) }
{
    match text.as_bytes().last() {
        Some(last) => *last == b'\r',
        None => false,
    }
}
