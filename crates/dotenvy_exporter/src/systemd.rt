//! What systemd can be given. What is written for it is the written form.

ghost use Rattle.std.specs.Prelude.{◌≡◌, chars};
ghost use Rattle.dotenvy_exporter.specs.Systemd.{has_noncharacter, is_noncharacter, systemd_refusal};

use crate::refusal::Reason;
use crate::shell::is_name;
use crate::texts::has;

// Whether Unicode calls the character a noncharacter.
fn is_noncharacter(c: char) -> bool
    ensures { result ≡ is_noncharacter c }
{
    let code = c as u32;
    (0xFDD0 <= code && code <= 0xFDEF) || 0xFFFE <= code % 0x10000
}

// Whether the text has a noncharacter. One of ASCII has none, which is seen without a look at each character.
#[tactic(auto, using(crate::proofs::TextBytes::ascii_none))]
fn has_noncharacter(text: &str) -> bool
    ensures { result ≡ has_noncharacter (chars text.now) }
{
    !text.is_ascii() && text.chars().any(is_noncharacter)
}

/// Why systemd can't be given this pair, if it can't.
pub(crate) fn refusal(name: &str, value: &str) -> Option<Reason>
    ensures { result ≡ systemd_refusal (chars name.now, chars value.now) }
{
    if !is_name(name) {
        Some(Reason::Name)
    } else if has(value, b'\0') {
        Some(Reason::Nul)
    } else if has_noncharacter(value) {
        Some(Reason::Noncharacter)
    } else {
        None
    }
}
