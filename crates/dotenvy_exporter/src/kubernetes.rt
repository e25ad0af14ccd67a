//! What kubectl can be given. What is written for it is what docker is given.

ghost use Rattle.std.specs.Prelude.{◌≡◌, chars};
ghost use Rattle.dotenvy_exporter.specs.Kubernetes.{begins_entry, continues_entry, has_entry_characters, is_kubernetes_key, is_path_name, kubernetes_refusal};

use crate::docker;
use crate::refusal::Reason;

// Whether a key can begin with the character.
fn begins_entry(c: char) -> bool
    ensures { result ≡ begins_entry c }
{
    c.is_ascii_alphabetic() || matches!(c, '_' | '-' | '.')
}

// Whether the character can come later in a key.
fn continues_entry(c: char) -> bool
    ensures { result ≡ continues_entry c }
{
    begins_entry(c) || c.is_ascii_digit()
}

// Whether each character can be in a key, with no digit first.
fn has_entry_characters(name: &str) -> bool
    ensures { result ≡ has_entry_characters (chars name.now) }
{
    let mut characters = name.chars();
    match characters.next() {
        Some(first) => begins_entry(first) && characters.all(continues_entry),
        None => false,
    }
}

// Whether a file can have the name: it is not `.`, and doesn't begin with `..`.
fn is_path_name(name: &str) -> bool
    ensures { result ≡ is_path_name name.now }
{
    !(name == "." || name.as_bytes().starts_with(b".."))
}

// Whether the text is a key of kubernetes.
#[tactic(auto, using(crate::proofs::WrittenBytes::text_bytes))]
fn is_key(name: &str) -> bool
    ensures { result ≡ is_kubernetes_key (chars name.now) }
{
    let is_short = name.len() <= 253;
    has_entry_characters(name) && (is_path_name(name) && is_short)
}

/// Why kubectl can't be given this pair, if it can't.
pub(crate) fn refusal(name: &str, value: &str) -> Option<Reason>
    ensures { result ≡ kubernetes_refusal (chars name.now, chars value.now) }
{
    if is_key(name) {
        docker::refusal(name, value)
    } else {
        Some(Reason::Name)
    }
}
