//! The name of a file as a reference to it in a URI.

ghost use Rattle.std.specs.Prelude.{◌≡◌, ◌++◌, IfOk, OnOk, string_bytes};
ghost use Rattle.dotenvy_reports.specs.Uris.{is_kept, uri, uri_byte};

use percent_encoding::percent_encode_byte;
use std::alloc::{AllocError, Allocator};

// Whether the byte stands for itself.
fn is_kept(byte: u8) -> bool
    ensures { result ≡ is_kept byte }
{
    byte.is_ascii_alphanumeric() || matches!(byte, b'-' | b'.' | b'_' | b'~' | b'/')
}

// Appends what a byte becomes.
fn push_byte<A: Allocator>(text: &mut String<A>, byte: u8) -> Result<(), AllocError>
    ensures { OnOk result (string_bytes text.new ≡ string_bytes text.old ++ uri_byte byte) }
{
    if is_kept(byte) {
        text.push(char::from(byte))
    } else {
        text.push_str(percent_encode_byte(byte))
    }
}

/// The reference to a file with this name.
pub(crate) fn uri<A: Allocator>(alloc: A, name: &str) -> Result<String<A>, AllocError>
    ensures { IfOk result (λ text. string_bytes text ≡ uri name.now) }
{
    let mut text = String::new(alloc);
    'bytes: for byte in name.as_bytes() {
        push_byte(&mut text, *byte)?;
    }
    Ok(text)
}
