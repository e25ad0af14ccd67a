//! What `docker run --env-file` and kubectl can be given, and what is written for them.

ghost use Rattle.std.specs.Prelude.{◌≡◌, ◌++◌, ◌∷◌, OnOk, chars, encode_utf8_all, string_bytes};
ghost use Rattle.dotenvy_format.specs.Characters.{equals_sign};
ghost use Rattle.dotenvy_exporter.specs.Docker.{closing, docker_line, docker_refusal, fits_scanner, name_holds};

use crate::refusal::Reason;
use crate::texts::{ends_in_return, has};
use std::alloc::{AllocError, Allocator};

// Whether docker reads this name as it is.
fn name_holds(name: &str) -> bool
    ensures { result ≡ name_holds (chars name.now) }
{
    match name.chars().next() {
        Some(first) => {
            !(first.is_whitespace() || first == '#' || first == '\u{feff}')
                && !has(name, b'=')
                && !has(name, b'\n')
                && !has(name, b' ')
                && !has(name, b'\t')
        }
        None => false,
    }
}

// Whether the line is shorter than what docker refuses.
fn fits_scanner(name: &str, value: &str) -> bool
    ensures { result ≡ fits_scanner
        (chars name.now ++ equals_sign ∷ (chars value.now ++ closing (chars value.now))) }
{
    let around: usize = if ends_in_return(value) { 2 } else { 1 };
    name.len()
        .saturating_add(value.len())
        .saturating_add(around)
        < 65_536
}

/// Why docker can't be given this pair, if it can't.
pub(crate) fn refusal(name: &str, value: &str) -> Option<Reason>
    ensures { result ≡ docker_refusal (chars name.now, chars value.now) }
{
    if !name_holds(name) {
        Some(Reason::Name)
    } else if has(name, b'\0') || has(value, b'\0') {
        Some(Reason::Nul)
    } else if has(value, b'\n') {
        Some(Reason::LineFeed)
    } else if fits_scanner(name, value) {
        None
    } else {
        Some(Reason::TooLong)
    }
}

// Appends what closes a value.
fn push_closing<A: Allocator>(out: &mut String<A>, value: &str) -> Result<(), AllocError>
    ensures { OnOk result (string_bytes out.new
        ≡ string_bytes out.old ++ encode_utf8_all (closing (chars value.now))) }
{
    if ends_in_return(value) {
        out.push('\r')
    } else {
        Ok(())
    }
}

/// Appends the line of a pair.
pub(crate) fn push_line<A: Allocator>(
    out: &mut String<A>,
    name: &str,
    value: &str,
) -> Result<(), AllocError>
    ensures { OnOk result (string_bytes out.new
        ≡ string_bytes out.old ++ encode_utf8_all (docker_line (chars name.now) (chars value.now))) }
{
    out.push_str(name)?;
    out.push('=')?;
    out.push_str(value)?;
    push_closing(out, value)?;
    out.push('\n')
}
