//! What a command can be given by a shell, and what is written for that.

ghost use Rattle.std.specs.Prelude.{◌≡◌, ◌++◌, OnOk, chars, encode_utf8_all, string_bytes};
ghost use Rattle.dotenvy_exporter.specs.Exec.{exec_line, exec_refusal, is_environment_name, set_line};

use crate::refusal::Reason;
use crate::shell;
use crate::shell::is_exportable;
use crate::texts::has;
use dotenvy_format::text::split_first;
use std::alloc::{AllocError, Allocator};

// Whether `env` can be handed the name: it is not empty, does not begin with `-`, and has no `=`.
#[tactic(auto, using(dotenvy_format::proofs::bytes::Slices::no_characters))]
fn is_environment_name(name: &str) -> bool
    ensures { result ≡ is_environment_name (chars name.now) }
{
    match split_first(name) {
        Some((first, _)) => first != '-' && !has(name, b'='),
        None => false,
    }
}

/// Why a command can't be given this pair, if it can't.
pub(crate) fn refusal(name: &str, value: &str) -> Option<Reason>
    ensures { result ≡ exec_refusal (chars name.now, chars value.now) }
{
    if !is_environment_name(name) {
        Some(Reason::Name)
    } else if has(name, b'\0') || has(value, b'\0') {
        Some(Reason::Nul)
    } else {
        None
    }
}

// Appends the line that puts the word NAME=VALUE before the arguments.
fn push_set_line<A: Allocator>(
    out: &mut String<A>,
    name: &str,
    value: &str,
) -> Result<(), AllocError>
    ensures { OnOk result (string_bytes out.new
        ≡ string_bytes out.old ++ encode_utf8_all (set_line (chars name.now) (chars value.now))) }
{
    out.push_str("set -- '")?;
    shell::push_value(out, name)?;
    out.push('=')?;
    shell::push_value(out, value)?;
    out.push_str("' \"$@\"\n")
}

/// Appends the line of a pair.
pub(crate) fn push_line<A: Allocator>(
    out: &mut String<A>,
    name: &str,
    value: &str,
) -> Result<(), AllocError>
    ensures { OnOk result (string_bytes out.new
        ≡ string_bytes out.old ++ encode_utf8_all (exec_line (chars name.now) (chars value.now))) }
{
    if is_exportable(name) {
        shell::push_line(out, name, value)
    } else {
        push_set_line(out, name, value)
    }
}
