//! What a POSIX shell can be given, and what is written for it.

ghost use Rattle.std.specs.Prelude.{◌≡◌, ◌++◌, OnOk, chars, encode_utf8_all, string_bytes};
ghost use Rattle.std.specs.List.{flat_map};
ghost use Rattle.dotenvy_exporter.specs.Shell.{begins_shell_name, continues_shell_name, is_exportable, is_shell_name, shell_character, shell_line, shell_refusal};

use crate::refusal::Reason;
use crate::reserved::is_reserved;
use crate::texts::has;
use dotenvy_format::text::{Class, split_first, split_while};
use std::alloc::{AllocError, Allocator};

// Whether a name of a shell can begin with the character.
fn begins_name(c: char) -> bool
    ensures { result ≡ begins_shell_name c }
{
    c.is_ascii_alphabetic() || c == '_'
}

// Whether the character can come later in a name of a shell.
fn continues_name(c: char) -> bool
    ensures { result ≡ continues_shell_name c }
{
    begins_name(c) || c.is_ascii_digit()
}

/// Whether the text is the name of a shell's variable.
pub(crate) fn is_name(name: &str) -> bool
    ensures { result ≡ is_shell_name (chars name.now) }
{
    let mut characters = name.chars();
    match characters.next() {
        Some(first) => begins_name(first) && characters.all(continues_name),
        None => false,
    }
}

/// Whether a shell has a variable of this name, and doesn't keep it.
#[tactic(auto, using(crate::proofs::WrittenBytes::text_bytes))]
pub(crate) fn is_exportable(name: &str) -> bool
    ensures { result ≡ is_exportable (chars name.now) }
{
    is_name(name) && !is_reserved(name)
}

/// Why a shell can't be given this pair, if it can't.
pub(crate) fn refusal(name: &str, value: &str) -> Option<Reason>
    ensures { result ≡ shell_refusal (chars name.now, chars value.now) }
{
    if !is_name(name) {
        Some(Reason::Name)
    } else if is_reserved(name) {
        Some(Reason::Reserved)
    } else if has(value, b'\0') {
        Some(Reason::Nul)
    } else {
        None
    }
}

// Appends what is written of a character.
fn push_character<A: Allocator>(out: &mut String<A>, c: char) -> Result<(), AllocError>
    ensures { OnOk result (string_bytes out.new
        ≡ string_bytes out.old ++ encode_utf8_all (shell_character c)) }
{
    if c == '\'' {
        out.push_str("'\\''")
    } else {
        out.push(c)
    }
}

/// Appends what is written of a value, between its quotes. Runs of plain characters are appended at once.
#[tactic(auto, using(crate::proofs::ShellBytes::value_steps))]
pub(crate) fn push_value<A: Allocator>(out: &mut String<A>, value: &str) -> Result<(), AllocError>
    ensures { OnOk result (string_bytes out.new
        ≡ string_bytes out.old ++ encode_utf8_all (flat_map shell_character (chars value.now))) }
{
    let mut rest = value;
    'parts: while let Some((first, after_first)) = split_first(rest) {
        if matches!(first, '\'' | '\\') {
            push_character(out, first)?;
            rest = after_first;
        } else {
            let (plain, after) = split_while(rest, Class::Quoted('\''));
            out.push_str(plain)?;
            rest = after;
        }
    }
    Ok(())
}

/// Appends the line of a pair.
pub(crate) fn push_line<A: Allocator>(
    out: &mut String<A>,
    name: &str,
    value: &str,
) -> Result<(), AllocError>
    ensures { OnOk result (string_bytes out.new
        ≡ string_bytes out.old ++ encode_utf8_all (shell_line (chars name.now) (chars value.now))) }
{
    out.push_str("export ")?;
    out.push_str(name)?;
    out.push_str("='")?;
    push_value(out, value)?;
    out.push_str("'\n")
}
