//! What is written of pairs, a line each.

ghost use Rattle.std.specs.Prelude.{◌≡◌, ◌++◌, ◌∷◌, [], IfOk, OnOk, chars, string_bytes};
ghost use Rattle.dotenvy_items.specs.Listed.{pairs_of};
ghost use Rattle.dotenvy_exporter.specs.Lines.{lines_bytes};

use crate::{docker, exec, shell};
use dotenvy::Environment;
use std::alloc::{AllocError, Allocator};

/// The form of a line.
#[derive(Clone, Copy)]
pub(crate) enum Form {
    /// `NAME=VALUE`.
    Docker,
    /// `export NAME='VALUE'`.
    Shell,
    /// `export NAME='VALUE'`, or `set -- 'NAME=VALUE' "$@"` where a shell can't export the name.
    Exec,
}

// Appends the line of a pair.
fn push_line<A: Allocator>(
    out: &mut String<A>,
    form: Form,
    name: &str,
    value: &str,
) -> Result<(), AllocError>
    ensures { OnOk result (string_bytes out.new
        ≡ string_bytes out.old ++ lines_bytes form ((chars name.now, chars value.now) ∷ [])) }
{
    match form {
        Form::Docker => docker::push_line(out, name, value),
        Form::Shell => shell::push_line(out, name, value),
        Form::Exec => exec::push_line(out, name, value),
    }
}

/// The lines of all pairs, in byte order of the names.
pub(crate) fn lines<A: Allocator + Clone>(
    alloc: A,
    form: Form,
    env: &Environment<A>,
) -> Result<String<A>, AllocError>
    ensures { IfOk result (λ text. string_bytes text ≡ lines_bytes form (pairs_of env.now.names)) }
{
    let mut out = String::new(alloc);
    'pairs: for (name, value) in env.iter() {
        push_line(&mut out, form, name.as_str(), value.as_str())?;
    }
    Ok(out)
}
