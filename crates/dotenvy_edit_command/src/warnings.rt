//! What is said of an edit that is made.

ghost use Rattle.std.specs.Prelude.{◌≡◌, ◌++◌, OnOk, string_bytes};
ghost use Rattle.dotenvy_edit_command.specs.Warnings.{warning_lines};

use dotenvy_editor::warning::Warning;
use std::alloc::{AllocError, Allocator};
use std::fmt;

// A warning of an edit of a name in a file, both as they are printed.
#[derive(Drop)]
struct Said<'a, A: Allocator> {
    file: &'a str,
    name: &'a str,
    warning: &'a Warning<A>,
}

impl<A: Allocator> fmt::Display for Said<'_, A> {
    ghost use Rattle.dotenvy_edit_command.specs.Warnings.{warning_text};
    ghost use Rattle.std.specs.Prelude.{Some};

    ghost output = { λ said. Some (warning_text said.file.now said.name.now said.warning.now) };

    fn fmt<W: fmt::Write>(&self, f: &mut fmt::Formatter<W>) -> fmt::Result {
        let (file, name) = (self.file, self.name);
        match self.warning {
            Warning::Mentions { name: other, line } => write!(
                f,
                "{file}:{line}: {other} mentions {name}, directly or through another name"
            ),
            Warning::StopsBefore { line } => {
                write!(f, "{file}:{line}: a load stops at this line, before {name}")
            }
            Warning::Removed { first, last: _ } => {
                write!(f, "{file}:{first}: this later line of {name} is removed")
            }
            Warning::Dollar => write!(f, "{name}: the value has a $, which is text here"),
        }
    }
}

/// Appends a line for each warning of an edit of the name in the file, both as they are printed.
pub(crate) fn push_warnings<A: Allocator + Clone>(
    text: &mut String<A>,
    file: &str,
    name: &str,
    warnings: &[Warning<A>],
) -> Result<(), AllocError>
    ensures { OnOk result (string_bytes text.new
        ≡ string_bytes text.old ++ warning_lines file.now name.now warnings.now) }
{
    'warnings: for warning in warnings {
        let alloc = text.allocator().clone()?;
        let said = Said {
            file,
            name,
            warning,
        };
        let line = format!(in alloc; "dotenvy_edit: warning: {said}\n")?;
        text.push_str(line.as_str())?;
    }
    Ok(())
}
