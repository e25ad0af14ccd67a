//! Members of objects of JSON.

ghost use Rattle.std.specs.Prelude.{◌≡◌, ◌++◌, [], OnOk, string_bytes};
ghost use Rattle.json.specs.Print.{print};
ghost use Rattle.dotenvy_reports.specs.JsonLines.{number_member, text_member};
ghost use Rattle.dotenvy_reports.specs.inside.Writing.{Adds};

use json::Writer;
use std::alloc::{AllocError, Allocator};

/// Writes a member that is a text.
pub(crate) fn write_text<A: Allocator>(
    writer: &mut Writer<A>,
    name: &str,
    text: &str,
) -> Result<(), AllocError>
    ensures { Adds result writer.old writer.new (text_member name.now text.now) }
{
    writer.key(name)?;
    writer.string(text)
}

/// Writes a member that is a number.
pub(crate) fn write_number<A: Allocator>(
    writer: &mut Writer<A>,
    name: &str,
    n: u64,
) -> Result<(), AllocError>
    ensures { Adds result writer.old writer.new (number_member name.now n) }
{
    writer.key(name)?;
    writer.u64(n)
}

/// Appends all that was written, by a writer that began with nothing.
pub(crate) fn push_written<A: Allocator>(
    text: &mut String<A>,
    writer: Writer<A>,
) -> Result<(), AllocError>
    requires { writer.before ≡ [] }
    ensures { OnOk result (string_bytes text.new ≡ string_bytes text.old ++ print writer.tokens) }
{
    let written = writer.into_inner();
    match str::from_utf8(written.as_slice()) {
        Ok(added) => text.push_str(added),
        Err(_) => unreachable!(),
    }
}
