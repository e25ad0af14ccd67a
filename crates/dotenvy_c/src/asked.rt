//! Items as a caller asks for them: with what their names mean, or with values as they are written.

ghost use Rattle.std.specs.Prelude.{◌≡◌, List, ℕ, IfOk, IfErr};
ghost use Rattle.dotenvy.specs.Errors.{IsMemory};
ghost use Rattle.dotenvy_editor.specs.TakenSlices.{SkipsLines};
ghost use Rattle.dotenvy_c.specs.Asked.{HasVerbatim, IsAskedItem};
ghost use Rattle.dotenvy_c.specs.Options.{bytes_asked, dialect_of, has_option};
ghost use Rattle.dotenvy_c.specs.Places.{HasLinesAfter};

use crate::options::{AS_WRITTEN, dialect_of, has_option};
use dotenvy::Result;
use dotenvy_editor::verbatim::verbatim_value;
use std::alloc::Global;

/// What comes after some lines of the bytes that are asked for, where the rest comes after as many lines of the file.
/// It is the rest, or all of the bytes where no line comes before, since they lack the mark.
pub fn after_mark<'b>(rest: &'b [u8], bytes: &'b [u8]) -> &'b [u8]
    ensures { (options count : ℕ) (file : List ℕ) → bytes.now ≡ bytes_asked options file →
        SkipsLines file count rest.now → HasLinesAfter bytes.now count result.now }
{
    if rest.len() < bytes.len() {
        rest
    } else {
        bytes
    }
}

/// The item that the options ask for, where these bytes begin with its line: with `AS_WRITTEN` a pair has its value as
/// it is written. The error is `Memory`.
///
/// ```
/// // the pair of `A=$B` has the value `$B` with `AS_WRITTEN`, whatever B means
/// ```
pub fn as_asked(
    alloc: Global,
    item: Result<(String, String)>,
    bytes: &[u8],
    options: u32,
) -> Result<Result<(String, String)>>
    requires { HasVerbatim (dialect_of options) bytes.now item }
    ensures ok { IfOk result (IsAskedItem (has_option options AS_WRITTEN) (dialect_of options)
        bytes.now item) }
    ensures memory { IfErr result IsMemory }
{
    if !has_option(options, AS_WRITTEN) {
        return Ok(item);
    }
    let (key, _value) = match item {
        Ok(pair) => pair,
        Err(error) => return Ok(Err(error)),
    };
    let text = verbatim_value(alloc, bytes, dialect_of(options))?;
    Ok(Ok((key, text.unwrap())))
}
