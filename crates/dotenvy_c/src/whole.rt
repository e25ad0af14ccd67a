//! How many bytes of a file are whole statements, for C.

ghost use Rattle.std.specs.Prelude.{◌≡◌, ◌+◌, ◌⊎◌, IfOk, false, true};
ghost use Rattle.dotenvy_c.specs.Options.{are_among};
ghost use Rattle.dotenvy_c.specs.Whole.{IsWhole};

use crate::items::bytes_of;
use crate::options::{DROP_MARK, NEXT_DIALECT, are_among};
use crate::status::{BAD_OPTION, DONE, NO_MEMORY};
use dotenvy_editor::whole::whole_len;
use std::alloc::{AllocError, Global};

// How many bytes are whole statements, with the byte order mark if it is dropped.
fn whole_of(alloc: Global, file: &[u8], options: u32) -> Result<usize, AllocError>
    ensures { IfOk result (IsWhole options file.now) }
{
    let bytes = bytes_of(file, options);
    let len = whole_len(alloc, bytes)?;
    Ok(file.len() - bytes.len() + len)
}

/// Tells by `whole` how many of the first bytes of a file are whole statements, whatever follows them: all up to the
/// last line feed, but no line that stays open. So a reader that has these bytes can list their items and go on after
/// them. Both dialects have the same lines.
///
/// The status is returned. Where it isn't 0, `whole` is 0.
///
/// With `DROP_MARK` it is so of the bytes without an opening byte order mark, which is counted.
///
/// ```
/// // of the 9 bytes of `A=1\nB='x\n` 4 are whole: the quote is still open
/// ```
#[unsafe(no_mangle)]
pub extern "C" fn dotenvy_whole(alloc: Global, file: &[u8], options: u32, whole: &mut usize) -> u32
    ensures option { are_among options (NEXT_DIALECT + DROP_MARK) ≡ false →
        (result ≡ BAD_OPTION) × (whole.new ≡ 0) }
    ensures whole { are_among options (NEXT_DIALECT + DROP_MARK) ≡ true →
        ((result ≡ DONE) × IsWhole options file.now whole.new)
        ⊎ ((result ≡ NO_MEMORY) × (whole.new ≡ 0)) }
{
    *whole = 0;
    if !are_among(options, NEXT_DIALECT + DROP_MARK) {
        return BAD_OPTION;
    }
    let Ok(len) = whole_of(alloc, file, options) else {
        return NO_MEMORY;
    };
    *whole = len;
    DONE
}
