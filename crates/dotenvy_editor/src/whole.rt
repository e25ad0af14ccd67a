//! How many of the first bytes of a file are whole statements, before the rest is read.

ghost use Rattle.std.specs.Prelude.{◌≡◌, IfOk};
ghost use Rattle.dotenvy_format.specs.Decided.{up_to_last_line_feed};
ghost use Rattle.dotenvy_editor.specs.Whole.{IsWholeLen};
ghost use Rattle.dotenvy_editor.specs.inside.Open.{stays_open};

use crate::lines::{Kind, Lines};
use memchr::memrchr;
use std::alloc::{AllocError, Allocator};

// The bytes up to their last line feed, which is included.
fn up_to_last_line_feed(bytes: &[u8]) -> &[u8]
    ensures { result.now ≡ up_to_last_line_feed bytes.now }
{
    match memrchr(b'\n', bytes) {
        Some(place) => &bytes[..place + 1],
        None => &bytes[..0],
    }
}

// Whether a line stays open.
fn stays_open(kind: Kind) -> bool
    ensures { result ≡ stays_open kind }
{
    match kind {
        Kind::Text => false,
        Kind::Open => true,
        Kind::Broken => false,
    }
}

/// How many of these bytes are whole logical lines, whatever follows them: all up to the last line feed, but no line
/// that stays open. A byte order mark at the start counts as text.
///
/// ```
/// let len = whole_len(alloc, b"A=1\n\nB='x\ny\n")?;    // 5: the quote is still open
/// ```
pub fn whole_len<A: Allocator + Clone>(alloc: A, bytes: &[u8]) -> Result<usize, AllocError>
    ensures { IfOk result (IsWholeLen bytes.now) }
{
    let front = up_to_last_line_feed(bytes);
    let mut lines = Lines::new(alloc, front)?;
    let mut len = 0;
    'lines: while let Some(slice) = lines.advance()? {
        if stays_open(slice.kind) {
            return Ok(len);
        }
        len += slice.bytes.len();
    }
    Ok(len)
}
