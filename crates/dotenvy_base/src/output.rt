//! Writes all bytes of a text to a sink, in as many writes as it takes. All of them were appended, or it says which
//! fault came after how many.

ghost use Rattle.dotenvy_base.specs.Output.{Sends};

use crate::errors::{Error, Result};
use crate::source::Sink;
use std::alloc::Allocator;
use std::io;
use std::io::ErrorKind;

/// The most writes that one call makes, 2^32. This bound makes each call end, whatever the sink does.
pub const MOST_WRITES: u64 = 4_294_967_296;

/// Writes all of the bytes, in at most `writes_left` writes. An interrupted write is tried again, and counts as one.
///
/// The error is `Io`: that of the sink, one of kind `WriteZero` for a write that takes nothing, or one of kind `Other`
/// if no write is left. After an error, a first part of the bytes may have been written, and at least one byte is left.
///
/// An error of the sink is that of the last write, and no interruption. Where no write is left, as many were made as
/// allowed, and each took a byte or was interrupted. Over a sink that doesn't specify its calls the bound counts bytes.
pub fn write_all<W: Sink, A: Allocator>(
    writer: &mut W,
    bytes: &[u8],
    writes_left: u64,
) -> Result<(), A>
    ensures { Sends W.told writes_left writer.old writer.new bytes.now result }
{
    let mut rest = bytes;
    'writes: for _ in 0..writes_left {
        if rest.is_empty() {
            return Ok(());
        }
        match writer.write_some(rest) {
            Ok(0) => return Err(Error::Io(io::Error::from(ErrorKind::WriteZero))),
            Ok(n) => rest = &rest[n..],
            Err(e) => {
                if e.kind() != ErrorKind::Interrupted {
                    return Err(Error::Io(e));
                }
            }
        }
    }
    if rest.is_empty() {
        Ok(())
    } else {
        Err(Error::Io(io::Error::other("too many writes")))
    }
}
