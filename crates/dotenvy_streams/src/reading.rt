//! Reads a source to its end.

ghost use Rattle.std.specs.Prelude.{◌≡◌, ◌≤◌, IfErr, IfOk, Some, vec_capacity};
ghost use Rattle.dotenvy_base.specs.Source.{Ahead};
ghost use Rattle.dotenvy_streams.specs.Reads.{IsReadFault, IsWhole};

use dotenvy::{Error, Source};
use dotenvy_base::errors::or_memory;
use std::alloc::Allocator;
use std::io;
use std::io::ErrorKind;

/// All bytes of a source, which are read into room for so many. It grows if the source has more. A read that is
/// interrupted is tried again.
///
/// Over a source whose bytes are specified, without an interruption as its fault, `Ok` has all bytes up to the end. The
/// error is `Memory`, an `Io` of the kind that is specified, or says that the source has 2^64 - 1 bytes or more. No
/// clause says what is returned after an interruption, or which reads are made.
pub fn read_all<A: Allocator, S: Source>(
    alloc: A,
    room: usize,
    source: &mut S,
) -> Result<Vec<u8, A>, Error<A>>
    ensures whole { (ahead : Ahead) → (S.told source.old).ahead ≡ Some ahead
        → IfOk result (λ bytes. IsWhole ahead bytes.items) }
    ensures fault { (ahead : Ahead) → (S.told source.old).ahead ≡ Some ahead
        → IfErr result (IsReadFault ahead) }
    ensures room { IfOk result (λ bytes. room ≤ vec_capacity bytes) }
{
    let mut bytes = Vec::with_capacity(alloc, room)?;
    let mut buffer = [0u8; 8192];
    'reads: for _ in 0..u64::MAX {
        match source.read_some(&mut buffer) {
            Ok(0) => return Ok(bytes),
            Ok(n) => bytes.extend_from_slice(&buffer[..n])?,
            Err(fault) => {
                if fault.kind() != ErrorKind::Interrupted {
                    return Err(or_memory(Error::Io(fault)));
                }
            }
        }
    }
    Err(Error::Io(io::Error::other("too many reads")))
}
