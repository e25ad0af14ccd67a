//! What a requirement finds wanting.
ghost use Rattle.std.specs.Prelude.{◌++◌, codes, string_bytes};
ghost use Rattle.std.specs.Fmt.{WritesOnOk};
ghost use Rattle.std.specs.List.{flat_map};

use std::alloc::{AllocError, Allocator, Global};
use std::{error, fmt};

/// Why names that are required are not all there.
///
/// ```
/// match layers.require(alloc, &["HOST", "PORT"]) {
///     Err(missing) => eprintln!(rt; "{missing}")?,    // environment variables not found: HOST, PORT
///     Ok(()) => {}
/// }
/// ```
#[derive(Drop)]
#[derive_where(Debug)]
pub enum Missing<A: Allocator = Global> {
    /// These names have no value. They stand in the order in which they were asked for, and as often.
    Names(Vec<String<A>, A>),
    /// Memory was refused while the names were put together.
    Memory(AllocError),
}

// Writes each name behind a comma and a blank.
fn write_others<A: Allocator, W: fmt::Write>(
    others: &[String<A>],
    f: &mut fmt::Formatter<W>,
) -> fmt::Result
    ensures { WritesOnOk W.write_str_gives f.old result
        (flat_map (λ name. codes ", " ++ string_bytes name) others.now) f.new }
{
    'others: for name in others {
        write!(f, ", {name}")?;
    }
    Ok(())
}

impl<A: Allocator> fmt::Display for Missing<A> {
    ghost use Rattle.env_layers.specs.Missing.{missing_text};
    ghost use Rattle.std.specs.Prelude.{Some};

    ghost output = { λ missing. Some (missing_text missing) };

    fn fmt<W: fmt::Write>(&self, f: &mut fmt::Formatter<W>) -> fmt::Result {
        match self {
            Missing::Names(names) => {
                write!(f, "environment variables not found: ")?;
                let Some((first, others)) = names.split_first() else {
                    return Ok(());
                };
                f.write_str(first)?;
                write_others(others, f)
            }
            Missing::Memory(_) => write!(f, "out of memory"),
        }
    }
}

impl<A: Allocator> error::Error for Missing<A> {}

impl<A: Allocator> From<AllocError> for Missing<A> {
    ghost use Rattle.env_layers.specs.Missing.{IsMemoryMissing};

    ghost from_gives = { λ _ missing. IsMemoryMissing missing };

    fn from(refused: AllocError) -> Missing<A> {
        Missing::Memory(refused)
    }
}
