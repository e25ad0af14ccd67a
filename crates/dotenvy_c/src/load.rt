//! The two loads, for C.

ghost use Rattle.std.specs.Prelude.{◌≡◌, ◌+◌, ◌⊎◌, IfOk, IfErr, true, false};
ghost use Rattle.dotenvy.specs.Errors.{IsMemory};
ghost use Rattle.dotenvy_c.specs.Options.{are_among};
ghost use Rattle.dotenvy_c.specs.Load.{AnswersLoad, IsLoaded, refusal};

use crate::block::{block_of, environment_of};
use crate::buffer::write_if;
use crate::options::{NEXT_DIALECT, OVERRIDE, are_among, dialect_of, has_option};
use crate::status::{BAD_OPTION, NO_MEMORY, outcome_told};
use dotenvy::{Bytes, Environment, Error, Iter, Result};
use std::alloc::{AllocError, Global};

/// What a load tells C.
#[repr(C)]
#[derive(Drop)]
pub struct Answer {
    /// 0, or which error.
    pub status: u32,
    /// Whether the block and the text were written.
    pub fits: bool,
    /// The place in the text of a wrong line.
    pub index: usize,
    /// How many bytes the block takes.
    pub block_len: usize,
    /// How many bytes the text of the error takes, after the block.
    pub text_len: usize,
    /// 0. A later version can tell more here.
    pub reserved: [u64; 2],
}

// What is to be written of a load: the bytes of its block and of the text of its error, and how long each is.
#[derive(Drop)]
struct Loaded {
    bytes: Vec<u8>,
    block_len: usize,
    text_len: usize,
    status: u32,
    index: usize,
}

// Nothing was written, for this reason.
fn refusal(status: u32) -> Answer
    ensures { result ≡ refusal status }
{
    Answer {
        status,
        fits: false,
        index: 0,
        block_len: 0,
        text_len: 0,
        reserved: [0; 2],
    }
}

// Loads a file over the environment of a block. The error is `Memory`.
fn load_over(alloc: Global, file: &[u8], block: &[u8], options: u32) -> Result<Loaded>
    ensures ok { IfOk result (IsLoaded options file.now block.now) }
    ensures memory { IfErr result IsMemory }
{
    let mut environment = environment_of(alloc, block)?;
    let file = Iter::with_dialect(alloc, Bytes::new(file), dialect_of(options))?;
    let outcome = if has_option(options, OVERRIDE) {
        file.load_override(&mut environment)
    } else {
        file.load(&mut environment)
    };
    let Some(told) = outcome_told(&outcome) else {
        return Err(Error::Memory(AllocError));
    };
    let mut bytes = block_of(alloc, &environment)?;
    let block_len = bytes.len();
    bytes.extend_from_slice(told.text)?;
    Ok(Loaded {
        bytes,
        block_len,
        text_len: told.text.len(),
        status: told.status,
        index: told.index,
    })
}

// Loads as `dotenvy_load` does, and tells what came of it.
fn answer_load(alloc: Global, file: &[u8], block: &[u8], options: u32, out: &mut [u8]) -> Answer
    ensures option { are_among options (OVERRIDE + NEXT_DIALECT) ≡ false →
        (result ≡ refusal BAD_OPTION) × (out.new ≡ out.old) }
    ensures loads { are_among options (OVERRIDE + NEXT_DIALECT) ≡ true →
        AnswersLoad options file.now block.now result out.old out.new
        ⊎ ((result ≡ refusal NO_MEMORY) × (out.new ≡ out.old)) }
{
    if !are_among(options, OVERRIDE + NEXT_DIALECT) {
        return refusal(BAD_OPTION);
    }
    let Ok(loaded) = load_over(alloc, file, block, options) else {
        return refusal(NO_MEMORY);
    };
    let fits = loaded.bytes.len() <= out.len();
    write_if(fits, out, loaded.bytes.as_slice());
    Answer {
        status: loaded.status,
        fits,
        index: loaded.index,
        block_len: loaded.block_len,
        text_len: loaded.text_len,
        reserved: [0; 2],
    }
}

/// Loads a file over the environment of a block, and writes the new block, and after it the text of the error, to
/// `out`. docs/GRAMMAR.md, "Loading", says what a load does; it stops at the first error, and what is before it counts.
///
/// Where `out` is too short for both, nothing is written, and the answer tells how long both are.
///
/// What came of it is written to `answer`, and its status is returned, too.
///
/// Of fewer than 2^32 bytes it is the load of all declarations up to the first fault. If memory is refused, or an
/// option is unknown, `fits` is false, the numbers are 0, and nothing is written. Bytes after what is written stay.
#[unsafe(no_mangle)]
pub extern "C" fn dotenvy_load(
    alloc: Global,
    file: &[u8],
    block: &[u8],
    options: u32,
    answer: &mut Answer,
    out: &mut [u8],
) -> u32
    ensures option { are_among options (OVERRIDE + NEXT_DIALECT) ≡ false →
        (answer.new ≡ refusal BAD_OPTION) × (out.new ≡ out.old) }
    ensures loads { are_among options (OVERRIDE + NEXT_DIALECT) ≡ true →
        AnswersLoad options file.now block.now answer.new out.old out.new
        ⊎ ((answer.new ≡ refusal NO_MEMORY) × (out.new ≡ out.old)) }
    ensures status { result ≡ answer.new.status }
{
    let told = answer_load(alloc, file, block, options, out);
    let status = told.status;
    *answer = told;
    status
}
