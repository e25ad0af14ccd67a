//! Blocks of bytes, as a process has its environment: `NAME=VALUE` and a NUL, one after the other.

ghost use Rattle.std.specs.Prelude.{◌≡◌, ◌++◌, IfOk, OnOk, IfErr};
ghost use Rattle.dotenvy.specs.Environment.{text_entries};
ghost use Rattle.dotenvy.specs.Errors.{IsMemory};
ghost use Rattle.dotenvy_c.specs.Block.{FitsBlock, block_names, block_of, entry_pairs};

use dotenvy::{Environment, Result};
use memchr::memchr;
use std::alloc::Global;
use std::str;

/// Names and values, in the order of a block.
pub type Pairs = Vec<(String, String)>;

// Adds the pair of an entry, if it has one.
fn add_entry(alloc: Global, entry: &[u8], pairs: &mut Pairs) -> Result<()>
    ensures ok { OnOk result (text_entries pairs.new.items
        ≡ text_entries pairs.old.items ++ entry_pairs entry.now) }
    ensures memory { IfErr result IsMemory }
{
    let Ok(text) = str::from_utf8(entry) else {
        return Ok(());
    };
    let Some((name, value)) = text.split_once('=') else {
        return Ok(());
    };
    let name = String::from_str(alloc, name)?;
    pairs.push((name, String::from_str(alloc, value)?))?;
    Ok(())
}

/// The environment that a block stands for.
///
/// An entry is skipped if it is not UTF-8, has no `=` or has no valid name; of several entries with one name the first
/// counts. The last entry may lack its NUL. The error is `Memory`.
pub fn environment_of(alloc: Global, block: &[u8]) -> Result<Environment>
    ensures names { IfOk result (λ environment. environment.names ≡ block_names block.now) }
    ensures memory { IfErr result IsMemory }
{
    let mut pairs = Vec::new(alloc);
    let mut rest = block;
    'entries: while let Some(at) = memchr(0, rest) {
        let (entry, after) = rest.split_at(at);
        add_entry(alloc, entry, &mut pairs)?;
        rest = &after[1..];
    }
    add_entry(alloc, rest, &mut pairs)?;
    Environment::from_pairs(alloc, pairs)
}

/// The block that stands for an environment, in byte order of the names. The error is `Memory`.
pub fn block_of(alloc: Global, environment: &Environment) -> Result<Vec<u8>>
    ensures block { IfOk result (λ block. block.items ≡ block_of environment.now.names) }
    ensures fits { OnOk result (FitsBlock environment.now.names) }
    ensures memory { IfErr result IsMemory }
{
    let mut block = Vec::new(alloc);
    'pairs: for (name, value) in environment.iter() {
        block.extend_from_slice(name.as_bytes())?;
        block.push(b'=')?;
        block.extend_from_slice(value.as_bytes())?;
        block.push(0)?;
    }
    Ok(block)
}
