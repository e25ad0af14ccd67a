//! A JSON object of texts.

ghost use Rattle.std.specs.Prelude.{◌≡◌, ◌++◌, IfOk, OnOk};
ghost use Rattle.std.specs.List.{flat_map};
ghost use Rattle.dotenvy_items.specs.Listed.{pairs_of};
ghost use Rattle.dotenvy_exporter.specs.Json.{json_bytes, member};

use dotenvy::Environment;
use json::Writer;
use std::alloc::{AllocError, Allocator};

// Writes each pair as a member.
fn write_members<A: Allocator>(
    writer: &mut Writer<A>,
    env: &Environment<A>,
) -> Result<(), AllocError>
    ensures tokens { OnOk result (writer.new.tokens
        ≡ writer.old.tokens ++ flat_map member (pairs_of env.now.names)) }
    ensures before { OnOk result (writer.new.before ≡ writer.old.before) }
{
    'pairs: for (name, value) in env.iter() {
        writer.key(name.as_str())?;
        writer.string(value.as_str())?;
    }
    Ok(())
}

/// The object of all pairs on one line, with a line feed.
pub(crate) fn bytes<A: Allocator>(alloc: A, env: &Environment<A>) -> Result<Vec<u8, A>, AllocError>
    ensures { IfOk result (λ bytes. bytes.items ≡ json_bytes (pairs_of env.now.names)) }
{
    let mut writer = Writer::new(Vec::new(alloc));
    writer.begin_object()?;
    write_members(&mut writer, env)?;
    writer.end_object()?;
    let mut bytes = writer.into_inner();
    bytes.push(b'\n')?;
    Ok(bytes)
}
