//! The written form of pairs, and the listing of a file.

ghost use Rattle.std.specs.Prelude.{◌≡◌, ◌≤◌, ◌+◌, ◌++◌, ◌∷◌, [], filter, length, IfOk, IsTrue, chars, string_bytes};
ghost use Rattle.std.specs.Prelude.{string_len};
ghost use Rattle.std.specs.String.{string_capacity};
ghost use Rattle.dotenvy_format.specs.Keys.{is_key};
ghost use Rattle.dotenvy_format.specs.Characters.{byte_len};
ghost use Rattle.dotenvy_items.specs.inside.ValuePasses.{saturated};
ghost use Rattle.dotenvy_format.specs.Written.{needs_backslash, written_text, written_bytes};
ghost use Rattle.dotenvy_base.specs.Output.{Writes};
ghost use Rattle.dotenvy_base.specs.Environment.{AreTexts};
ghost use Rattle.dotenvy_lines.specs.Input.{ReadsBetween};
ghost use Rattle.dotenvy_items.specs.Iter.{fresh};
ghost use Rattle.dotenvy_items.specs.Listed.{pairs_of, Lists};

use crate::iter::{into_reader, over_lines};
use dotenvy_base::environment::Environment;
use dotenvy_base::errors::Result;
use dotenvy_base::output::{MOST_WRITES, write_all};
use dotenvy_base::source::{Sink, Source};
use dotenvy_format::dialect::Dialect;
use dotenvy_format::text::{
    ByteKind, Class, Quoting, row_len, split_first, split_run, split_while,
};
use dotenvy_format::texts::push_short;
use dotenvy_lines::lines::{READ_LIMIT, Room, Splitter};
use std::alloc::{AllocError, Allocator};
use std::mem;

fn needs_backslash(c: char) -> bool
    ensures { result ≡ needs_backslash c }
{
    matches!(c, '\\' | '"' | '$')
}

// How many of the bytes need a backslash.
fn special_count(bytes: &[u8]) -> usize
    ensures { result ≡ length (filter needs_backslash bytes.now) }
{
    let mut count = 0;
    let mut rest = bytes;
    'runs: loop {
        let (_, special) = split_run(rest, ByteKind::Inside);
        let Some((_, behind)) = special.split_first() else {
            return count;
        };
        count += 1;
        rest = behind;
    }
}

// How many bytes the written form of a pair takes, or the greatest number where that is more.
fn written_len(key: &str, text: &str) -> usize
    ensures { result ≡ saturated (byte_len (written_text ((chars key.now, chars text.now) ∷ []))) }
{
    let around = "=\"\"\n".len();
    // Each character that needs a backslash is a byte.
    let backslashes = special_count(text.as_bytes());
    key.len()
        .saturating_add(text.len())
        .saturating_add(backslashes)
        .saturating_add(around)
}

// Appends the written form of a pair to a text that has room for it.
#[tactic(auto, using(crate::proofs::WrittenBytes::written_steps))]
fn push_written<A: Allocator>(out: &mut String<A>, key: &str, text: &str)
    requires { string_len out.old + byte_len (written_text ((chars key.now, chars text.now) ∷ []))
        ≤ string_capacity out.old }
    ensures bytes { string_bytes out.new
        ≡ string_bytes out.old ++ written_bytes ((chars key.now, chars text.now) ∷ []) }
    ensures capacity { string_capacity out.old ≤ string_capacity out.new }
{
    out.push_str(key).unwrap();
    out.push_str("=\"").unwrap();
    let mut rest = text;
    'parts: while let Some((first, after_first)) = split_first(rest) {
        let row = row_len(rest, b'\\');
        if row > 0 {
            // A backslash for each of them, and these themselves.
            let (backslashes, after) = rest.split_at(row);
            push_short(out, backslashes);
            push_short(out, backslashes);
            rest = after;
        } else if needs_backslash(first) {
            out.push('\\').unwrap();
            out.push(first).unwrap();
            rest = after_first;
        } else {
            let (plain, after) = split_while(rest, Class::Plain(Quoting::DoubleQuoted));
            push_short(out, plain);
            rest = after;
        }
    }
    out.push_str("\"\n").unwrap();
}

/// Each pair of the environment in its written form, in byte order of the names (docs/GRAMMAR.md, "The written form").
/// Memory is asked for once.
///
/// No push after the first request for memory can be refused: each is unwrapped, and proved to be safe. No clause says
/// that memory is asked for once.
///
/// ```text
/// listing(alloc, &env)?    // of A=1 and B=$2: A="1" and B="\$2", a line each
/// ```
pub fn listing<A: Allocator + Clone>(
    alloc: A,
    env: &Environment<A>,
) -> std::result::Result<String<A>, AllocError>
    ensures bytes { IfOk result
        (λ text. string_bytes text ≡ written_bytes (pairs_of env.now.names)) }
    ensures texts { AreTexts env.now.names }
{
    let mut len = 0usize;
    'lens: for (key, value) in env.iter() {
        len = len.saturating_add(written_len(key.as_str(), value.as_str()));
    }
    let mut out = String::with_capacity(alloc, len)?;
    'pairs: for (key, value) in env.iter() {
        push_written(&mut out, key.as_str(), value.as_str());
    }
    Ok(out)
}

/// Writes one pair in its written form, which is read back as that pair (docs/GRAMMAR.md, "The written form").
///
/// The form is built before the first write. An interrupted write is asked again; a write that takes nothing is `Io`
/// of kind WriteZero, and past 2^32 writes the answer is `Io` of kind Other.
///
/// It requires that the key is a key of a file. Each error is `Memory` or `Io`. After `Memory` nothing was written. On
/// `Ok` the whole form was appended; after `Io` a beginning of it, and not the whole.
///
/// On a fresh writer the `Io` has the kind of the last write that failed, or it is of kind `Other`: after 2^32 writes
/// or bytes, or if that write was interrupted. Of a writer of which a write had failed before, also by an interruption,
/// this isn't said. No write follows one that took nothing, or that failed without being interrupted.
///
/// ```text
/// write_pair(alloc, &mut writer, "K", "it costs $1")?;    // K="it costs \$1"
/// ```
pub fn write_pair<W: Sink, A: Allocator + Clone>(
    alloc: A,
    writer: &mut W,
    key: &str,
    text: &str,
) -> Result<(), A>
    requires { IsTrue (is_key (chars key.now)) }
    ensures { Writes W.told writer.old writer.new
        (written_bytes ((chars key.now, chars text.now) ∷ [])) result }
{
    let mut out = String::with_capacity(alloc, written_len(key, text))?;
    push_written(&mut out, key, text);
    write_all(writer, out.as_bytes(), MOST_WRITES)
}

/// Loads a reader into an empty environment by `from_read`, and writes each pair in its written form, in byte order of
/// the names.
///
/// The whole output is built before the first write, so after a fault of the load, or refused memory, nothing was
/// written. Faults of the writer are as for `write_pair`.
///
/// What is written is a beginning of the written form of the pairs that the load left, and the whole on `Ok`.
///
/// ```text
/// list(alloc, Bytes::new(b"B=2\nA=1\nA=3\n"), &mut writer)?;    // A="1" and B="2", a line each
/// ```
pub fn list<R: Source + Drop, W: Sink, A: Allocator + Clone>(
    alloc: A,
    reader: R,
    writer: &mut W,
) -> Result<(), A>
    ensures { Lists (fresh (R.told reader) Dialect.V15)
        W.told writer.old writer.new result }
{
    list_with(alloc, reader, writer, Dialect::V15)
}

/// As `list`, with the dialect of the file (docs/GRAMMAR.md, "The second dialect").
pub fn list_with<R: Source + Drop, W: Sink, A: Allocator + Clone>(
    alloc: A,
    mut reader: R,
    writer: &mut W,
    dialect: Dialect,
) -> Result<(), A>
    ensures { Lists (fresh (R.told reader) dialect)
        W.told writer.old writer.new result }
{
    let options = ListOptions {
        dialect,
        is_last: false,
    };
    list_lent(alloc, &mut reader, writer, options)
}

/// How a reader is listed.
#[derive(Clone, Copy)]
pub struct ListOptions {
    /// The dialect of the file.
    pub dialect: Dialect,
    /// Whether the process ends after it. What was loaded and written is then left to its end, which gives all of its
    /// memory back at once.
    pub is_last: bool,
}

// Gives back the memory of a value, or leaves it to the end of the process.
fn leave<T: Drop>(value: T, is_last: bool) {
    if is_last {
        mem::forget(value);
    }
}

/// As `list_with`, of a reader that is lent.
///
/// The memory for reading is allocated first, so that the reader is given back whatever happens. By the name of the
/// reference (`references` of `told`) the toolchain knows the reader for the one that was lent: an iterator hides it,
/// and without the name no contract could say what was read from it.
pub fn list_lent<R: Source, W: Sink, A: Allocator + Clone>(
    alloc: A,
    reader: &mut R,
    writer: &mut W,
    options: ListOptions,
) -> Result<(), A>
    ensures lists { Lists (fresh (R.told reader.old) options.dialect)
        W.told writer.old writer.new result }
    // Whatever is returned: at most 2^32 reads are made, interrupted ones among them, each for at most 8,192 bytes; and
    // none follows the end, or a read that failed without being interrupted.
    ensures asks { ReadsBetween (R.told reader.old) (R.told reader.new) }
{
    let remembering = alloc.clone()?;
    let mut env = Environment::new(alloc.clone()?);
    let room = Room::new(alloc.clone()?)?;
    let lines = Splitter::in_room(room, reader, READ_LIMIT);
    let mut file = over_lines(lines, remembering, options.dialect);
    let loaded = file.load_rest(&mut env);
    let _ = into_reader(file);
    loaded?;
    let text = listing(alloc, &env)?;
    let written = write_all(writer, text.as_bytes(), MOST_WRITES);
    leave(env, options.is_last);
    leave(text, options.is_last);
    written
}
