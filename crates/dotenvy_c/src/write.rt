//! The written form of a pair, for C.

ghost use Rattle.std.specs.Prelude.{◌≡◌, ◌∷◌, [], IfOk, IsTrue, chars, false, true};
ghost use Rattle.std.specs.Str.{is_utf8};
ghost use Rattle.dotenvy.specs.Keys.{is_key};
ghost use Rattle.dotenvy.specs.Written.{written_bytes};
ghost use Rattle.dotenvy_c.specs.Options.{are_among};
ghost use Rattle.dotenvy_c.specs.Write.{AnswersWrite, RefusesText, refused_text};

use crate::buffer::write_if;
use crate::options::are_among;
use crate::status::{BAD_OPTION, DONE, NO_KEY, NO_MEMORY, NOT_UTF8};
use dotenvy::{Plain, Result, is_key, write_pair};
use std::alloc::Global;
use std::str;

/// What a call that writes one text tells C.
#[repr(C)]
#[derive(Drop)]
pub struct Text {
    /// 0, or why there is no text.
    pub status: u32,
    /// Whether the text was written.
    pub fits: bool,
    /// How many bytes it takes.
    pub text_len: usize,
    /// 0. A later version can tell more here.
    pub reserved: [u64; 2],
}

// Nothing was written, for this reason.
fn refused_text(status: u32) -> Text
    ensures { result ≡ refused_text status }
{
    Text {
        status,
        fits: false,
        text_len: 0,
        reserved: [0; 2],
    }
}

// The written form of a pair.
fn written(alloc: Global, key: &str, value: &str) -> Result<Vec<u8>>
    requires { IsTrue (is_key (chars key.now)) }
    ensures { IfOk result (λ bytes. bytes.items
        ≡ written_bytes ((chars key.now, chars value.now) ∷ [])) }
{
    let mut writer = Plain::new(Vec::new(alloc));
    write_pair(alloc, &mut writer, key, value)?;
    Ok(writer.into_inner())
}

// Writes as `dotenvy_write` does, and tells what came of it.
fn answer_write(alloc: Global, key: &[u8], value: &[u8], options: u32, out: &mut [u8]) -> Text
    ensures option { are_among options 0 ≡ false → RefusesText BAD_OPTION result out.old out.new }
    ensures text { are_among options 0 ≡ true → is_utf8 key.now ≡ false →
        RefusesText NO_KEY result out.old out.new }
    ensures key { are_among options 0 ≡ true → is_utf8 key.now ≡ true →
        is_key (chars key.now) ≡ false → RefusesText NO_KEY result out.old out.new }
    ensures value { are_among options 0 ≡ true → is_utf8 key.now ≡ true →
        is_key (chars key.now) ≡ true → is_utf8 value.now ≡ false →
        RefusesText NOT_UTF8 result out.old out.new }
    ensures writes { are_among options 0 ≡ true → is_utf8 key.now ≡ true →
        is_key (chars key.now) ≡ true → is_utf8 value.now ≡ true →
        AnswersWrite (written_bytes ((chars key.now, chars value.now) ∷ [])) result out.old
        out.new }
{
    if !are_among(options, 0) {
        return refused_text(BAD_OPTION);
    }
    let Ok(key) = str::from_utf8(key) else {
        return refused_text(NO_KEY);
    };
    if !is_key(key) {
        return refused_text(NO_KEY);
    }
    let Ok(value) = str::from_utf8(value) else {
        return refused_text(NOT_UTF8);
    };
    let Ok(bytes) = written(alloc, key, value) else {
        return refused_text(NO_MEMORY);
    };
    let fits = bytes.len() <= out.len();
    write_if(fits, out, bytes.as_slice());
    Text {
        status: DONE,
        fits,
        text_len: bytes.len(),
        reserved: [0; 2],
    }
}

/// Writes a pair to `out`: a line that is read back as this key and this value, in both dialects and under every
/// environment (docs/GRAMMAR.md, "The written form"). It has no options yet.
///
/// Where `out` is too short, nothing is written, and the answer tells how long the line is. What came of it is written
/// to `answer`, and its status is returned, too.
///
/// ```
/// // of the key A and the value `$x` it is `A="\$x"` and a line feed, 8 bytes
/// ```
#[unsafe(no_mangle)]
pub extern "C" fn dotenvy_write(
    alloc: Global,
    key: &[u8],
    value: &[u8],
    options: u32,
    answer: &mut Text,
    out: &mut [u8],
) -> u32
    ensures option { are_among options 0 ≡ false →
        RefusesText BAD_OPTION answer.new out.old out.new }
    ensures text { are_among options 0 ≡ true → is_utf8 key.now ≡ false →
        RefusesText NO_KEY answer.new out.old out.new }
    ensures key { are_among options 0 ≡ true → is_utf8 key.now ≡ true →
        is_key (chars key.now) ≡ false → RefusesText NO_KEY answer.new out.old out.new }
    ensures value { are_among options 0 ≡ true → is_utf8 key.now ≡ true →
        is_key (chars key.now) ≡ true → is_utf8 value.now ≡ false →
        RefusesText NOT_UTF8 answer.new out.old out.new }
    ensures writes { are_among options 0 ≡ true → is_utf8 key.now ≡ true →
        is_key (chars key.now) ≡ true → is_utf8 value.now ≡ true →
        AnswersWrite (written_bytes ((chars key.now, chars value.now) ∷ [])) answer.new out.old
        out.new }
    ensures status { result ≡ answer.new.status }
{
    let told = answer_write(alloc, key, value, options, out);
    let status = told.status;
    *answer = told;
    status
}
