//! A text on one line.

ghost use Rattle.std.specs.Prelude.{◌≡◌, ◌++◌, ◌||◌, chars, encode_utf8_all, IfOk, OnOk, string_bytes};
ghost use Rattle.std.specs.Char.Escape.{escape_default};
ghost use Rattle.dotenvy_reports.specs.OneLine.{breaks_line, on_one_line, shown_character};

use dotenvy_format::text::split_first;
use std::alloc::{AllocError, Allocator};

/// A text in which each character that could end or turn a line is its escape.
///
/// ```text
/// one_line(alloc, "a\nb")? // "a\\nb"
/// ```
pub fn one_line<A: Allocator>(alloc: A, text: &str) -> Result<String<A>, AllocError>
    ensures { IfOk result (λ line. string_bytes line ≡ on_one_line (chars text.now)) }
{
    let mut line = String::new(alloc);
    push_one_line(&mut line, text)?;
    Ok(line)
}

/// Appends a text with the escape of each character that could end or turn a line. Out of memory, it may have appended
/// a part.
///
/// ```text
/// push_one_line(&mut text, "a\u{202e}b")? // appends "a\\u{202e}b"
/// ```
pub fn push_one_line<A: Allocator>(text: &mut String<A>, added: &str) -> Result<(), AllocError>
    ensures { OnOk result (string_bytes text.new
        ≡ string_bytes text.old ++ on_one_line (chars added.now)) }
{
    let mut rest = added;
    'characters: while let Some((first, after_first)) = split_first(rest) {
        push_shown(text, first)?;
        rest = after_first;
    }
    Ok(())
}

// Whether a character could end a line, or turn the direction of what follows.
fn breaks_line(c: char) -> bool
    ensures { result ≡ breaks_line c }
{
    c.is_control() || matches!(c, '\u{2028}'..='\u{202e}' | '\u{2066}'..='\u{2069}')
}

// Appends a character as it is shown on one line.
fn push_shown<A: Allocator>(text: &mut String<A>, c: char) -> Result<(), AllocError>
    ensures { OnOk result (string_bytes text.new
        ≡ string_bytes text.old ++ encode_utf8_all (shown_character c)) }
{
    if !breaks_line(c) {
        text.push(c)?;
        return Ok(());
    }
    'escape: for part in c.escape_default() {
        text.push(part)?;
    }
    Ok(())
}
