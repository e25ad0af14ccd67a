//! A text for each status.

ghost use Rattle.std.specs.Prelude.{◌≡◌, ◌≤◌, ◌<◌, length};
ghost use Rattle.dotenvy_c.specs.Buffer.{with_front};
ghost use Rattle.dotenvy_c.specs.Texts.{status_text};

use crate::buffer::write_if;

// What a status says, in ASCII, and without a NUL.
fn status_text(status: u32) -> &'static str
    ensures { result.now ≡ status_text status }
{
    match status {
        0 => "done",
        1 => "a line is wrong",
        2 => "a line, or a value to be written, is not UTF-8",
        3 => "a value has a NUL",
        4 => "too many reads",
        5 => "an allocation failed",
        6 => "an option that this call does not have",
        7 => "this can't be a key",
        8 => "no line assigns the key",
        9 => "a quote stays open to the end of the file",
        10 => "the file ends after a backslash or a blank",
        11 => "a line that begins with the key can't be read",
        12 => "a comment goes on over several lines",
        13 => "not portable: the file begins with a byte order mark",
        14 => "not portable: the value has a carriage return",
        15 =>
            "not portable: the value has a single quote, and a double quote, a dollar or a backslash",
        16 =>
            "not portable: the value has a line feed, and a double quote, a dollar or a backslash",
        17 => "not portable: the value has two backslashes in a row",
        18 => "not portable: the value ends with a backslash",
        19 => "not portable: the value has a dollar and braces",
        20 => "not portable: the comment has the quotes that the value needs",
        21 => "a line assigns the new key",
        22 => "not portable: the line has white space other than spaces",
        _ => "unknown",
    }
}

/// Writes what a status says to `out`, in ASCII and without a NUL, and returns the length of that text. Where `out` is
/// too short, nothing is written.
///
/// ```
/// // 8, `ABSENT`, says `no line assigns the key`, in 23 bytes
/// ```
#[unsafe(no_mangle)]
pub extern "C" fn dotenvy_status_text(status: u32, out: &mut [u8]) -> usize
    ensures len { result ≡ length (status_text status) }
    ensures text { length (status_text status) ≤ length out.old →
        out.new ≡ with_front (status_text status) out.old }
    ensures short { length out.old < length (status_text status) → out.new ≡ out.old }
{
    let text = status_text(status).as_bytes();
    write_if(text.len() <= out.len(), out, text);
    text.len()
}
