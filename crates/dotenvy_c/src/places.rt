//! The bytes of a file on which items stand: whole physical lines.

ghost use Rattle.std.specs.Prelude.{◌≡◌, ◌≤◌, ◌-◌};
ghost use Rattle.dotenvy_editor.specs.TakenSlices.{SkipsLines};
ghost use Rattle.dotenvy_c.specs.Places.{StandsOn};

use dotenvy_editor::lines::after_line;

/// The bytes of a file that come after so many physical lines.
#[derive(Clone, Copy)]
pub struct Place<'b> {
    /// How many physical lines are before them.
    pub lines: u64,
    /// The bytes.
    pub rest: &'b [u8],
}

/// The bytes of some physical lines, by their place in a file.
#[derive(Clone, Copy)]
pub struct Standing<'b> {
    /// Where they begin.
    pub at: usize,
    /// How many they are.
    pub len: usize,
    /// These bytes, and what comes after them.
    pub bytes: &'b [u8],
    /// What comes after them.
    pub after: Place<'b>,
}

// A place that is known, or the start of the file where that one is further on.
fn start_before<'b>(file: &'b [u8], known: Place<'b>, lines: u64) -> Place<'b>
    requires { SkipsLines file.now known.lines known.rest.now }
    ensures before { result.lines ≤ lines }
    ensures skips { SkipsLines file.now result.lines result.rest.now }
{
    if known.lines <= lines {
        known
    } else {
        Place {
            lines: 0,
            rest: file,
        }
    }
}

// What comes after so many physical lines. From a place that is known it is reached sooner.
fn after_lines<'b>(file: &'b [u8], known: Place<'b>, lines: u64) -> Place<'b>
    requires { SkipsLines file.now known.lines known.rest.now }
    ensures lines { result.lines ≡ lines }
    ensures skips { SkipsLines file.now result.lines result.rest.now }
{
    let start = start_before(file, known, lines);
    let mut rest = start.rest;
    'lines: for _line in start.lines..lines {
        rest = after_line(rest);
    }
    Place { lines, rest }
}

/// The bytes of the physical lines with these numbers, which count from 1; and no bytes for 0.
///
/// ```
/// // of `A=1\nB='x\ny'\n` the lines 2 and 3 are the 8 bytes from 4 on
/// ```
pub fn standing_on<'b>(file: &'b [u8], known: Place<'b>, lines: (u64, u64)) -> Standing<'b>
    requires { SkipsLines file.now known.lines known.rest.now }
    ensures place { StandsOn file.now lines (result.at, result.len) }
    ensures bytes { SkipsLines file.now (lines.0 - 1) result.bytes.now }
    ensures after { SkipsLines file.now result.after.lines result.after.rest.now }
{
    let (first, last) = lines;
    let begin = after_lines(file, known, first.saturating_sub(1));
    let after = after_lines(file, begin, last);
    Standing {
        at: file.len() - begin.rest.len(),
        len: begin.rest.len().saturating_sub(after.rest.len()),
        bytes: begin.rest,
        after,
    }
}
