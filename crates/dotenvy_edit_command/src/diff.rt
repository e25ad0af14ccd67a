//! Where the bytes of two texts differ, as `diff -u` prints it.

ghost use Rattle.std.specs.Prelude.{◌≡◌, ◌↔◌, ◌<◌, ◌≤◌, ◌+◌, ◌-◌, ◌^◌, ◌++◌, IfOk, IsTrue, OnOk, codes, drop, length, map, take};
ghost use Rattle.dotenvy_edit_command.specs.Diffs.{IsDiff, PushesHunk, ended, lines_of, marked, name_line, texts};

use memchr::memchr;
use std::alloc::{AllocError, Allocator};
use std::fmt;

// How many lines are shown before those that differ, and after them.
const CONTEXT: usize = 3;

/// Two texts, and how they are named.
#[derive(Clone, Copy)]
pub struct Texts<'n, 'o, 't> {
    /// The name of the old text, as it is printed.
    pub old_name: &'n str,
    /// The name of the new text, as it is printed.
    pub new_name: &'n str,
    /// The old text.
    pub old: &'o [u8],
    /// The new text.
    pub new: &'t [u8],
}

/// Where two texts differ, as one hunk with the lines around it, by which `patch` makes the new one of the old one.
///
/// ```
/// // of the lines A=1 and B=2, and of A=1 and B=3: @@ -1,2 +1,2 @@, then ` A=1`, `-B=2` and `+B=3`
/// let text = diff(alloc, Texts { old_name: "f", new_name: "f", old: b"A=1\nB=2\n", new: b"A=1\nB=3\n" })?;
/// ```
pub fn diff<A: Allocator + Clone>(
    alloc: A,
    texts: Texts<'_, '_, '_>,
) -> Result<Vec<u8, A>, AllocError>
    ensures { IfOk result (λ text. IsDiff texts.entry.old_name.now texts.entry.new_name.now
        texts.entry.old.now texts.entry.new.now text.items) }
{
    let old = lines_of(alloc.clone()?, texts.old)?;
    let new = lines_of(alloc.clone()?, texts.new)?;
    let mut text = Vec::new(alloc.clone()?);
    push_name(&mut text, "--- ", texts.old_name)?;
    push_name(&mut text, "+++ ", texts.new_name)?;
    push_hunk(alloc, &mut text, old.as_slice(), new.as_slice())?;
    Ok(text)
}

// The lines of a text, each with the line feed that ends it.
fn lines_of<'a, A: Allocator>(alloc: A, text: &'a [u8]) -> Result<Vec<&'a [u8], A>, AllocError>
    ensures { IfOk result (λ lines. texts lines.items ≡ lines_of text.now) }
{
    let mut lines = Vec::new(alloc);
    let mut rest = text;
    'lines: while let Some(end) = memchr(b'\n', rest) {
        let (line, after) = rest.split_at(end + 1);
        lines.push(line)?;
        rest = after;
    }
    if !rest.is_empty() {
        lines.push(rest)?;
    }
    Ok(lines)
}

// Appends the line with the name of a text.
fn push_name<A: Allocator>(text: &mut Vec<u8, A>, sign: &str, name: &str) -> Result<(), AllocError>
    ensures { OnOk result (text.new.items
        ≡ text.old.items ++ name_line sign.now name.now) }
{
    text.extend_from_slice(sign.as_bytes())?;
    text.extend_from_slice(name.as_bytes())?;
    text.push(b'\n')?;
    Ok(())
}

// Whether two lines are the same.
fn is_same(old: &[u8], new: &[u8]) -> bool
    ensures { IsTrue result ↔ (old.now ≡ new.now) }
{
    old == new
}

// How many lines two texts begin with that are the same.
fn same_front(old: &[&[u8]], new: &[&[u8]]) -> usize
    ensures in_old { result ≤ length old.now }
    ensures in_new { result ≤ length new.now }
    ensures same { take result (texts old.now) ≡ take result (texts new.now) }
{
    let mut count = 0;
    'lines: while count < old.len() && count < new.len() {
        if !is_same(old[count], new[count]) {
            return count;
        }
        count += 1;
    }
    count
}

// How many lines two texts end with that are the same.
fn same_back(old: &[&[u8]], new: &[&[u8]]) -> usize
    ensures in_old { result ≤ length old.now }
    ensures in_new { result ≤ length new.now }
    ensures same { drop (length old.now - result) (texts old.now)
        ≡ drop (length new.now - result) (texts new.now) }
{
    let mut count = 0;
    'lines: while count < old.len() && count < new.len() {
        if !is_same(old[old.len() - 1 - count], new[new.len() - 1 - count]) {
            return count;
        }
        count += 1;
    }
    count
}

// So many lines after others, as a hunk's head has them.
#[derive(Clone, Copy)]
struct Range {
    before: usize,
    count: usize,
    ghost in_range: { before + 1 < 2 ^ 64 },
}

impl fmt::Display for Range {
    ghost use Rattle.dotenvy_edit_command.specs.Diffs.{range_text};
    ghost use Rattle.std.specs.Prelude.{Some};

    ghost output = { λ range. Some (range_text range.before range.count) };

    fn fmt<W: fmt::Write>(&self, f: &mut fmt::Formatter<W>) -> fmt::Result {
        match self.count {
            0 => write!(f, "{},0", self.before),
            1 => write!(f, "{}", self.before + 1),
            count => write!(f, "{},{count}", self.before + 1),
        }
    }
}

// Appends the hunk in which all differences are.
fn push_hunk<A: Allocator>(
    alloc: A,
    text: &mut Vec<u8, A>,
    old: &[&[u8]],
    new: &[&[u8]],
) -> Result<(), AllocError>
    ensures { OnOk result (PushesHunk (texts old.now) (texts new.now) text.old.items text.new.items) }
{
    let front = same_front(old, new);
    let (lead, removed) = old.split_at(front);
    let (_, added) = new.split_at(front);
    let back = same_back(removed, added);
    let (removed, trail) = removed.split_at(removed.len() - back);
    let (added, _) = added.split_at(added.len() - back);
    let before = front - front.min(CONTEXT);
    let (_, lead) = lead.split_at(before);
    let (trail, _) = trail.split_at(back.min(CONTEXT));
    let around = lead.len() + trail.len();
    let old_range = Range {
        before,
        count: around + removed.len(),
    };
    let new_range = Range {
        before,
        count: around + added.len(),
    };
    let head = format!(in alloc; "@@ -{old_range} +{new_range} @@\n")?;
    text.extend_from_slice(head.as_bytes())?;
    push_lines(text, b' ', lead)?;
    push_lines(text, b'-', removed)?;
    push_lines(text, b'+', added)?;
    push_lines(text, b' ', trail)
}

// Appends lines, each after a sign.
fn push_lines<A: Allocator>(
    text: &mut Vec<u8, A>,
    sign: u8,
    lines: &[&[u8]],
) -> Result<(), AllocError>
    ensures { OnOk result (text.new.items
        ≡ text.old.items ++ marked sign (texts lines.now)) }
{
    'lines: for line in lines {
        text.push(sign)?;
        push_ended(text, line)?;
    }
    Ok(())
}

// Appends a line, and says so if it has no line feed.
fn push_ended<A: Allocator>(text: &mut Vec<u8, A>, line: &[u8]) -> Result<(), AllocError>
    ensures { OnOk result (text.new.items ≡ text.old.items ++ ended line.now) }
{
    text.extend_from_slice(line)?;
    if !line.ends_with(b"\n") {
        text.extend_from_slice(b"\n\\ No newline at end of file\n")?;
    }
    Ok(())
}
