//! One physical line, at once or in the pieces in which it is read, as a part of a logical line.

ghost use Rattle.std.specs.Prelude.{◌≡◌, ◌≢◌, ◌≤◌, ◌<◌, [], true, IfOk, IfErr, IsOk, OnOk, MatchOption, string_bytes};
ghost use Rattle.std.specs.Str.{chars};
ghost use Rattle.dotenvy_format.specs.Characters.{is_quote};
ghost use Rattle.dotenvy_format.specs.LogicalLine.{without_carriage_return};
ghost use Rattle.dotenvy_base.specs.Errors.{IsMemory};
ghost use Rattle.dotenvy_lines.specs.Input.{AsksReads, input_measure};
ghost use Rattle.dotenvy_lines.specs.inside.InputSteps.{WhereTold};
ghost use Rattle.dotenvy_lines.specs.inside.TakenLine.{IsTextFront, PieceFalls, TakesComment, TakesLineOn, TakesOpen, TakesPieceOn, TakesWhole, WalksFrom, WalksOn, after_text, at_line_end, starting, still_blank};

use crate::input::Input;
use dotenvy_base::errors::Result;
use dotenvy_base::source::Source;
use dotenvy_format::text::begins_visibly;
use dotenvy_format::walk::{LineMode, Walked, comment_line, open_line, walk_text, whole_line};
use std::alloc::Allocator;

/// How far the walk over a physical line came.
#[derive(Clone, Copy, Drop)]
pub enum Progress {
    /// So far all of it is white space, and it is the first line of its logical line: it may be a comment.
    Blank(LineMode),
    /// The logical line goes on, in this mode.
    Going(LineMode),
    /// The logical line has ended. The rest of the physical line isn't kept.
    Ended,
    /// The line is a comment.
    Comment,
}

/// What follows a text that was read.
#[derive(Clone, Copy, Drop)]
pub enum After {
    /// The next line: the text ends with an LF.
    LineEnd,
    /// Nothing: the end was read.
    InputEnd,
    /// Bytes that are no character, so the line isn't UTF-8.
    Broken,
    /// The rest of the line, or of a character, which is still to be read.
    Unread,
}

// What a piece of a physical line leads to.
#[derive(Clone, Copy, Drop)]
struct Step {
    progress: Progress,
    after: After,
}

/// What a physical line makes of the logical line that it continues.
#[derive(Clone, Copy, Drop)]
pub enum Taken {
    /// It goes on in the next physical line, in this mode.
    Going(LineMode),
    /// It has ended.
    Ended,
    /// The physical line is a comment.
    Comment,
    /// The physical line isn't UTF-8.
    Broken,
}

// The longest front of the bytes that is text. What is left may be a character whose end is still to be read.
fn text_front(bytes: &[u8]) -> &str
    ensures { IsTextFront bytes.now result.now }
{
    match str::from_utf8(bytes) {
        Ok(text) => text,
        Err(fault) => str::from_utf8(&bytes[..fault.valid_up_to()]).unwrap_or(""),
    }
}

// No character has more bytes than four: so many bytes that are no text stay none, whatever follows.
fn after_text(left: usize, is_whole: bool, at_end: bool) -> After
    ensures { result ≡ after_text left is_whole at_end }
{
    if left > 0 {
        if is_whole || at_end || left >= 4 {
            After::Broken
        } else {
            After::Unread
        }
    } else if is_whole {
        After::LineEnd
    } else if at_end {
        After::InputEnd
    } else {
        After::Unread
    }
}

fn drop_carriage_return<A: Allocator>(text: &mut String<A>)
    ensures { chars (string_bytes text.new)
        ≡ without_carriage_return (chars (string_bytes text.old)) }
{
    if text.as_str().ends_with('\r') {
        let _ = text.pop();
    }
}

// Walks a piece of a line, and keeps what the logical line keeps of it.
fn walk_on<A: Allocator>(mode: LineMode, piece: &str, text: &mut String<A>) -> Result<Progress, A>
    ensures walks { IfOk result (WalksFrom mode (chars (string_bytes text.old)) (chars piece.now)
        (chars (string_bytes text.new))) }
    ensures memory { IfErr result IsMemory }
{
    match walk_text(piece, mode) {
        Walked::Going(next) => {
            text.push_str(piece)?;
            Ok(Progress::Going(next))
        }
        Walked::EndedAt(at, end) => {
            text.push_str(&piece[..at])?;
            if end == '\n' {
                drop_carriage_return(text);
            }
            Ok(Progress::Ended)
        }
    }
}

// As long as a line is blank, it may still be a comment.
fn still_blank(progress: Progress) -> Progress
    ensures { result ≡ still_blank progress }
{
    match progress {
        Progress::Going(mode) => Progress::Blank(mode),
        _ => progress,
    }
}

// One more piece of a line that was blank so far.
#[inline(always)]
fn begin<A: Allocator>(mode: LineMode, piece: &str, text: &mut String<A>) -> Result<Progress, A>
    ensures walks { IfOk result (WalksOn (Progress.Blank mode) (chars (string_bytes text.old))
        (chars piece.now) (chars (string_bytes text.new))) }
    ensures memory { IfErr result IsMemory }
{
    if piece.starts_with('#') {
        return Ok(Progress::Comment);
    }
    if begins_visibly(piece) {
        return walk_on(mode, piece, text);
    }
    let trimmed = piece.trim_start();
    if trimmed.is_empty() {
        return Ok(still_blank(walk_on(mode, piece, text)?));
    }
    if trimmed.starts_with('#') {
        return Ok(Progress::Comment);
    }
    walk_on(mode, piece, text)
}

// Takes what was read of a physical line, as far as it is text. What is not kept was still seen to be text.
fn take_piece<R: Source, A: Allocator>(
    input: &mut Input<R, A>,
    text: &mut String<A>,
    progress: Progress,
) -> Result<Step, A>
    ensures measure { input_measure input.new ≤ input_measure input.old }
    ensures falls { IfOk result (λ step. PieceFalls input.old step.after input.new) }
    ensures told { IfOk result (λ step. TakesPieceOn progress (chars (string_bytes text.old))
        input.old step.progress step.after (chars (string_bytes text.new)) input.new) }
    ensures memory { IfErr result IsMemory }
    ensures asks { AsksReads (Unit {0}) input.old input.new }
{
    let piece = input.line_piece();
    let front = text_front(piece.bytes);
    let len = front.len();
    let after = after_text(piece.bytes.len() - len, piece.is_whole, input.is_at_end());
    let progress = match progress {
        Progress::Blank(mode) => begin(mode, front, text)?,
        Progress::Going(mode) => walk_on(mode, front, text)?,
        Progress::Ended | Progress::Comment => progress,
    };
    input.use_up(len);
    Ok(Step { progress, after })
}

fn starting(mode: LineMode, is_first: bool) -> Progress
    ensures { result ≡ starting mode is_first }
{
    if is_first {
        Progress::Blank(mode)
    } else {
        Progress::Going(mode)
    }
}

fn at_line_end(progress: Progress) -> Taken
    ensures { result ≡ at_line_end progress }
{
    match progress {
        Progress::Blank(mode) => Taken::Going(mode),
        Progress::Going(mode) => Taken::Going(mode),
        Progress::Ended => Taken::Ended,
        Progress::Comment => Taken::Comment,
    }
}

// Takes the next physical line, in as many pieces as it is read in.
fn take_pieces<R: Source, A: Allocator>(
    input: &mut Input<R, A>,
    text: &mut String<A>,
    mode: LineMode,
) -> Result<Taken, A>
    requires { 0 < input.old.unread }
    ensures falls { OnOk result (input_measure input.new < input_measure input.old) }
    ensures told { WhereTold input.old.left
        (λ a. TakesLineOn mode (chars (string_bytes text.old)) a input.old result
        (chars (string_bytes text.new)) input.new) }
    ensures asks { AsksReads (IsOk result) input.old input.new }
{
    let mut progress = starting(mode, text.is_empty());
    'pieces: loop {
        let step = take_piece(input, text, progress)?;
        progress = step.progress;
        match step.after {
            After::LineEnd | After::InputEnd => return Ok(at_line_end(progress)),
            After::Broken => {
                input.skip_line()?;
                return Ok(Taken::Broken);
            }
            After::Unread => input.read_more()?,
        }
    }
}

// Takes the next physical line, if all of it is read, and it is ASCII and begins with `#`.
#[inline(always)]
fn take_comment<R: Source, A: Allocator>(input: &mut Input<R, A>) -> bool
    ensures comment { TakesComment input.old result input.new }
    ensures asks { AsksReads (Unit {0}) input.old input.new }
{
    match comment_line(input.unread()) {
        Some(line) => {
            let whole = line.len() + 1;
            input.use_up(whole);
            true
        }
        None => false,
    }
}

// Takes the next physical line, if all of it is read and it is a logical line by itself.
#[tactic(auto, using(crate::proofs::WholeLines::closed_within))]
#[inline(always)]
fn take_whole<R: Source, A: Allocator>(
    input: &mut Input<R, A>,
    text: &mut String<A>,
) -> Result<bool, A>
    ensures falls { OnOk result (input_measure input.new ≤ input_measure input.old) }
    ensures whole { IfOk result (λ whole. TakesWhole (chars (string_bytes text.old)) input.old whole
        (chars (string_bytes text.new)) input.new) }
    ensures memory { IfErr result IsMemory }
    ensures asks { AsksReads (Unit {0}) input.old input.new }
{
    let Some(line) = whole_line(input.unread()) else {
        return Ok(false);
    };
    let len = line.kept.len() + line.rest.len();
    text.push_str(line.kept)?;
    // Before a comment there is a blank, and no carriage return.
    drop_carriage_return(text);
    input.use_up(len + 1);
    Ok(true)
}

// The quote of a part that is open in this mode, if it is one.
#[inline(always)]
fn open_quote(mode: LineMode) -> Option<u8>
    ensures { MatchOption result (Unit {0})
        (λ quote. (is_quote quote ≡ true) × (mode ≡ LineMode.Inside quote)) }
{
    match mode {
        LineMode::Inside('"') => Some(b'"'),
        LineMode::Inside('\'') => Some(b'\''),
        _ => None,
    }
}

// Takes the next physical line, if all of it is read and the quotes that are open before it stay open.
#[tactic(auto, using(crate::proofs::WholeLines::open_within))]
#[inline(always)]
fn take_open<R: Source, A: Allocator>(
    input: &mut Input<R, A>,
    text: &mut String<A>,
    quote: u8,
) -> Result<bool, A>
    requires { (is_quote quote ≡ true) × (string_bytes text.old ≢ []) }
    ensures falls { OnOk result (input_measure input.new ≤ input_measure input.old) }
    ensures open { IfOk result (λ is_open. TakesOpen quote (chars (string_bytes text.old)) input.old is_open
        (chars (string_bytes text.new)) input.new) }
    ensures memory { IfErr result IsMemory }
    ensures asks { AsksReads (Unit {0}) input.old input.new }
{
    let Some(line) = open_line(input.unread(), quote) else {
        return Ok(false);
    };
    let taken = line.len() + 1;
    text.push_str(line)?;
    text.push('\n')?;
    input.use_up(taken);
    Ok(true)
}

/// Takes the next physical line.
///
/// `text` is what the logical line keeps so far, and is empty before its first line.
pub fn take_line<R: Source, A: Allocator>(
    input: &mut Input<R, A>,
    text: &mut String<A>,
    mode: LineMode,
) -> Result<Taken, A>
    requires { 0 < input.old.unread }
    ensures falls { OnOk result (input_measure input.new < input_measure input.old) }
    ensures told { WhereTold input.old.left
        (λ a. TakesLineOn mode (chars (string_bytes text.old)) a input.old result
        (chars (string_bytes text.new)) input.new) }
    ensures asks { AsksReads (IsOk result) input.old input.new }
{
    if text.is_empty() && take_comment(input) {
        return Ok(Taken::Comment);
    }
    if let LineMode::Outside = mode {
        if take_whole(input, text)? {
            return Ok(Taken::Ended);
        }
    }
    if let Some(quote) = open_quote(mode) {
        if !text.is_empty() && take_open(input, text, quote)? {
            return Ok(Taken::Going(mode));
        }
    }
    take_pieces(input, text, mode)
}
