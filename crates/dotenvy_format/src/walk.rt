//! Walks over the characters of a physical line to the end of its logical line (docs/GRAMMAR.md, "Logical lines"), and
//! sees which lines need no walk: `whole_line`, `comment_line`.

ghost use Rattle.std.specs.Prelude.{◌≡◌, ◌==◌, ◌∷◌, ℕ, List, None, Some, true, false, MatchOption, IsTrue};
ghost use Rattle.std.specs.Str.{IsUtf8};
ghost use Rattle.dotenvy_format.specs.Characters.{backslash, is_quote, is_space_or_tab, line_feed};
ghost use Rattle.dotenvy_format.specs.inside.Slices.{BeginsLine, is_ascii_in_line, is_calm};
ghost use Rattle.dotenvy_format.specs.Tokens.{stands_for_itself};
ghost use Rattle.dotenvy_format.specs.inside.Walk.{leads_outside, leads, BeginsComment, WalksTo, WalksText};
ghost use Rattle.dotenvy_format.specs.inside.LineEnd.{BeginsOpen, BeginsWhole, LeadsOut, from_feed, from_line_end};
ghost use Rattle.dotenvy_format.specs.inside.LineEnd.{line_start, between, unquoted};
ghost use Rattle.dotenvy_format.specs.inside.LineEnd.{after_byte, blanks_over, ends_line, hash_leads, is_odd, with_one};

use crate::text::{ByteKind, Class, line_of, row_len, split_first, split_run, split_while};

/// What the walk is in the middle of.
#[derive(Clone, Copy, Drop)]
pub enum LineMode {
    /// Nothing: outside quotes, after a whole token.
    Outside,
    /// Outside quotes, after a backslash.
    Escaping,
    /// A part in these quotes.
    Inside(char),
    /// A part in these quotes, after a backslash.
    InsideEscaping(char),
    /// Outside quotes, after a blank, which may begin a comment.
    AfterBlank,
}

// Whether a blank before this character is a token by itself.
fn stands_for_itself(c: char) -> bool
    ensures { result ≡ stands_for_itself c }
{
    matches!(c, '\\' | '\'' | '"' | '\n')
}

// The mode that a character leads to after a whole token, or `None` if it ends the logical line.
fn mode_after_token(c: char) -> Option<LineMode>
    ensures { result ≡ leads_outside c }
{
    match c {
        '\n' => None,
        '\\' => Some(LineMode::Escaping),
        '\'' | '"' => Some(LineMode::Inside(c)),
        _ if c.is_whitespace() && c != '\r' => Some(LineMode::AfterBlank),
        _ => Some(LineMode::Outside),
    }
}

/// The mode that a character leads to, or `None` if it ends the logical line.
pub fn next_mode(mode: LineMode, c: char) -> Option<LineMode>
    ensures { result ≡ leads mode c }
{
    match mode {
        LineMode::Outside => mode_after_token(c),
        LineMode::Escaping => {
            if c == '\n' {
                None
            } else {
                Some(LineMode::Outside)
            }
        }
        LineMode::Inside(quote) => {
            if c == quote {
                Some(LineMode::Outside)
            } else if c == '\\' {
                Some(LineMode::InsideEscaping(quote))
            } else {
                Some(LineMode::Inside(quote))
            }
        }
        LineMode::InsideEscaping(quote) => Some(LineMode::Inside(quote)),
        LineMode::AfterBlank => {
            if c == '#' {
                None
            } else if stands_for_itself(c) {
                mode_after_token(c)
            } else {
                Some(LineMode::Outside)
            }
        }
    }
}

/// How far a walk came.
#[derive(Clone, Copy, Drop)]
pub enum Walked {
    /// The text is at its end, and the logical line goes on in this mode.
    Going(LineMode),
    /// The logical line ends at this character, a line feed or the `#` of a comment, after so many bytes of the text.
    EndedAt(usize, char),
}

// What is left of a text outside quotes after an even number of this blank at its start: each two of them are a token.
#[inline(always)]
fn pass_pairs(text: &str, blank: u8) -> &str
    requires { IsTrue (is_space_or_tab blank) }
    ensures { WalksTo LineMode.Outside text.now LineMode.Outside result.now }
{
    let row = row_len(text, blank);
    let (_, rest) = text.split_at(row - row % 2);
    rest
}

// What is left of a text outside quotes after characters at its start that lead back to outside quotes.
#[inline(always)]
fn pass_outside(text: &str) -> &str
    ensures { WalksTo LineMode.Outside text.now LineMode.Outside result.now }
{
    match text.as_bytes().first() {
        Some(b' ') => pass_pairs(text, b' '),
        Some(b'\t') => pass_pairs(text, b'\t'),
        _ => split_while(text, Class::Token).1,
    }
}

// What is left of a text after characters at its start that lead back to the mode.
#[tactic(auto, using(crate::proofs::lines::LineTexts::walking_start))]
#[inline(always)]
fn pass_run(text: &str, mode: LineMode) -> &str
    ensures { WalksTo mode text.now mode result.now }
{
    match (text.as_bytes().first(), mode) {
        // no run is searched for before a quote or a backslash, which often comes right after another one
        (Some(b'\\' | b'\'' | b'"' | b'\n'), _) => text,
        (_, LineMode::Outside) => pass_outside(text),
        (_, LineMode::Inside(quote)) => split_while(text, Class::Quoted(quote)).1,
        _ => text,
    }
}

// Whether a backslash and this character lead back to the mode.
#[inline(always)]
fn stays_escaped(mode: LineMode, c: char) -> bool
    ensures { result ≡ true →
        (next : LineMode) × (leads mode backslash ≡ Some next) × (leads next c ≡ Some mode) }
{
    match mode {
        LineMode::Outside => c != '\n',
        LineMode::Inside(quote) => quote != '\\',
        LineMode::Escaping | LineMode::InsideEscaping(_) | LineMode::AfterBlank => false,
    }
}

// What is left of a text after the escapes at its start that lead back to the mode.
#[inline(always)]
fn pass_escapes(text: &str, mode: LineMode) -> &str
    ensures { WalksTo mode text.now mode result.now }
{
    let mut rest = text;
    'escapes: while let Some(('\\', behind)) = split_first(rest) {
        match split_first(behind) {
            Some((escaped, after)) if stays_escaped(mode, escaped) => rest = after,
            _ => return rest,
        }
    }
    rest
}

/// Walks over a text from this mode, to its end or to the end of the logical line.
pub fn walk_text(text: &str, start: LineMode) -> Walked
    ensures { WalksText start text.now result }
{
    let mut mode = start;
    let mut rest = text;
    'walking: loop {
        rest = pass_escapes(pass_run(rest, mode), mode);
        let Some((c, after)) = split_first(rest) else {
            return Walked::Going(mode);
        };
        mode = match next_mode(mode, c) {
            Some(next) => next,
            None => return Walked::EndedAt(text.len() - rest.len(), c),
        };
        rest = after;
    }
}

/// How many blanks come right before a byte outside quotes, as each two of them are a token.
#[derive(Clone, Copy, Drop)]
enum Blanks {
    /// An even number, after a visible character or a whole token.
    Even,
    /// An odd number, after one of these.
    Odd,
    /// It isn't known: perhaps only white space comes before, or a blank beyond ASCII.
    Unknown,
}

// The blanks after a byte that is calm, and no space or tab.
fn after_byte(byte: u8) -> Blanks
    ensures { result ≡ after_byte byte }
{
    match byte {
        b'!'..=b'~' => Blanks::Even,
        _ => Blanks::Unknown,
    }
}

fn is_space_or_tab(byte: u8) -> bool
    ensures { result ≡ is_space_or_tab byte }
{
    matches!(byte, b' ' | b'\t')
}

// The blanks with one more in the row, if there is one more.
fn with_one(blanks: Blanks, is_more: bool) -> Blanks
    ensures { result ≡ with_one is_more blanks }
{
    if !is_more {
        return blanks;
    }
    match blanks {
        Blanks::Even => Blanks::Odd,
        Blanks::Odd => Blanks::Even,
        Blanks::Unknown => Blanks::Unknown,
    }
}

// The blanks after calm bytes, as those at their end tell.
#[inline(always)]
fn blanks_over(blanks: Blanks, run: &[u8]) -> Blanks
    ensures { result ≡ blanks_over blanks run.now }
{
    let mut front = run;
    let mut is_one_more = false;
    'row: while let Some((last, before)) = front.split_last() {
        if is_space_or_tab(*last) {
            is_one_more = !is_one_more;
            front = before;
        } else {
            return with_one(after_byte(*last), is_one_more);
        }
    }
    with_one(blanks, is_one_more)
}

fn is_odd(blanks: Blanks) -> bool
    ensures { result ≡ is_odd blanks }
{
    match blanks {
        Blanks::Odd => true,
        Blanks::Even | Blanks::Unknown => false,
    }
}

// Whether the byte after these blanks ends its logical line: a line feed, or the `#` of a comment.
#[inline(always)]
fn ends_line(blanks: Blanks, byte: u8) -> bool
    ensures { result ≡ ends_line (unquoted blanks) byte }
{
    byte == b'\n' || (byte == b'#' && is_odd(blanks))
}

// What is behind the first byte, if it is no line feed.
#[inline(always)]
fn after_escaped(bytes: &[u8]) -> Option<&[u8]>
    ensures { MatchOption result ((b : ℕ) (rest : List ℕ) → bytes.now ≡ b ∷ rest → (b == line_feed) ≡ true)
        (λ rest. (b : ℕ) × (bytes.now ≡ b ∷ rest.now) × ((b == line_feed) ≡ false)) }
{
    match bytes.split_first() {
        Some((first, rest)) if *first != b'\n' => Some(rest),
        _ => None,
    }
}

// What is behind a part in these quotes, of which the first quote was passed, if the part is whole and on one line.
#[inline(always)]
fn after_quotes(bytes: &[u8], quote: u8) -> Option<&[u8]>
    requires { is_quote quote ≡ true }
    ensures { MatchOption result (from_line_end (between quote) bytes.now ≡ None)
        (λ rest. LeadsOut (between quote) bytes.now rest.now) }
{
    let mut rest = bytes;
    'escapes: loop {
        let (_, end) = split_run(rest, ByteKind::Quoted(quote));
        let (first, behind) = end.split_first()?;
        if *first == quote {
            return Some(behind);
        }
        if *first == b'\n' {
            return None;
        }
        rest = after_escaped(behind)?;
    }
}

// What is behind a `#` after these blanks, if it is surely a part of a token.
#[inline(always)]
fn after_hash(blanks: Blanks, behind: &[u8]) -> Option<&[u8]>
    ensures { MatchOption result (hash_leads blanks ≡ None)
        (λ rest. (hash_leads blanks ≡ Some (unquoted Blanks.Even)) × (rest.now ≡ behind.now)) }
{
    match blanks {
        Blanks::Even => Some(behind),
        Blanks::Odd | Blanks::Unknown => None,
    }
}

// What is behind the escape, the quoted part or the `#` that begins with this byte, after these blanks, if it is whole,
// on one line and no comment.
#[inline(always)]
fn after_part(blanks: Blanks, first: u8, behind: &[u8]) -> Option<&[u8]>
    requires { (is_calm first ≡ false) × (ends_line (unquoted blanks) first ≡ false) }
    ensures { MatchOption result (from_line_end (unquoted blanks) (first ∷ behind.now) ≡ None)
        (λ rest. LeadsOut (unquoted blanks) (first ∷ behind.now) rest.now) }
{
    match first {
        b'#' => after_hash(blanks, behind),
        b'\\' => after_escaped(behind),
        _ => after_quotes(behind, first),
    }
}

// The bytes from the one on that ends the first logical line, if quotes are closed before it.
#[inline(always)]
fn from_line_end(bytes: &[u8]) -> Option<&[u8]>
    ensures { MatchOption result (from_line_end line_start bytes.now ≡ None)
        (λ end. from_line_end line_start bytes.now ≡ Some end.now) }
{
    let mut blanks = Blanks::Unknown;
    let mut rest = bytes;
    'parts: loop {
        let (run, end) = split_run(rest, ByteKind::Calm);
        let (first, behind) = end.split_first()?;
        let before = blanks_over(blanks, run);
        if ends_line(before, *first) {
            return Some(end);
        }
        rest = after_part(before, *first, behind)?;
        blanks = Blanks::Even;
    }
}

// What the first line has before its line feed, if that is ASCII: nothing, or a comment.
#[inline(always)]
fn rest_of_line(end: &[u8]) -> Option<&[u8]>
    ensures { MatchOption result ((line : List ℕ) → ¬ (BeginsLine is_ascii_in_line end.now line))
        (λ line. BeginsLine is_ascii_in_line end.now line.now) }
{
    match end.first() {
        Some(b'\n') => Some(&end[..0]),
        _ => line_of(end, ByteKind::Ascii),
    }
}

// The bytes as a text, if they are UTF-8.
#[inline(always)]
fn as_text(bytes: &[u8]) -> Option<&str>
    ensures { MatchOption result (¬ (IsUtf8 bytes.now))
        (λ text. (text.now ≡ bytes.now) × IsUtf8 text.now) }
{
    str::from_utf8(bytes).ok()
}

/// A physical line that is a logical line by itself, without its line feed.
#[derive(Clone, Copy)]
pub struct WholeLine<'a> {
    /// What the logical line keeps of it, with the carriage return that may be at its end.
    pub kept: &'a str,
    /// The comment after that, from its `#` on; empty if there is none.
    pub rest: &'a [u8],
}

/// The first line of the bytes, if all of it is there, it is text and a logical line by itself, and its comment is
/// ASCII.
///
/// It is also `None` where only a walk can tell whether a `#` begins a comment: if nothing but white space is before
/// it, or if the character before it, and before its spaces and tabs, isn't visible ASCII.
#[inline(always)]
pub fn whole_line(bytes: &[u8]) -> Option<WholeLine<'_>>
    ensures { MatchOption result ((kept rest : List ℕ) → ¬ (BeginsWhole bytes.now kept rest))
        (λ line. BeginsWhole bytes.now line.kept.now line.rest.now) }
{
    let end = from_line_end(bytes)?;
    let rest = rest_of_line(end)?;
    let kept = as_text(&bytes[..bytes.len() - end.len()])?;
    Some(WholeLine { kept, rest })
}

// The bytes from the line feed on that ends a line between such quotes, if none closes before.
#[inline(always)]
fn from_feed(bytes: &[u8], quote: u8) -> Option<&[u8]>
    requires { is_quote quote ≡ true }
    ensures { MatchOption result (from_feed quote false bytes.now ≡ None)
        (λ end. from_feed quote false bytes.now ≡ Some end.now) }
{
    let mut rest = bytes;
    'escapes: loop {
        let (_, end) = split_run(rest, ByteKind::Quoted(quote));
        let (first, behind) = end.split_first()?;
        if *first == b'\n' {
            return Some(end);
        }
        if *first == quote {
            return None;
        }
        let (escaped, later) = behind.split_first()?;
        if *escaped == b'\n' {
            return Some(behind);
        }
        rest = later;
    }
}

/// The first line of the bytes, without its line feed, if all of it is there and is text, and these quotes, which are
/// open before it, stay open.
#[inline(always)]
pub fn open_line(bytes: &[u8], quote: u8) -> Option<&str>
    requires { is_quote quote ≡ true }
    ensures { MatchOption result ((line : List ℕ) → ¬ (BeginsOpen quote bytes.now line))
        (λ line. BeginsOpen quote bytes.now line.now) }
{
    let end = from_feed(bytes, quote)?;
    as_text(&bytes[..bytes.len() - end.len()])
}

/// The first line of the bytes, without its line feed, if it is whole, begins with `#` and is ASCII.
///
/// At the start of a logical line it is a comment.
#[inline(always)]
pub fn comment_line(bytes: &[u8]) -> Option<&[u8]>
    ensures { MatchOption result ((line : List ℕ) → ¬ (BeginsComment bytes.now line))
        (λ line. BeginsComment bytes.now line.now) }
{
    match bytes.first() {
        Some(b'#') => line_of(bytes, ByteKind::Ascii),
        _ => None,
    }
}
