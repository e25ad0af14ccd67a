//! Cuts texts after runs of characters of one class, and bytes after runs of one kind or after their first line. Runs
//! are searched by bytes, where that finds the same end.

ghost use Rattle.std.specs.Prelude.{◌≡◌, ◌==◌, ◌++◌, ℕ, List, [], not, true, false, length, unwrap_or, IsTrue, MatchOption};
ghost use Rattle.std.specs.Str.{chars, trim_start, IsUtf8};
ghost use Rattle.dotenvy_format.specs.Characters.{continues_key, is_empty_or_comment, is_space_or_tab, line_feed};
ghost use Rattle.std.specs.List.{list_all, prefix_len, position_from};
ghost use Rattle.dotenvy_format.specs.Value.{is_plain};
ghost use Rattle.dotenvy_format.specs.inside.Slices.{BeginsLine, BeginsWith, IsSpan, PassesBytes, begins_visibly};
ghost use Rattle.dotenvy_format.specs.inside.Slices.{has_character, is_name_byte, is_of_kind, in_run};

use crate::blocks::{
    not_ascii_in_line, not_calm, not_in_key, not_in_quotes, not_inside, not_plain, not_token,
};
use crate::classes::{continues_key, is_blank, is_name_byte, is_name_character};
use crate::dialect::Dialect;
use memchr::memchr;
use std::simd::prelude::*;

/// Where a part of a value is.
#[derive(Clone, Copy)]
pub enum Quoting {
    /// Outside quotes.
    Unquoted,
    /// Between double quotes.
    DoubleQuoted,
}

/// A class of characters, for the longest run of them at the start of a text.
#[derive(Clone, Copy)]
pub enum Class {
    /// A character that may follow in a key.
    Key,
    /// A character of a bare name, which is one after a dollar without braces.
    Name(Dialect),
    /// A character of a value that means itself.
    Plain(Quoting),
    /// A space or a tab.
    SpaceOrTab,
    /// A double quote.
    DoubleQuote,
    /// A character that is a token by itself: no blank, line feed, quote or backslash.
    Token,
    /// A character between these quotes that neither ends them nor escapes another.
    Quoted(char),
    /// A character other than a single quote.
    SingleQuoted,
}

impl Class {
    ghost use Rattle.dotenvy_format.specs.inside.Slices.{ends_by_bytes, has_character};

    /// Whether the character is in this class.
    #[inline(always)]
    pub fn contains(self, c: char) -> bool
        ensures { result ≡ has_character self c }
    {
        match self {
            Class::Key => continues_key(c),
            Class::Name(dialect) => is_name_character(dialect, c),
            Class::Plain(Quoting::Unquoted) => !matches!(c, '\\' | '\'' | '"' | '$' | ' ' | '\t'),
            Class::Plain(Quoting::DoubleQuoted) => !matches!(c, '\\' | '"' | '$'),
            Class::SpaceOrTab => matches!(c, ' ' | '\t'),
            Class::DoubleQuote => c == '"',
            Class::Token => !(is_blank(c) || matches!(c, '\\' | '\'' | '"' | '\n')),
            Class::Quoted(quote) => c != quote && c != '\\',
            Class::SingleQuoted => c != '\'',
        }
    }

    // Whether a run of this class ends where its bytes do: a byte at which these end begins no character of the class.
    #[inline(always)]
    fn ends_by_bytes(self) -> bool
        ensures { result ≡ ends_by_bytes self }
    {
        match self {
            Class::Key
            | Class::Plain(_)
            | Class::SpaceOrTab
            | Class::DoubleQuote
            | Class::SingleQuoted => true,
            Class::Name(_) | Class::Token | Class::Quoted(_) => false,
        }
    }
}

/// The first character of a text, and what follows it; `None` for the empty text.
#[tactic(auto, using(crate::proofs::bytes::Slices::begins_with_first))]
#[inline(always)]
pub fn split_first(text: &str) -> Option<(char, &str)>
    ensures { MatchOption result (text.now ≡ []) (λ p. BeginsWith text.now p.0 p.1.now) }
{
    let mut chars = text.chars();
    let first = chars.next()?;
    Some((first, chars.as_str()))
}

/// Whether the first character is visible ASCII, so that there is no white space before it.
#[inline(always)]
pub fn begins_visibly(text: &str) -> bool
    ensures { result ≡ begins_visibly text.now }
{
    matches!(text.as_bytes().first(), Some(b'!'..=b'~'))
}

/// The text without white space at its start.
#[tactic(auto, using(crate::proofs::bytes::Slices::visible_trimmed))]
#[inline(always)]
pub fn skip_white(text: &str) -> &str
    ensures { result.now ≡ trim_start text.now }
{
    if begins_visibly(text) {
        text
    } else {
        text.trim_start()
    }
}

/// The length of a text in characters. Places of faults in values count so.
#[tactic(auto, using(std::proofs::lemmas::Str::chars_from_encodes))]
pub fn char_count(text: &str) -> usize
    ensures { result ≡ length (chars text.now) }
{
    text.chars().count()
}

/// Whether the text is empty or begins with `#`.
#[tactic(auto, using(crate::proofs::bytes::Slices::no_characters))]
pub fn is_empty_or_comment(text: &str) -> bool
    ensures { result ≡ is_empty_or_comment (chars text.now) }
{
    match split_first(text) {
        None => true,
        Some((first, _)) => first == '#',
    }
}

// The bit for a byte that is a character, or a part of one, which means itself in a value outside quotes.
const PLAIN: u8 = 1;

// The bit for a byte that is a character of a token, or a part of one, and with which no blank begins.
// Blanks beyond ASCII begin with 0xC2 and with 0xE1 to 0xE3.
const TOKEN: u8 = 2;

// The bit for a byte that is a character which may follow in a key.
const KEY: u8 = 4;

// The bits of each byte. Outside quotes six bytes matter. Searches by memchr would run twice over one text, and a text
// of many dollars would take the square of its length, so a table is read.
static KINDS: [u8; 256] = [
    3, 3, 3, 3, 3, 3, 3, 3, 3, 0, 1, 1, 1, 3, 3, 3, 3, 3, 3, 3, 3, 3, 3, 3, 3, 3, 3, 3, 3, 3, 3, 3,
    0, 3, 0, 3, 2, 3, 3, 0, 3, 3, 3, 3, 3, 3, 7, 3, 7, 7, 7, 7, 7, 7, 7, 7, 7, 7, 3, 3, 3, 3, 3, 3,
    3, 7, 7, 7, 7, 7, 7, 7, 7, 7, 7, 7, 7, 7, 7, 7, 7, 7, 7, 7, 7, 7, 7, 7, 7, 7, 7, 3, 0, 3, 3, 7,
    3, 7, 7, 7, 7, 7, 7, 7, 7, 7, 7, 7, 7, 7, 7, 7, 7, 7, 7, 7, 7, 7, 7, 7, 7, 7, 7, 3, 3, 3, 3, 3,
    3, 3, 3, 3, 3, 3, 3, 3, 3, 3, 3, 3, 3, 3, 3, 3, 3, 3, 3, 3, 3, 3, 3, 3, 3, 3, 3, 3, 3, 3, 3, 3,
    3, 3, 3, 3, 3, 3, 3, 3, 3, 3, 3, 3, 3, 3, 3, 3, 3, 3, 3, 3, 3, 3, 3, 3, 3, 3, 3, 3, 3, 3, 3, 3,
    3, 3, 1, 3, 3, 3, 3, 3, 3, 3, 3, 3, 3, 3, 3, 3, 3, 3, 3, 3, 3, 3, 3, 3, 3, 3, 3, 3, 3, 3, 3, 3,
    3, 1, 1, 1, 3, 3, 3, 3, 3, 3, 3, 3, 3, 3, 3, 3, 3, 3, 3, 3, 3, 3, 3, 3, 3, 3, 3, 3, 3, 3, 3, 3,
];

/// A kind of bytes, for the longest run of them at the start of bytes. The table has a bit for each of the first three.
#[derive(Clone, Copy)]
pub enum ByteKind {
    /// A byte that is a character, or a part of one, which means itself in a value outside quotes.
    Plain,
    /// A byte of a token, with which no blank begins.
    Token,
    /// A character that may follow in a key.
    Key,
    /// A byte that is a character, or a part of one, which means itself between double quotes.
    Inside,
    /// A byte that is no quote, backslash, line feed or `#`.
    Calm,
    /// An ASCII character that is no line feed.
    Ascii,
    /// A byte that is no line feed or backslash, and not this quote.
    Quoted(u8),
}

impl ByteKind {
    ghost use Rattle.std.specs.Prelude.{not, map};
    ghost use Rattle.std.specs.Simd.Lanes.{mask_l};
    ghost use Rattle.dotenvy_format.specs.inside.Slices.{is_of_kind};

    #[inline(always)]
    fn contains(self, byte: u8) -> bool
        ensures { result ≡ is_of_kind self byte }
    {
        match self {
            ByteKind::Plain => KINDS[byte as usize] & PLAIN != 0,
            ByteKind::Token => KINDS[byte as usize] & TOKEN != 0,
            ByteKind::Key => KINDS[byte as usize] & KEY != 0,
            ByteKind::Inside => !matches!(byte, b'\\' | b'"' | b'$'),
            ByteKind::Calm => !matches!(byte, b'\\' | b'\'' | b'"' | b'\n' | b'#'),
            ByteKind::Ascii => byte.is_ascii() && byte != b'\n',
            ByteKind::Quoted(quote) => byte != quote && !matches!(byte, b'\\' | b'\n'),
        }
    }

    // A bit for each byte of the block that is not of this kind.
    #[inline(always)]
    fn others_in(self, block: u8x16) -> u64
        ensures { result ≡ mask_l (map (λ b. not (is_of_kind self b)) block) }
    {
        match self {
            ByteKind::Plain => not_plain(block),
            ByteKind::Token => not_token(block),
            ByteKind::Key => not_in_key(block),
            ByteKind::Inside => not_inside(block),
            ByteKind::Calm => not_calm(block),
            ByteKind::Ascii => not_ascii_in_line(block),
            ByteKind::Quoted(quote) => not_in_quotes(block, quote),
        }
    }
}

// Where a row of one byte ends, or `None` if it goes on to the end.
#[inline(always)]
fn row_end(bytes: &[u8], byte: u8) -> Option<usize>
    ensures { result ≡ position_from (λ b. not (b == byte)) 0 bytes.now }
{
    bytes.iter().position(|b| *b != byte)
}

/// Whether the byte is a character, or a part of one, that means itself in a value.
#[inline(always)]
pub fn is_plain_byte(quoting: Quoting, byte: u8) -> bool
    ensures { result ≡ is_plain quoting byte }
{
    match quoting {
        Quoting::Unquoted => ByteKind::Plain.contains(byte),
        Quoting::DoubleQuoted => ByteKind::Inside.contains(byte),
    }
}

/// How many bytes at the start of a text are this one, in a row.
#[tactic(auto, using(crate::proofs::bytes::ByteRuns::run_to_position))]
#[inline(always)]
pub fn row_len(text: &str, byte: u8) -> usize
    ensures { result ≡ prefix_len (λ b. b == byte) text.now }
{
    let bytes = text.as_bytes();
    row_end(bytes, byte).unwrap_or(bytes.len())
}

#[inline(always)]
fn kind_end(bytes: &[u8], kind: ByteKind) -> Option<usize>
    ensures { result ≡ position_from (λ b. not (is_of_kind kind b)) 0 bytes.now }
{
    bytes.iter().position(|b| !kind.contains(*b))
}

// As `kind_end`, in a block.
#[inline(always)]
fn block_end(block: u8x16, kind: ByteKind) -> Option<usize>
    ensures { result ≡ position_from (λ b. not (is_of_kind kind b)) 0 block }
{
    let others = kind.others_in(block);
    if others == 0 {
        None
    } else {
        Some(others.trailing_zeros() as usize)
    }
}

// How many bytes at the start are of the kind, of which all before the rest are.
#[inline(always)]
fn short_run(bytes: &[u8], rest: &[u8], kind: ByteKind) -> usize
    requires { PassesBytes (is_of_kind kind) bytes.now rest.now }
    ensures { result ≡ prefix_len (is_of_kind kind) bytes.now }
{
    match bytes.split_last_chunk::<16>() {
        // the last block has some of the bytes before the rest, too
        Some((front, block)) if rest.len() <= 16 => match block_end(
            u8x16::from_array(*block),
            kind,
        ) {
            Some(end) => front.len() + end,
            None => bytes.len(),
        },
        _ => bytes.len() - rest.len() + kind_end(rest, kind).unwrap_or(rest.len()),
    }
}

// Whether all bytes of some blocks are of the kind.
#[inline(always)]
fn are_of_kind(chunk: &[u8], kind: ByteKind) -> bool
    ensures { result ≡ true → IsTrue (list_all (is_of_kind kind) chunk.now) }
{
    let mut others = 0;
    let mut rest = chunk;
    'masks: while let Some((block, after)) = rest.split_first_chunk::<16>() {
        others |= kind.others_in(u8x16::from_array(*block));
        rest = after;
    }
    others == 0 && rest.is_empty()
}

// What is left of a long run: less than four blocks, or some of which one has a byte of another kind.
fn after_blocks(bytes: &[u8], kind: ByteKind) -> &[u8]
    ensures { PassesBytes (is_of_kind kind) bytes.now result.now }
{
    let mut rest = bytes;
    'runs: while let Some((chunk, after)) = rest.split_first_chunk::<64>() {
        if !are_of_kind(chunk, kind) {
            return rest;
        }
        rest = after;
    }
    rest
}

// Where a run is searched for: in a line of the read buffer, where it is short, or in a value, where it may be long.
#[derive(Clone, Copy)]
enum Room {
    Line,
    Value,
}

// Whether after so many bytes a run is worth searching by four blocks at a time.
#[inline(always)]
fn is_far(room: Room, passed: usize) -> bool {
    matches!(room, Room::Value) && passed == 256
}

// How many bytes at the start are of the kind.
#[inline(always)]
fn kind_run(bytes: &[u8], kind: ByteKind, room: Room) -> usize
    ensures { result ≡ prefix_len (is_of_kind kind) bytes.now }
{
    let mut rest = bytes;
    'search: while let Some((block, after)) = rest.split_first_chunk::<16>() {
        if let Some(end) = block_end(u8x16::from_array(*block), kind) {
            return bytes.len() - rest.len() + end;
        }
        rest = after;
        if is_far(room, bytes.len() - rest.len()) {
            rest = after_blocks(rest, kind);
        }
    }
    short_run(bytes, rest, kind)
}

/// Cuts bytes after the longest run of bytes of the kind at their start. Either part may be empty.
#[inline(always)]
pub fn split_run(bytes: &[u8], kind: ByteKind) -> (&[u8], &[u8])
    ensures { IsSpan (is_of_kind kind) bytes.now result.0.now result.1.now }
{
    match bytes.first() {
        Some(first) if kind.contains(*first) => bytes.split_at(kind_run(bytes, kind, Room::Value)),
        // no block is looked at before a byte of another kind, which often comes right after another one
        _ => (&bytes[..0], bytes),
    }
}

/// The first line of the bytes, without its line feed, if it is whole and all of its bytes are of the kind.
#[inline(always)]
pub fn line_of(bytes: &[u8], kind: ByteKind) -> Option<&[u8]>
    requires { is_of_kind kind line_feed ≡ false }
    ensures { MatchOption result
        ((line : List ℕ) → ¬ (BeginsLine (is_of_kind kind) bytes.now line))
        (λ line. BeginsLine (is_of_kind kind) bytes.now line.now) }
{
    let (line, after) = bytes.split_at(kind_run(bytes, kind, Room::Line));
    match after.first() {
        Some(b'\n') => Some(line),
        _ => None,
    }
}

#[inline(always)]
fn name_end(bytes: &[u8], dialect: Dialect) -> Option<usize>
    ensures { result ≡ position_from (λ b. not (is_name_byte dialect b)) 0 bytes.now }
{
    bytes.iter().position(|b| !is_name_byte(dialect, *b))
}

#[inline(always)]
fn space_or_tab_end(bytes: &[u8]) -> Option<usize>
    ensures { result ≡ position_from (λ b. not (is_space_or_tab b)) 0 bytes.now }
{
    bytes.iter().position(|b| !matches!(*b, b' ' | b'\t'))
}

// Where the bytes end that may be skipped without decoding their characters.
#[tactic(auto, using(crate::proofs::bytes::ByteRuns::run_ends))]
#[inline(always)]
fn run_end(bytes: &[u8], class: Class) -> Option<usize>
    ensures { unwrap_or result (length bytes.now) ≡ prefix_len (in_run class) bytes.now }
{
    match class {
        Class::Key => Some(kind_run(bytes, ByteKind::Key, Room::Line)),
        Class::Name(dialect) => name_end(bytes, dialect),
        Class::Plain(Quoting::Unquoted) => Some(kind_run(bytes, ByteKind::Plain, Room::Value)),
        Class::Plain(Quoting::DoubleQuoted) => Some(kind_run(bytes, ByteKind::Inside, Room::Value)),
        Class::SpaceOrTab => space_or_tab_end(bytes),
        Class::DoubleQuote => row_end(bytes, b'"'),
        Class::Token => Some(kind_run(bytes, ByteKind::Token, Room::Value)),
        Class::Quoted(quote) if quote.is_ascii() => Some(kind_run(
            bytes,
            ByteKind::Quoted(quote as u8),
            Room::Value,
        )),
        Class::Quoted(_) => Some(0),
        Class::SingleQuoted => memchr(b'\'', bytes),
    }
}

/// Cuts a text after the longest run of characters of the class at its start. Either part may be empty.
#[inline(always)]
pub fn split_while(text: &str, class: Class) -> (&str, &str)
    ensures bytes { text.now ≡ result.0.now ++ result.1.now }
    ensures texts { IsUtf8 result.0.now × IsUtf8 result.1.now }
    ensures span { IsSpan (has_character class) (chars text.now) (chars result.0.now)
        (chars result.1.now) }
{
    if class.ends_by_bytes() {
        let bytes = text.as_bytes();
        return text.split_at(run_end(bytes, class).unwrap_or(bytes.len()));
    }
    let mut rest = text;
    'runs: loop {
        let bytes = rest.as_bytes();
        let (_, after) = rest.split_at(run_end(bytes, class).unwrap_or(bytes.len()));
        match split_first(after) {
            Some((first, next)) if class.contains(first) => rest = next,
            _ => return text.split_at(text.len() - after.len()),
        }
    }
}
