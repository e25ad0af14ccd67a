//! Comments that allow kinds of findings: `# dotenvy_check: allow KIND KIND`.

ghost use Rattle.std.specs.Prelude.{◌≡◌, ◌<◌, length, map, true, IfOk, IfSome, OnOk};
ghost use Rattle.std.specs.List.{position_from, position_or_len};
ghost use Rattle.dotenvy_findings.specs.Comments.{CommentPartsJoin, FindsComments, HaveComments, allow_of, allowed, begun, comment_kinds, fresh, is_open, is_order, is_white, named, named_in, part_after, part_kinds, part_of, watch_of, watched, with_end, with_line, with_rest, without_white, words, words_of};
ghost use Rattle.dotenvy_findings.specs.Named.{kind_named};
ghost use Rattle.dotenvy_format.specs.PhysicalLines.{no_line_feed};

use crate::kind::Kind;
use crate::named::kind_named;
use memchr::memchr;
use std::alloc::{AllocError, Allocator};
use std::str;

/// A comment that allows kinds of findings.
#[derive(Drop)]
pub struct AllowComment<A: Allocator> {
    /// Its physical line, counted from 1. The count stops at the greatest number.
    pub line: u64,
    /// The kinds that it names, in its order. There is at least one.
    pub kinds: Vec<Kind, A>,
}

// Whether the byte is white space within a line.
fn is_white(byte: u8) -> bool
    ensures { result ≡ is_white byte }
{
    matches!(byte, b' ' | b'\t' | b'\r')
}

// The text from its first byte on that is no white space.
fn skip_white(text: &[u8]) -> &[u8]
    ensures { result.now ≡ without_white text.now }
{
    let mut rest = text;
    'bytes: while let Some((first, after)) = rest.split_first() {
        if !is_white(*first) {
            return rest;
        }
        rest = after;
    }
    rest
}

// Where the first white space stands, or `None` if there is none.
fn first_white(text: &[u8]) -> Option<usize>
    ensures { result ≡ position_from is_white 0 text.now }
{
    text.iter().position(|byte| is_white(*byte))
}

// How many bytes stand before the first white space.
#[tactic(auto, using(crate::proofs::CommentWords::position_is_len))]
fn word_len(text: &[u8]) -> usize
    ensures { result ≡ position_or_len is_white text.now }
{
    first_white(text).unwrap_or(text.len())
}

// The first word of a text, and what stands behind it.
fn next_word(text: &[u8]) -> Option<(&[u8], &[u8])>
    ensures words { words_of result ≡ words text.now }
    ensures shorter { IfSome result (λ parts. length parts.1.now < length text.now) }
{
    let rest = skip_white(text);
    if rest.is_empty() {
        return None;
    }
    Some(rest.split_at(word_len(rest)))
}

// Whether these are the words `dotenvy_check:` and `allow`.
fn is_order(tool: &[u8], order: &[u8]) -> bool
    ensures { result ≡ is_order tool.now order.now }
{
    tool == b"dotenvy_check:".as_slice() && order == b"allow".as_slice()
}

// What stands behind the words `dotenvy_check:` and `allow`, if a text begins with them.
fn behind_order(text: &[u8]) -> Option<&[u8]>
    ensures { named_in result ≡ allowed (words text.now) }
{
    let (tool, rest) = next_word(text)?;
    let (order, names) = next_word(rest)?;
    if is_order(tool, order) {
        Some(names)
    } else {
        None
    }
}

// The kind that this word names.
fn kind_of(word: &[u8]) -> Option<Kind>
    ensures { result ≡ kind_named word.now }
{
    match str::from_utf8(word) {
        Ok(name) => kind_named(name),
        Err(_) => None,
    }
}

// The kinds that are named in a text.
fn named_kinds<A: Allocator>(alloc: A, names: &[u8]) -> Result<Vec<Kind, A>, AllocError>
    ensures { IfOk result (λ kinds. kinds.items ≡ named (words names.now)) }
{
    let mut kinds = Vec::new(alloc);
    let mut rest = names;
    'words: while let Some((word, after)) = next_word(rest) {
        if let Some(kind) = kind_of(word) {
            kinds.push(kind)?;
        }
        rest = after;
    }
    Ok(kinds)
}

// The kinds that a comment allows, by the bytes behind its `#`.
fn comment_kinds<A: Allocator>(alloc: A, text: &[u8]) -> Result<Vec<Kind, A>, AllocError>
    ensures { IfOk result (λ kinds. kinds.items ≡ comment_kinds text.now) }
{
    let Some(names) = behind_order(text) else {
        return Ok(Vec::new(alloc));
    };
    match str::from_utf8(text) {
        Ok(_) => named_kinds(alloc, names),
        Err(_) => Ok(Vec::new(alloc)),
    }
}

// What was read of a line.
#[derive(Drop)]
enum LinePart<A: Allocator> {
    // Nothing, and nothing of the file.
    Start,
    // The first byte of a byte order mark.
    MarkFirst,
    // The first two bytes of a byte order mark.
    MarkSecond,
    // White space alone.
    White,
    // A comment, with the bytes behind its `#`.
    Comment(Vec<u8, A>),
    // Something else: the rest of the line is skipped.
    Other,
}

/// Watches the bytes of a file, which come in parts, and keeps the comments that allow kinds of findings.
///
/// A comment is a line that begins with `#`, but for white space. It allows the kinds that it names behind the words
/// `dotenvy_check:` and `allow`; words that name none are passed by. The line `# dotenvy_check: allow tilde` allows
/// `Tilde`. It is kept with its own number: the caller decides for which lines it counts.
///
/// Other lines are skipped from their first byte on, and no more is kept of a file than these comments, and the comment
/// that is being read.
#[derive(Drop)]
pub struct AllowComments<A: Allocator> {
    line: u64,
    part: LinePart<A>,
    found: Vec<AllowComment<A>, A>,
}

// What was read with one more byte of a line of which white space alone was read.
fn begun<A: Allocator>(alloc: A, byte: u8) -> LinePart<A>
    ensures { part_of result ≡ begun byte }
{
    match byte {
        b'#' => LinePart::Comment(Vec::new(alloc)),
        _ if is_white(byte) => LinePart::White,
        _ => LinePart::Other,
    }
}

impl<A: Allocator> LinePart<A> {
    // What was read with one more byte of a line, where more bytes decide whether it is a comment.
    fn after(&self, alloc: A, byte: u8) -> LinePart<A>
        requires { is_open (part_of self.now) ≡ true }
        ensures { part_of result ≡ part_after (part_of self.now) byte }
    {
        match (self, byte) {
            (LinePart::Start, 0xEF) => LinePart::MarkFirst,
            (LinePart::MarkFirst, 0xBB) => LinePart::MarkSecond,
            (LinePart::MarkSecond, 0xBF) => LinePart::White,
            (LinePart::Start | LinePart::White, _) => begun(alloc, byte),
            _ => LinePart::Other,
        }
    }

    // Whether more bytes decide whether the line is a comment.
    fn is_open(&self) -> bool
        ensures { result ≡ is_open (part_of self.now) }
    {
        !matches!(self, LinePart::Comment(_) | LinePart::Other)
    }

    // Keeps the rest of a comment. The rest of another line is skipped.
    fn keep_rest(&mut self, bytes: &[u8]) -> Result<(), AllocError>
        ensures { OnOk result (part_of self.new ≡ with_rest bytes.now (part_of self.old)) }
    {
        match self {
            LinePart::Comment(text) => text.extend_from_slice(bytes),
            _ => Ok(()),
        }
    }

    // The kinds that a line allows of which this was read.
    fn kinds(&self, alloc: A) -> Result<Vec<Kind, A>, AllocError>
        ensures { IfOk result (λ kinds. kinds.items ≡ part_kinds (part_of self.now)) }
    {
        match self {
            LinePart::Comment(text) => comment_kinds(alloc, text.as_slice()),
            _ => Ok(Vec::new(alloc)),
        }
    }
}

impl<A: Allocator + Clone> AllowComments<A> {
    /// A watch that begins with a file.
    pub fn new(alloc: A) -> AllowComments<A>
        ensures { watch_of result ≡ fresh }
    {
        AllowComments {
            line: 1,
            part: LinePart::Start,
            found: Vec::new(alloc),
        }
    }

    // Watches bytes within one line. Most lines are skipped from their first byte on.
    fn watch_line(&mut self, bytes: &[u8]) -> Result<(), AllocError>
        requires { no_line_feed bytes.now ≡ true }
        ensures { OnOk result (watch_of self.new ≡ watched (watch_of self.old) bytes.now) }
    {
        let mut rest = bytes;
        'bytes: while let Some((first, after)) = rest.split_first() {
            if !self.part.is_open() {
                self.part.keep_rest(rest)?;
                return Ok(());
            }
            let alloc = self.found.allocator().clone()?;
            self.part = self.part.after(alloc, *first);
            rest = after;
        }
        Ok(())
    }

    // Keeps the comment on the line that ends here, if it allows any kind.
    fn keep(&mut self) -> Result<(), AllocError>
        ensures { OnOk result (watch_of self.new ≡ with_line (watch_of self.old)) }
    {
        let alloc = self.found.allocator().clone()?;
        let kinds = self.part.kinds(alloc)?;
        if !kinds.is_empty() {
            let line = self.line;
            self.found.push(AllowComment { line, kinds })?;
        }
        Ok(())
    }

    /// Watches the next bytes of the file. They may be cut anywhere.
    pub fn watch(&mut self, bytes: &[u8]) -> Result<(), AllocError>
        ensures { OnOk result (watch_of self.new ≡ watched (watch_of self.old) bytes.now) }
    {
        let mut rest = bytes;
        'lines: while let Some(at) = memchr(b'\n', rest) {
            let (line, back) = rest.split_at(at);
            self.watch_line(line)?;
            self.keep()?;
            self.line = self.line.saturating_add(1);
            self.part = LinePart::White;
            rest = &back[1..];
        }
        self.watch_line(rest)?;
        Ok(())
    }

    /// Ends the watch with the file: its last line needs no line feed.
    pub fn finish(&mut self) -> Result<(), AllocError>
        ensures { OnOk result (watch_of self.new ≡ with_end (watch_of self.old)) }
    {
        self.keep()?;
        self.part = LinePart::Other;
        Ok(())
    }

    /// The comments so far, in the order of the file.
    pub fn found(&self) -> &[AllowComment<A>]
        ensures { map allow_of result.now ≡ (watch_of self.now).found }
    {
        self.found.as_slice()
    }
}

/// Bytes may be cut anywhere: to watch two parts is to watch both in one.
pub fn comment_parts_join()
    ensures { CommentPartsJoin }
{}

/// What a watch finds in a file are its comments that allow kinds.
pub fn finds_comments()
    ensures { FindsComments }
{}

/// Files, and their comments that allow kinds.
pub fn worked_comments()
    ensures { HaveComments }
{}
