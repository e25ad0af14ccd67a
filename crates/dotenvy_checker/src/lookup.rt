//! What was seen in the bytes of a file, looked up for one finding after another: the comment above it, and the byte
//! that is no text.

ghost use Rattle.std.specs.Prelude.{◌≡◌, ◌-◌, OnOk, drop, length, map};
ghost use Rattle.dotenvy_findings.specs.Comments.{allow_of};
ghost use Rattle.dotenvy_checker.specs.Findings.{bad_from, comments_from};
ghost use Rattle.dotenvy_checker.specs.inside.CheckedLines.{allow_comments, bad_bytes};
ghost use Rattle.dotenvy_checker.specs.inside.ToldLines.{above_of, kinds_on, next_above, IsAtStart};

use crate::report::{LineAbove, comments_from};
use crate::watched::Seen;
use dotenvy_findings::bytes::BadByte;
use dotenvy_findings::comments::AllowComment;
use dotenvy_findings::kind::Kind;
use std::alloc::{AllocError, Allocator};

// What is left of these after the first so many.
#[tactic(auto, using(std::proofs::lemmas::List::drop_all))]
fn items_after<T>(items: &[T], count: usize) -> &[T]
    ensures { result.now ≡ drop count items.now }
{
    match items.split_at_checked(count) {
        Some((_, rest)) => rest,
        None => &[],
    }
}

// The bytes that are no text, from this line on.
fn bad_from(line: u64, bad: &[BadByte]) -> &[BadByte]
    ensures { result.now ≡ bad_from line bad.now }
{
    let mut rest = bad;
    'bytes: while let Some((first, after)) = rest.split_first() {
        if first.place.line >= line {
            return rest;
        }
        rest = after;
    }
    rest
}

// The kinds that the first of these comments allows, if it is on this line.
fn kinds_on<A: Allocator>(line: u64, comments: &[AllowComment<A>]) -> &[Kind]
    ensures { result.now ≡ kinds_on line (map allow_of comments.now) }
{
    match comments.first() {
        Some(first) if first.line == line => first.kinds.as_slice(),
        _ => &[],
    }
}

/// Looks up, for findings in the order of a file, which kinds the comment above each allows, and where its line is no
/// text.
#[derive(Drop)]
pub(crate) struct Lookup<A: Allocator> {
    /// The last line above a finding.
    pub(crate) above: LineAbove<A>,
    // How many of the comments, and of the bytes that are no text, are before the lines that were asked for.
    comments_before: usize,
    bad_before: usize,
}

impl<A: Allocator + Clone> Lookup<A> {
    /// Begins with a file.
    pub(crate) fn new(alloc: A) -> Lookup<A>
        ensures { IsAtStart result }
    {
        Lookup {
            above: LineAbove {
                line: 0,
                kinds: Vec::new(alloc),
            },
            comments_before: 0,
            bad_before: 0,
        }
    }

    /// Moves on to what is found below this line, unless it comes before the last one. Of the comments that were seen,
    /// the one on it counts. What it allows is kept, so that a comment that is read later changes nothing.
    #[tactic(auto, using(crate::proofs::Lookups::next_stays, crate::proofs::Lookups::next_moves))]
    pub(crate) fn move_below(&mut self, line: u64, seen: &Seen<A>) -> Result<(), AllocError>
        ensures moves { OnOk result (above_of self.new.above ≡ next_above line
            (drop self.old.comments_before (allow_comments seen.now)) (above_of self.old.above)) }
        ensures bad { self.new.bad_before ≡ self.old.bad_before }
    {
        if line <= self.above.line {
            return Ok(());
        }
        let kinds = kinds_on(line, self.comments_at(line, seen));
        self.above.line = line;
        self.above.kinds.clear();
        self.above.kinds.extend_from_slice(kinds)?;
        Ok(())
    }

    // The comments that were seen, from this line on. Those before it are not looked at again.
    #[tactic(auto, using(crate::proofs::Lookups::seen_comments))]
    fn comments_at<'s>(&mut self, line: u64, seen: &'s Seen<A>) -> &'s [AllowComment<A>]
        ensures comments { map allow_of result.now
            ≡ comments_from line (drop self.old.comments_before (allow_comments seen.now)) }
        ensures before { self.new.comments_before
            ≡ length (allow_comments seen.now) - length result.now }
        ensures above { self.new.above ≡ self.old.above }
        ensures bad { self.new.bad_before ≡ self.old.bad_before }
    {
        let found = seen.comments.found();
        let comments = comments_from(line, items_after(found, self.comments_before));
        self.comments_before = found.len().saturating_sub(comments.len());
        comments
    }

    /// The bytes that were seen and are no text, from this line on. Those before it are not looked at again.
    pub(crate) fn bad_at<'s>(&mut self, line: u64, seen: &'s Seen<A>) -> &'s [BadByte]
        ensures bad { result.now ≡ bad_from line (drop self.old.bad_before (bad_bytes seen.now)) }
        ensures before { self.new.bad_before
            ≡ length (bad_bytes seen.now) - length result.now }
        ensures above { self.new.above ≡ self.old.above }
        ensures comments { self.new.comments_before ≡ self.old.comments_before }
    {
        let found = seen.bad.found();
        let bad = bad_from(line, items_after(found, self.bad_before));
        self.bad_before = found.len().saturating_sub(bad.len());
        bad
    }
}
