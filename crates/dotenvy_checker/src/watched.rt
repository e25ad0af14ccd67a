//! A source that is watched for bytes that are no text, and for comments that allow kinds of findings.

ghost use Rattle.std.specs.Prelude.{◌≡◌, ◌≢◌, ◌≤◌, None, IfOk, OnErr, OnOk, length};
ghost use Rattle.dotenvy_base.specs.Calls.{TellsCall, call_of};
ghost use Rattle.dotenvy_base.specs.Source.{ReadsAhead};
ghost use Rattle.dotenvy_findings.specs.Bytes as no_text;
ghost use Rattle.dotenvy_findings.specs.Comments as allowing;
ghost use Rattle.dotenvy_checker.specs.inside.WatchedReads.{allowing_given, allowing_read, no_text_given, no_text_read};

use dotenvy::Source;
use dotenvy_findings::bytes::BadBytes;
use dotenvy_findings::comments::AllowComments;
use std::alloc::{AllocError, Allocator};
use std::io;

/// What was seen in the bytes of a file that were read so far.
#[derive(Drop)]
pub(crate) struct Seen<A: Allocator> {
    /// The bytes that are no text.
    pub(crate) bad: BadBytes<A>,
    /// The comments that allow kinds of findings.
    pub(crate) comments: AllowComments<A>,
}

/// A source whose bytes are watched, as they are read, for those that are no text, and for comments that allow kinds
/// of findings.
///
/// ```text
/// let file = Iter::new(alloc, Watched::new(alloc, reader)?)?;
/// ```
#[derive(Drop)]
pub struct Watched<R, A: Allocator> {
    inner: R,
    seen: Seen<A>,
    // Whether memory for what was seen was refused.
    refused: Option<AllocError>,
}

impl<A: Allocator + Clone> Seen<A> {
    // Watches the next bytes of the file.
    fn watch(&mut self, bytes: &[u8]) -> Result<(), AllocError>
        ensures bad { OnOk result (no_text.watch_of self.new.bad
            ≡ no_text.watched (no_text.watch_of self.old.bad) bytes.now) }
        ensures comments { OnOk result (allowing.watch_of self.new.comments
            ≡ allowing.watched (allowing.watch_of self.old.comments) bytes.now) }
    {
        self.bad.watch(bytes)?;
        self.comments.watch(bytes)
    }

    // Ends the watch with the file.
    fn finish(&mut self) -> Result<(), AllocError>
        ensures bad { OnOk result
            (no_text.watch_of self.new.bad ≡ no_text.with_end (no_text.watch_of self.old.bad)) }
        ensures comments { OnOk result (allowing.watch_of self.new.comments
            ≡ allowing.with_end (allowing.watch_of self.old.comments)) }
    {
        self.bad.finish()?;
        self.comments.finish()
    }

    // Watches what a read gave: bytes, or the end of the file, unless nothing was asked for.
    fn read(&mut self, bytes: &[u8], asks_nothing: bool) -> Result<(), AllocError>
        ensures bad { OnOk result (no_text.watch_of self.new.bad
            ≡ no_text_given (no_text.watch_of self.old.bad) asks_nothing bytes.now) }
        ensures comments { OnOk result (allowing.watch_of self.new.comments
            ≡ allowing_given (allowing.watch_of self.old.comments) asks_nothing bytes.now) }
    {
        if bytes.is_empty() && !asks_nothing {
            self.finish()
        } else {
            self.watch(bytes)
        }
    }
}

impl<R: Source, A: Allocator + Clone> Watched<R, A> {
    /// Watches this source, of which nothing is read yet.
    pub fn new(alloc: A, inner: R) -> Result<Watched<R, A>, AllocError>
    where
        R: Drop,
        ensures { IfOk result (λ watched. R.told watched.inner ≡ R.told inner) }
    {
        let seen = Seen {
            bad: BadBytes::new(alloc.clone()?),
            comments: AllowComments::new(alloc),
        };
        Ok(Watched {
            inner,
            seen,
            refused: None,
        })
    }

    /// What was seen in all that was read. The error says that memory for it was refused.
    pub(crate) fn seen(&self) -> Result<&Seen<A>, AllocError>
        ensures ok { IfOk result (λ seen. (self.now.refused ≡ None) × (seen.now ≡ self.now.seen)) }
        ensures err { OnErr result (self.now.refused ≢ None) }
    {
        match self.refused {
            Some(refused) => Err(refused),
            None => Ok(&self.seen),
        }
    }
}

impl<R: Source, A: Allocator + Clone> Source for Watched<R, A> {
    ghost told = { λ s. R.told s.inner };

    fn read_some(&mut self, buf: &mut [u8]) -> io::Result<usize>
        ensures bound { IfOk result (λ n. n ≤ length buf.new) }
        ensures bytes { ReadsAhead (R.told self.old.inner).ahead (R.told self.new.inner).ahead
            result buf.new }
        ensures calls { TellsCall (R.told self.old.inner).calls (R.told self.new.inner).calls
            (call_of (length buf.old) result) }
        ensures same { (R.told self.new.inner).references ≡ (R.told self.old.inner).references }

        // What is read is watched, and so is the end of the file, unless memory was refused.
        ensures bad { IfOk result (λ n. self.new.refused ≡ None →
            no_text.watch_of self.new.seen.bad
            ≡ no_text_read (no_text.watch_of self.old.seen.bad) n buf.new) }
        ensures comments { IfOk result (λ n. self.new.refused ≡ None →
            allowing.watch_of self.new.seen.comments
            ≡ allowing_read (allowing.watch_of self.old.seen.comments) n buf.new) }
    {
        let n = self.inner.read_some(buf)?;
        if let Some(bytes) = buf.get(..n) {
            if let Err(refused) = self.seen.read(bytes, buf.is_empty()) {
                self.refused = Some(refused);
            }
        }
        Ok(n)
    }
}
