//! Searches for a file while memory is refused.

use crate::refused::{is_refused, refuse_in_turn};
use crate::shown::sees_text;
use dotenvy::search::{Look, find};
use std::alloc::{AllocError, Allocator, Global};
use std::path::{Path, PathBuf};
use std::process::Abort;
use std::test::Fail;
use test_support::Rationed;
use test_support::answers::fault;
use test_support::looks::PlayedLooks;

/// A search, and the paths that it asks for, in order.
#[derive(Drop)]
struct Search<'a> {
    directory: &'a str,
    filename: &'a str,
    candidates: &'a [&'a str],
    /// Whether a file stands at the last of them; at the others there is none.
    is_found: bool,
}

impl Search<'_> {
    /// What each of its paths is: at the last one a file, where one is found.
    fn looks(&self, alloc: Global) -> Result<Vec<Look>, AllocError> {
        let mut looks = Vec::new(alloc);
        for _ in self.candidates {
            looks.push(Look::Other)?;
        }
        if self.is_found {
            looks.pop();
            looks.push(Look::File)?;
        }
        Ok(looks)
    }

    /// What it answers where nothing is refused: the last path, or that no file is there.
    fn answer(&self) -> &str {
        match self.candidates.last() {
            Some(last) if self.is_found => last,
            _ => "io NotFound",
        }
    }
}

/// The path that was found, or the fault.
fn found<A: Allocator>(
    alloc: Global,
    answer: dotenvy::Result<PathBuf<A>, A>,
) -> Result<String, AllocError> {
    match answer {
        Ok(path) => String::from_str(alloc, path.as_str()),
        Err(error) => fault(alloc, &error),
    }
}

/// The search asks for its paths in order, for all of them where nothing is refused, and for no other.
fn searches(
    rt: &impl Abort,
    alloc: Global,
    ration: &Rationed<Global>,
    search: &Search,
) -> Result<bool, Fail> {
    let mut looks = PlayedLooks::new(alloc, search.looks(alloc)?);
    let answer = find(
        ration,
        Path::new(search.directory),
        Path::new(search.filename),
        &mut |path| { looks.look(path) },
    );
    let is_refused = is_refused(rt, ration, &answer);
    let found = found(alloc, answer)?;
    let asked = looks.into_asked();
    let (count, wanted) = if is_refused {
        (asked.len(), "memory")
    } else {
        (search.candidates.len(), search.answer())
    };
    let wanted = format!(in alloc; "{:?}: {wanted}", search.candidates.get(..count))?;
    sees_text(
        rt,
        format!(in alloc; "{:?}: {found}", Some(asked))?,
        wanted.as_str(),
    );
    Ok(!is_refused)
}

#[test]
fn find_in_directories(rt: HostRuntime) -> Result<(), Fail> {
    for (directory, filename, candidates, is_found) in [
        (
            "/a/b",
            ".env",
            ["/a/b/.env", "/a/.env", "/.env"].as_slice(),
            true,
        ),
        ("/a/b", ".env", &["/a/b/.env", "/a/.env"], true),
        ("/a/b", ".env", &["/a/b/.env", "/a/.env", "/.env"], false),
        ("/a/b", "/x/.env", &["/x/.env", "/x/.env", "/x/.env"], true),
        ("a", ".env", &["a/.env", ".env"], true),
    ] {
        let search = Search {
            directory,
            filename,
            candidates,
            is_found,
        };
        refuse_in_turn(
            &rt,
            rt.alloc(),
            |ration| searches(&rt, rt.alloc(), ration, &search),
        )?;
    }
    Ok(())
}
