//! How many bytes of memory values, listings and written pairs take: as many as they have.

use dotenvy::{Bytes, Dialect, Environment, Iter, Plain, is_key, list_with, write_pair};
use linked_list_allocator::LocalHeap;
use std::alloc::{Allocator, Global};
use std::io;
use std::io::Write;
use std::process::Abort;
use std::test::Fail;
use test_support::notation::bytes;

/// Takes all that it is given, and sees how many bytes of a heap are in use then.
#[derive(Drop)]
struct Watching<'a> {
    heap: &'a LocalHeap,
    in_use: usize,
}

impl<'a> Watching<'a> {
    fn new(heap: &'a LocalHeap) -> Plain<Watching<'a>> {
        Plain::new(Watching { heap, in_use: 0 })
    }
}

impl Write for Watching<'_> {
    fn write(&mut self, buf: &[u8]) -> io::Result<usize> {
        self.in_use = self.heap.used();
        Ok(buf.len())
    }

    fn flush(&mut self) -> io::Result<()> {
        Ok(())
    }
}

/// Sees that a text has room for itself alone.
fn sees_no_more_room<A: Allocator>(rt: &impl Abort, text: &String<A>) {
    assert_eq!(rt; text.capacity(), text.len(), "{text}");
}

/// Values that are written as they are, in quotes, by escapes, by names, and not at all.
const FILE: &str =
    "A=%(100*x)%0aB=$A$A${A}y%0aC=\"${A} ${B}\"%0aD='%(50*y)'%0aE=\\ \\$%(20*z)%0aF=\"\\n\"%0aG=%0aH=$N%0a";

#[test]
fn values_of_items_take_their_length(rt: HostRuntime) -> std::result::Result<(), Fail> {
    let alloc = rt.alloc();
    let file = bytes(alloc, FILE)?;
    let environment = Environment::new(alloc);
    for dialect in [Dialect::V15, Dialect::Next] {
        let mut entries = Iter::with_dialect(alloc, Bytes::new(&file), dialect)?;
        let mut count = 0u8;
        for item in entries.items(&environment) {
            let (key, value) = item?;
            sees_no_more_room(&rt, &key);
            sees_no_more_room(&rt, &value);
            count = count.saturating_add(1);
        }
        assert_eq!(rt; count, 8);
    }
    Ok(())
}

/// Loads the file into an environment, by `load_override` where values are to be replaced.
fn loaded(
    alloc: Global,
    dialect: Dialect,
    replaces: bool,
) -> std::result::Result<Environment, Fail> {
    let file = bytes(alloc, FILE)?;
    let mut environment = Environment::new(alloc);
    let entries = Iter::with_dialect(alloc, Bytes::new(&file), dialect)?;
    if replaces {
        entries.load_override(&mut environment)?;
    } else {
        entries.load(&mut environment)?;
    }
    Ok(environment)
}

#[test]
fn values_of_loads_take_their_length(rt: HostRuntime) -> std::result::Result<(), Fail> {
    for dialect in [Dialect::V15, Dialect::Next] {
        for replaces in [false, true] {
            let environment = loaded(rt.alloc(), dialect, replaces)?;
            assert_eq!(rt; environment.len(), 8);
            for (name, value) in &environment {
                sees_no_more_room(&rt, name);
                sees_no_more_room(&rt, value);
            }
        }
    }
    Ok(())
}

/// How many bytes are in use when a listing is written, whose last value has so many times 16 bytes. Its longest line
/// comes first, so that only this value and what is written of it take more where there are more.
fn in_use_of_a_listing(
    alloc: Global,
    dialect: Dialect,
    times: usize,
) -> std::result::Result<usize, Fail> {
    let written = format!(in alloc; "Z=%(2000*z)%0aA=%(16*x)%0aB=%({times}*$A)")?;
    let file = bytes(alloc, written.as_str())?;
    let heap = LocalHeap::new(alloc, 100_000)?;
    let mut writer = Watching::new(&heap);
    list_with(&heap, Bytes::new(&file), &mut writer, dialect)?;
    Ok(writer.into_inner().in_use)
}

#[test]
fn a_listing_takes_its_length(rt: HostRuntime) -> std::result::Result<(), Fail> {
    for dialect in [Dialect::V15, Dialect::Next] {
        let few = in_use_of_a_listing(rt.alloc(), dialect, 100)?;
        let many = in_use_of_a_listing(rt.alloc(), dialect, 900)?;
        let of_the_value = 800 * 16;
        assert_eq!(rt; many.checked_sub(few), Some(of_the_value + of_the_value));
    }
    Ok(())
}

/// How many bytes are in use when a pair of this text is written.
fn in_use_of_a_pair(alloc: Global, text: &str) -> std::result::Result<usize, Fail> {
    let key = "K";
    if !is_key(key) {
        return Err(Fail::from("no key"));
    }
    let heap = LocalHeap::new(alloc, 100_000)?;
    let mut writer = Watching::new(&heap);
    write_pair(&heap, &mut writer, key, text)?;
    Ok(writer.into_inner().in_use)
}

#[test]
fn a_written_pair_takes_its_length(rt: HostRuntime) -> std::result::Result<(), Fail> {
    let alloc = rt.alloc();
    for (text, in_use) in [("x", 16_016), ("\"", 32_016), ("\u{e9}", 32_016)] {
        let text = text.repeat(alloc, 16_000)?;
        assert_eq!(rt; in_use_of_a_pair(alloc, text.as_str())?, in_use);
    }
    Ok(())
}
