//! The items of a file, for C.

ghost use Rattle.std.specs.Prelude.{◌≡◌, ◌+◌, true, false, IfOk, IfErr, OnOk};
ghost use Rattle.dotenvy.specs.Errors.{IsMemory};
ghost use Rattle.dotenvy_c.specs.Items.{AddsItem, AnswersItemsOr, HasRecords, RefusesItems, refused_items};
ghost use Rattle.dotenvy_c.specs.Options.{are_among, bytes_asked};

use crate::asked::{after_mark, as_asked};
use crate::block::environment_of;
use crate::buffer::write_if;
use crate::options::{AS_WRITTEN, DROP_MARK, NEXT_DIALECT, are_among, dialect_of, has_option};
use crate::places::{Place, standing_on};
use crate::status::{BAD_OPTION, DONE, NO_MEMORY, item_told};
use dotenvy::{Bytes, Error, Iter, Result};
use std::alloc::{AllocError, Global};

const BYTE_ORDER_MARK: [u8; 3] = [0xef, 0xbb, 0xbf];

/// An item of a file: a pair, or an error in its place. Its key and its text are in the buffer for texts, one after
/// the other.
#[repr(C)]
#[derive(Clone, Copy, Drop)]
pub struct Item {
    /// 0 for a pair, or which error.
    pub status: u32,
    /// Where the key begins in the buffer for texts; the text begins after it.
    pub key_at: usize,
    /// How many bytes the key takes: none for an error.
    pub key_len: usize,
    /// How many bytes the text takes: the value of a pair, or the text of an error.
    pub text_len: usize,
    /// The place in the text of a wrong line.
    pub index: usize,
    /// The physical line on which the item begins, counted from 1; 0 for one that is on no line.
    pub first_line: u64,
    /// The physical line on which the item ends.
    pub last_line: u64,
    /// Where the bytes of these lines begin in the file.
    pub file_at: usize,
    /// How many bytes these lines are, with the ends of lines.
    pub file_len: usize,
    /// 0. A later version can tell more here.
    pub reserved: [u64; 2],
}

/// How many items a file has, and how many bytes their keys and texts take.
#[repr(C)]
#[derive(Drop)]
pub struct Counts {
    /// 0, or why there are no items.
    pub status: u32,
    /// Whether the items and their texts were written.
    pub fits: bool,
    /// How many items there are.
    pub items: usize,
    /// How many bytes their keys and texts take together.
    pub text_len: usize,
    /// 0. A later version can tell more here.
    pub reserved: [u64; 2],
}

// The records of items, and their keys and texts one after the other.
#[derive(Drop)]
struct Records {
    items: Vec<Item>,
    text: Vec<u8>,
}

// Nothing was written, for this reason.
fn refused_items(status: u32) -> Counts
    ensures { result ≡ refused_items status }
{
    Counts {
        status,
        fits: false,
        items: 0,
        text_len: 0,
        reserved: [0; 2],
    }
}

// Adds the record of an item that is on these lines, which have this place in the file, and its key and text. The error
// is `Memory`.
fn add_item(
    records: &mut Records,
    item: Result<(String, String)>,
    lines: (u64, u64),
    place: (usize, usize),
) -> Result<()>
    ensures ok { OnOk result (AddsItem item lines place records.old records.new) }
    ensures memory { IfErr result IsMemory }
{
    let Some(told) = item_told(&item) else {
        return Err(Error::Memory(AllocError));
    };
    records.items.push(Item {
        status: told.status,
        key_at: records.text.len(),
        key_len: told.key.len(),
        text_len: told.text.len(),
        index: told.index,
        first_line: lines.0,
        last_line: lines.1,
        file_at: place.0,
        file_len: place.1,
        reserved: [0; 2],
    })?;
    records.text.extend_from_slice(told.key)?;
    records.text.extend_from_slice(told.text)?;
    Ok(())
}

/// The bytes whose items are asked for.
pub fn bytes_of(file: &[u8], options: u32) -> &[u8]
    ensures { result.now ≡ bytes_asked options file.now }
{
    if has_option(options, DROP_MARK) && file.starts_with(&BYTE_ORDER_MARK) {
        &file[BYTE_ORDER_MARK.len()..]
    } else {
        file
    }
}

// The records of all items of a file under the environment of a block. The error is `Memory`.
fn records_of(alloc: Global, file: &[u8], block: &[u8], options: u32) -> Result<Records>
    ensures ok { IfOk result (HasRecords options file.now block.now) }
    ensures memory { IfErr result IsMemory }
{
    let environment = environment_of(alloc, block)?;
    let bytes = bytes_of(file, options);
    let mut items = Iter::with_dialect(alloc, Bytes::new(bytes), dialect_of(options))?;
    let mut place = Place {
        lines: 0,
        rest: file,
    };
    let mut records = Records {
        items: Vec::new(alloc),
        text: Vec::new(alloc),
    };
    'items: while let Some(item) = items.next_item(&environment) {
        let lines = (items.first_line(), items.last_line());
        let standing = standing_on(file, place, lines);
        let asked = as_asked(alloc, item, after_mark(standing.bytes, bytes), options)?;
        add_item(&mut records, asked, lines, (standing.at, standing.len))?;
        place = standing.after;
    }
    Ok(records)
}

// Lists items as `dotenvy_items` does, and tells how many there are.
fn answer_items(
    alloc: Global,
    file: &[u8],
    block: &[u8],
    options: u32,
    items: &mut [Item],
    out: &mut [u8],
) -> Counts
    ensures option { are_among options (NEXT_DIALECT + DROP_MARK + AS_WRITTEN) ≡ false →
        RefusesItems BAD_OPTION result items.old items.new out.old out.new }
    ensures items { are_among options (NEXT_DIALECT + DROP_MARK + AS_WRITTEN) ≡ true →
        AnswersItemsOr NO_MEMORY options file.now block.now result items.old items.new out.old
        out.new }
{
    if !are_among(options, NEXT_DIALECT + DROP_MARK + AS_WRITTEN) {
        return refused_items(BAD_OPTION);
    }
    let Ok(records) = records_of(alloc, file, block, options) else {
        return refused_items(NO_MEMORY);
    };
    let fits = records.items.len() <= items.len() && records.text.len() <= out.len();
    write_if(fits, items, records.items.as_slice());
    write_if(fits, out, records.text.as_slice());
    Counts {
        status: DONE,
        fits,
        items: records.items.len(),
        text_len: records.text.len(),
        reserved: [0; 2],
    }
}

/// Writes the items of a file under the environment of a block: its pairs and its errors, in order. A name that a value
/// mentions means its value in the block, else the last one declared before it (docs/GRAMMAR.md, "What a name means").
/// With `AS_WRITTEN` the value of a pair has each name as it is written.
///
/// Where `items` is too short for all of them, or `out` for their keys and texts, nothing is written, and the counts
/// tell how long both have to be.
///
/// The counts are written to `counts`, and their status is returned, too.
///
/// With `DROP_MARK` the bytes are those without an opening byte order mark. None of the items is refused memory. An
/// item that is on no line has no bytes, at 0.
///
/// ```
/// // of `A=1\nB=$A\n` these are A with 1, and B with 1, or with `AS_WRITTEN` with `$A`; B is on the 5 bytes from 4 on
/// ```
#[unsafe(no_mangle)]
pub extern "C" fn dotenvy_items(
    alloc: Global,
    file: &[u8],
    block: &[u8],
    options: u32,
    counts: &mut Counts,
    items: &mut [Item],
    out: &mut [u8],
) -> u32
    ensures option { are_among options (NEXT_DIALECT + DROP_MARK + AS_WRITTEN) ≡ false →
        RefusesItems BAD_OPTION counts.new items.old items.new out.old out.new }
    ensures items { are_among options (NEXT_DIALECT + DROP_MARK + AS_WRITTEN) ≡ true →
        AnswersItemsOr NO_MEMORY options file.now block.now counts.new items.old items.new out.old
        out.new }
    ensures status { result ≡ counts.new.status }
{
    let told = answer_items(alloc, file, block, options, items, out);
    let status = told.status;
    *counts = told;
    status
}
