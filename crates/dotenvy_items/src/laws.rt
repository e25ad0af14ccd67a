//! Laws of items, loads and listings over bytes: what a source tells alone decides.
//!
//! A law is the contract of a function that does nothing; to call one has no effect.

ghost use Rattle.dotenvy_items.specs.Laws.{CutsDoNotMatter, ItemsAsRead, ItemsGoOn, ItemsInOrder, ListsByRule, LoadsAgain, LoadsTakeAll, OneEntryALine, RecallsNames};

use dotenvy_base::source::Sink;
use std::alloc::Allocator;

/// Bytes give no more items than they have physical lines.
pub fn one_entry_a_line()
    ensures { OneEntryALine }
{}

/// A fresh iterator gives the items of what its source tells, all and in order, and then the fault that is told.
///
/// It is asked under one environment until it gives `None`. Before a fault, only whole logical lines give items.
///
/// This holds of fewer than 2^32 bytes, where memory isn't refused and no read is interrupted.
pub fn items_in_order<A: Allocator>()
    ensures { ItemsInOrder A }
{}

/// An iterator that was used before gives the items of what is left.
///
/// A name that the environment lacks means what is remembered of it.
pub fn items_go_on<A: Allocator>()
    ensures { ItemsGoOn A }
{}

/// An iterator gives the items of what it reads, in order, and then its final fault, if it has one.
///
/// The fault comes after all items that are left, if it is the one that is told. Refused memory comes after the first
/// of them, and the bound on reads after those that the bytes read so far decide.
///
/// This holds of every number of bytes, also where memory is refused; no read is interrupted.
pub fn items_as_read<A: Allocator>()
    ensures { ItemsAsRead A }
{}

/// `load` and `load_override` leave and return what their rules say of all that is left, up to the first fault.
///
/// A byte order mark at the front is none of it, and the fault that is told is the last of it.
///
/// There have to be fewer bytes than the reads that may still be made; memory isn't refused, and no read is
/// interrupted.
pub fn loads_take_all<A: Allocator>()
    ensures { LoadsTakeAll A }
{}

/// The same bytes, and the same fault after them, give the same items and the same loads, however reads cut the bytes.
///
/// The items are those of two fresh iterators under one environment, the loads two from one environment.
///
/// This holds of fewer than 2^32 bytes, where memory isn't refused and no read is interrupted.
pub fn cuts_do_not_matter<A: Allocator>()
    ensures { CutsDoNotMatter A }
{}

/// A second `load` of the same bytes changes no value, and returns what the first did.
///
/// This holds of fewer than 2^32 bytes, where memory isn't refused and no read is interrupted.
pub fn loads_again<A: Allocator>()
    ensures { LoadsAgain A }
{}

/// A listing writes what `load` leaves in an empty environment, in the written form and in byte order of the names.
///
/// Where that load has a fault, the listing returns the fault, and writes nothing.
///
/// This holds of fewer than 2^32 bytes, where memory isn't refused and no read is interrupted.
pub fn lists_by_rule<A: Allocator, W: Sink>()
    ensures { ListsByRule A W }
{}

/// What an iterator remembers of an environment is the value of each of its names, in the place of an earlier one.
pub fn recalls_names()
    ensures { RecallsNames }
{}
