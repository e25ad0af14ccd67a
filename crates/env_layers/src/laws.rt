//! Laws of layers, over the definitions that the contracts of this crate cite: each function's contract is one.

ghost use Rattle.env_layers.specs.Laws.{AcceptedExactly, LayersInOrder};

use dotenvy::laws::{loads_take_all, one_reading};
use std::alloc::Allocator;

/// After any calls of `add`, one after another, the environment is that of the closed rules, applied in order to the
/// layers that were accepted.
///
/// Each layer has fewer than 2^32 bytes, and its reader tells them all, and no fault; no call was refused memory.
pub fn layers_in_order<A: Allocator>()
    ensures { LayersInOrder A }
{
    loads_take_all::<A>();
    one_reading();
}

/// A layer is accepted exactly where its closed rule over its bytes and the environment so far answers `Ok`.
///
/// It has fewer than 2^32 bytes, and its reader tells them all, and no fault; the call was not refused memory.
pub fn accepted_exactly<A: Allocator>()
    ensures { AcceptedExactly A }
{
    loads_take_all::<A>();
}
