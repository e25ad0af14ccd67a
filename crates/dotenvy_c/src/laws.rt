//! The laws of blocks, and of what C is told.
//!
//! A law is the contract of a function that does nothing; to call one has no effect.

ghost use Rattle.dotenvy_c.specs.Laws.{BlockReadsBack, ItemsAreTold, LoadsAreTold};

/// The block of an environment stands for that environment: no name is lost, and none is added. So the block that one
/// load writes is what the next one can take.
pub fn block_reads_back()
    ensures { BlockReadsBack }
{}

/// What `dotenvy_items` tells of a file is what the file format says: of each pair and each fault, in order, and of
/// nothing else. This holds of fewer than 2^32 bytes.
pub fn items_are_told()
    ensures { ItemsAreTold }
{}

/// What `dotenvy_load` leaves and tells is what the file format says: the value of each name, and the error at which
/// the load stops, if it stops. This holds of fewer than 2^32 bytes.
pub fn loads_are_told()
    ensures { LoadsAreTold }
{}
