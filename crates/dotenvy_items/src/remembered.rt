//! The values that an iterator remembers. They are in a hash map, and no result depends on the order of a walk through
//! it.
ghost use Rattle.std.specs.Prelude.{◌≡◌, OnOk, OnErr, option_copied, option_map, string_bytes};
ghost use Rattle.std.specs.FinMap as fin;
ghost use Rattle.dotenvy_items.specs.Remembered.{remembered_of, recalled, with_values};

use dotenvy_base::environment::Environment;
use std::alloc::{AllocError, Allocator};
use std::collections::HashMap;
use std::hash::{BuildHasherDefault, FoldHasher};

/// The last value of each key that was declared, and `None` where nothing was assigned to it.
pub type Remembered<A> = HashMap<String<A>, Option<String<A>>, BuildHasherDefault<FoldHasher>, A>;

/// The remembered text of a name.
#[tactic(auto, using(crate::proofs::RememberedMaps::remembered_maps))]
pub(crate) fn recall<'a, A: Allocator>(remembered: &'a Remembered<A>, name: &str) -> Option<&'a str>
    ensures { option_copied result ≡ recalled (remembered_of remembered.now.entries) name.now }
{
    match remembered.get(name) {
        Some(Some(value)) => Some(value.as_str()),
        Some(None) => None,
        None => None,
    }
}

/// Remembers the value of a key in the place of an earlier one.
#[tactic(auto, using(crate::proofs::RememberedMaps::remembered_maps))]
pub(crate) fn remember<A: Allocator + Clone>(
    remembered: &mut Remembered<A>,
    key: String<A>,
    value: Option<String<A>>,
) -> Result<(), AllocError>
    ensures ok { OnOk result (remembered_of remembered.new.entries
        ≡ fin.insert (remembered_of remembered.old.entries) (string_bytes key)
        (option_map string_bytes value)) }
    ensures same { OnErr result (remembered.new.entries ≡ remembered.old.entries) }
{
    remembered.insert(key, value)?;
    Ok(())
}

/// Remembers the values of an environment, each in the place of an earlier one.
pub(crate) fn remember_all<A: Allocator + Clone>(
    alloc: &A,
    remembered: &mut Remembered<A>,
    env: &Environment<A>,
) -> Result<(), AllocError>
    ensures { OnOk result (remembered_of remembered.new.entries
        ≡ with_values (fin.entries env.now.names) (remembered_of remembered.old.entries)) }
{
    'names: for (name, value) in env.iter() {
        let name = String::from_str(alloc.clone()?, name.as_str())?;
        let value = String::from_str(alloc.clone()?, value.as_str())?;
        remember(remembered, name, Some(value))?;
    }
    Ok(())
}
