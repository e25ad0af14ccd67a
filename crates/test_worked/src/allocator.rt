//! The allocator that refuses one request.

use std::alloc::{AllocError, Allocator};
use std::collections::BTreeMap;
use std::test::Fail;
use test_support::Rationed;

fn count_after_one_insertion<A: Allocator + Clone>(alloc: A) -> Result<usize, AllocError> {
    let mut map: BTreeMap<String<A>, String<A>, A> = BTreeMap::new(alloc.clone()?);
    let key = String::from_str(alloc.clone()?, "K")?;
    let value = String::from_str(alloc, "12345")?;
    map.insert(key, value)?;
    Ok(map.len())
}

#[test]
fn refuses_each_request_in_turn(rt: HostRuntime) -> Result<(), Fail> {
    let mut refusals = 0u8;
    for number in 1..20u64 {
        let ration = Rationed::refusing(rt.alloc(), number);
        match count_after_one_insertion(&ration) {
            Ok(count) => {
                assert_eq!(rt; count, 1);
                assert!(rt; !ration.has_refused());
                break;
            }
            Err(_) => {
                assert!(rt; ration.has_refused());
                refusals = refusals.saturating_add(1);
            }
        }
    }
    assert_eq!(rt; refusals, 3);
    Ok(())
}

#[test]
fn passes_on_the_request_after_the_refused_one(rt: HostRuntime) -> Result<(), Fail> {
    let ration = Rationed::refusing(rt.alloc(), 2);
    let first = String::from_str(&ration, "kept")?;
    assert!(rt; !ration.has_refused());
    assert!(rt; String::from_str(&ration, "refused").is_err());
    assert!(rt; ration.has_refused());
    let third = String::from_str(&ration, "kept")?;
    assert!(rt; first.as_str() == third.as_str());
    Ok(())
}
