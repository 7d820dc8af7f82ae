//! A cache of two entries, as a book tells it what happens.

use auth_cache::{AuthCache, Held, Removal};
use auth_events::Gift;
use std::process::Abort;
use std::test::Fail;

/// The first gift of the space, with terms of the space's number.
fn held(space: u32) -> Held {
    Held {
        gift: Gift { space, ordinal: 1 },
        terms: space,
    }
}

#[test]
fn the_one_not_touched_for_longest_goes(rt: HostRuntime) -> Result<(), Fail> {
    let mut cache = AuthCache::new(2);
    for (space, touched, goes) in [
        (1, 0, None),
        (2, 1, None),
        (3, 3, Some(held(2))),
        (1, 0, None),
        (4, 4, Some(held(3))),
    ] {
        assert_eq!(rt; cache.outgoing(space), goes);
        assert_eq!(rt; cache.put(held(space).gift, space), goes);
        assert_eq!(rt; cache.get(space), Some(held(space)));
        cache.touch(touched);
    }
    assert_eq!(rt; cache.get(3), None);
    Ok(())
}

#[test]
fn only_the_gift_that_is_held_goes(rt: HostRuntime) -> Result<(), Fail> {
    let mut cache = AuthCache::new(32);
    let gift = Gift {
        space: 1,
        ordinal: 1,
    };
    cache.put(gift, 7);
    assert_eq!(rt; cache.set_terms(1, 1), 7);
    for (space, ordinal, wanted) in [
        (1, 2, Removal::Kept { ordinal: 1 }),
        (2, 1, Removal::Kept { ordinal: 0 }),
        (1, 1, Removal::Removed(held(1))),
        (1, 1, Removal::Kept { ordinal: 0 }),
    ] {
        assert_eq!(rt; cache.remove_if(Gift { space, ordinal }), wanted);
    }
    Ok(())
}
