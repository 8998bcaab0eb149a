use super::*;
use page_walk::Translation;
use vsm_base::{Mask, Vtl};

/// A translation to a page, with all rights.
fn to(page: u64) -> Translation {
    Translation {
        page,
        write: true,
        user: true,
        execute: true,
    }
}

/// What is kept of an address page that leads there, at a level that no mask binds.
fn kept(page: u64) -> Option<Cached> {
    Some(Cached {
        to: to(page),
        mask: None,
    })
}

/// What is kept of one that leads there, with a mask.
fn masked(page: u64, bits: u32) -> Option<Cached> {
    Some(Cached {
        to: to(page),
        mask: Mask::of(bits),
    })
}

#[test]
fn each_level_hits_its_own(rt: HostRuntime) {
    let mut cache = Cache::new();
    assert_eq!(rt; cache.lookup(Vtl::Zero, 5, 2), None);
    cache.fill(Vtl::Zero, 5, 2, to(9), Mask::of(13));
    assert_eq!(rt; cache.lookup(Vtl::One, 5, 2), None);
    cache.fill(Vtl::One, 5, 2, to(10), None);
    assert_eq!(rt; cache.lookup(Vtl::Zero, 5, 2), masked(9, 13));
    assert_eq!(rt; cache.lookup(Vtl::One, 5, 2), kept(10));
}

#[test]
fn address_pages_64_apart_share_a_place(rt: HostRuntime) {
    for level in [Vtl::Zero, Vtl::One] {
        let mut cache = Cache::new();
        cache.fill(level, 63, 0, to(1), None);
        cache.fill(level, 64, 0, to(2), None);
        assert_eq!(rt; cache.lookup(level, 63, 0), kept(1));
        assert_eq!(rt; cache.lookup(level, 127, 0), None);
        cache.fill(level, 127, 0, to(3), None);
        assert_eq!(rt; cache.lookup(level, 63, 0), None);
        assert_eq!(rt; cache.lookup(level, 64, 0), kept(2));
        assert_eq!(rt; cache.lookup(level, 127, 0), kept(3));
    }
}

#[test]
fn a_drop_is_of_one_address_page(rt: HostRuntime) {
    let mut cache = Cache::new();
    cache.fill(Vtl::Zero, 5, 0, to(1), None);
    cache.fill(Vtl::Zero, 6, 0, to(2), None);
    cache.fill(Vtl::One, 5, 0, to(3), None);
    cache.drop_page(Vtl::Zero, 69);
    assert_eq!(rt; cache.lookup(Vtl::Zero, 5, 0), kept(1));
    cache.drop_page(Vtl::Zero, 5);
    assert_eq!(rt; cache.lookup(Vtl::Zero, 5, 0), None);
    assert_eq!(rt; cache.lookup(Vtl::Zero, 6, 0), kept(2));
    assert_eq!(rt; cache.lookup(Vtl::One, 5, 0), kept(3));
    cache.drop_page(Vtl::One, 5);
    assert_eq!(rt; cache.lookup(Vtl::One, 5, 0), None);
}

#[test]
fn a_level_is_dropped_whole_and_alone(rt: HostRuntime) {
    for (level, other) in [(Vtl::Zero, Vtl::One), (Vtl::One, Vtl::Zero)] {
        let mut cache = Cache::new();
        for page in 0..64u64 {
            cache.fill(level, page, 0, to(page), None);
            cache.fill(other, page, 0, to(page + 100), None);
        }
        cache.drop_level(level);
        for page in 0..64u64 {
            assert_eq!(rt; cache.lookup(level, page, 0), None, "page {page}");
            assert_eq!(rt;
                cache.lookup(other, page, 0),
                kept(page + 100),
                "page {page}"
            );
        }
        cache.fill(level, 63, 0, to(7), None);
        assert_eq!(rt; cache.lookup(level, 63, 0), kept(7));
    }
}

#[test]
fn another_generation_isnt_hit(rt: HostRuntime) {
    let mut cache = Cache::new();
    cache.fill(Vtl::Zero, 5, 3, to(1), Mask::of(15));
    assert_eq!(rt; cache.lookup(Vtl::Zero, 5, 2), None);
    assert_eq!(rt; cache.lookup(Vtl::Zero, 5, 4), None);
    assert_eq!(rt; cache.lookup(Vtl::Zero, 5, 3), masked(1, 15));
    cache.fill(Vtl::Zero, 5, 4, to(1), Mask::of(15));
    assert_eq!(rt; cache.lookup(Vtl::Zero, 5, 3), None);
    assert_eq!(rt; cache.lookup(Vtl::Zero, 5, 4), masked(1, 15));
}

#[test]
fn a_later_fill_replaces(rt: HostRuntime) {
    let mut cache = Cache::new();
    cache.fill(Vtl::Zero, 5, 3, to(1), Mask::of(15));
    cache.fill(Vtl::Zero, 5, 3, to(1), Mask::of(1));
    assert_eq!(rt; cache.lookup(Vtl::Zero, 5, 3), masked(1, 1));
    cache.fill(Vtl::Zero, 5, 3, to(2), Mask::of(1));
    assert_eq!(rt; cache.lookup(Vtl::Zero, 5, 3), masked(2, 1));
}
