use data_bytes::{DataAccess, DataBytes, data_bytes, misaligned};
use dom_set::Set;
use foot_map::FootMap;
use rv_mem::{PartMem, Ram};
use rv_script::Role;
use std::alloc::Global;
use std::process::Abort;

/// RAM of two frames, of which the second is the pool. Its first word is known, one of the first frame too; hart 1 stored a
/// byte of that one, and hart 0 stands at the second word of the pool.
fn bytes_of(rt: &impl Abort, alloc: Global) -> DataBytes {
    let mut regions = Vec::new(alloc);
    regions
        .push((0x8000_0000, 0x8000_2000))
        .expect(rt, "a region");
    let mut mem = PartMem::new(alloc, &Ram::new(regions)).expect(rt, "memory");
    mem.put(0x8000_0010, 7).expect(rt, "a word");
    mem.put(0x8000_1000, 8).expect(rt, "a word");
    let mut feet = FootMap::new(alloc);
    feet.add(1, Role::Store, 0x8000_0011, 1)
        .expect(rt, "a byte");
    data_bytes(alloc, &mem, &feet, 0, &[0x8000_1000], 0x8000_1004).expect(rt, "bytes")
}

/// Whether the set has just these of six addresses: of the known words, of the word at the pc, of the pool's untouched words,
/// of RAM outside of the pool, and outside of RAM.
fn assert_has(rt: &impl Abort, set: &Set, wanted: [bool; 6]) {
    let addresses = [
        0x8000_0010,
        0x8000_1000,
        0x8000_1004,
        0x8000_1008,
        0x8000_0020,
        0x8000_2000,
    ];
    for i in 0..6 {
        assert_eq!(rt; set.has(addresses[i]), wanted[i]);
    }
}

#[test]
fn bytes_are_told_by_what_an_access_may_do_with_them(rt: HostRuntime) {
    let bytes = bytes_of(&rt, rt.alloc());
    assert_has(&rt, &bytes.known, [true, true, false, false, false, false]);
    assert_has(&rt, &bytes.fresh, [false, false, false, true, false, false]);
    assert_has(
        &rt,
        &bytes.outside,
        [false, false, false, false, false, true],
    );
    assert_eq!(rt; bytes.known.size(), 8);
    assert_eq!(rt; bytes.fresh.size(), 4096 - 8);
}

#[test]
fn accesses_keep_apart_by_bytes(rt: HostRuntime) {
    let alloc = rt.alloc();
    let bytes = bytes_of(&rt, alloc);
    let words = bytes
        .known_starts(alloc, 4, DataAccess::Load)
        .expect(&rt, "starts");
    assert_has(&rt, &words, [false, true, false, false, false, false]);
    let halves = bytes
        .known_starts(alloc, 2, DataAccess::Load)
        .expect(&rt, "starts");
    assert_eq!(rt; halves.has(0x8000_0010), false);
    assert_eq!(rt; halves.has(0x8000_0012), true);
    let stored = bytes
        .known_starts(alloc, 1, DataAccess::Store)
        .expect(&rt, "starts");
    assert_eq!(rt; stored.size(), 7);
}

#[test]
fn new_words_and_faults_have_their_addresses(rt: HostRuntime) {
    let alloc = rt.alloc();
    let bytes = bytes_of(&rt, alloc);
    let fresh = bytes
        .fresh_starts(alloc, 4, DataAccess::Store)
        .expect(&rt, "starts");
    assert_has(&rt, &fresh, [false, false, false, true, false, false]);
    assert_eq!(rt; fresh.size(), 1024 - 2);
    let outside = bytes.outside_starts(alloc, 2).expect(&rt, "starts");
    assert_eq!(rt; outside.size(), 0x8000_0000 - 0x1000);
    assert_eq!(rt;
        misaligned(alloc, 4).expect(&rt, "addresses").size(),
        0xc000_0000
    );
    assert_eq!(rt;
        misaligned(alloc, 1).expect(&rt, "addresses").is_empty(),
        true
    );
}
