use rv_mem::{FullMem, Mem, OutOfMemory, PartMem, Ram, Seen, Words};
use std::alloc::Global;
use std::process::Abort;
use std::test::Fail;
use test_rows::Row;

const LOW: u32 = 0x8000_0000;

/// RAM of two words at LOW and three at 0x1000.
fn small_ram(alloc: Global) -> Result<Ram, OutOfMemory> {
    Ok(Ram::new(vec![in alloc; (LOW, 0x8000_0008), (0x1000, 0x100C)]?))
}

/// What is seen at some addresses, by the bound alone.
fn assert_seen<M: Words>(rt: &impl Abort, m: &M, rows: &[(u32, Seen)]) {
    for (a, want) in rows {
        assert_eq!(rt; *a % 4, 0);
        assert_eq!(rt; m.word(*a), *want, "at {a:#x}");
    }
}

/// Stores a byte, by the bound alone, where the word is known.
fn store<M: Mem>(rt: &impl Abort, m: &mut M, a: u32, v: u8) {
    let known = matches!(m.word(a - a % 4), Seen::Known(_));
    assert!(rt; known, "no word at {a:#x}");
    m.set_byte(a, v);
}

#[test]
fn ram_has_its_regions(rt: HostRuntime) {
    let ram = small_ram(rt.alloc()).expect(&rt, "memory");
    let want = [(LOW, 0x8000_0008), (0x1000, 0x100C)];
    assert_eq!(rt; ram.as_slice(), want.as_slice());
    let copy = ram.copy(rt.alloc()).expect(&rt, "memory");
    assert_eq!(rt; copy.as_slice(), want.as_slice());
}

/// An address, and whether the small RAM has a word there.
const ADDRESSES: &str = "\
0 no
ffc no
1000 yes
1008 yes
100c no
7ffffffc no
80000000 yes
80000004 yes
80000008 no
fffffffc no";

fn assert_address(rt: &impl Abort, ram: &Ram, line: &str) -> Result<(), Fail> {
    let mut row = Row::of(line);
    let a = row.number()?;
    assert_eq!(rt; a % 4, 0, "{line}");
    assert_eq!(rt; ram.has_word(a), row.answer()?, "{line}");
    Ok(())
}

#[test]
fn ram_has_the_words_of_its_regions(rt: HostRuntime) -> Result<(), Fail> {
    let ram = small_ram(rt.alloc()).expect(&rt, "memory");
    for line in ADDRESSES.lines() {
        assert_address(&rt, &ram, line)?;
    }
    Ok(())
}

#[test]
fn a_full_memory_knows_each_word(rt: HostRuntime) {
    let ram = small_ram(rt.alloc()).expect(&rt, "memory");
    let mut m = FullMem::new(rt.alloc(), &ram, 0x1234_5678).expect(&rt, "memory");
    let fill = Seen::Known(0x1234_5678);
    let all = [
        (0xFFC, Seen::Vacant),
        (0x1000, fill),
        (0x1008, fill),
        (0x100C, Seen::Vacant),
        (LOW, fill),
        (0x8000_0008, Seen::Vacant),
    ];
    assert_seen(&rt, &m, &all);
    let there = !matches!(m.word(0x1004), Seen::Vacant);
    assert!(rt; there);
    m.put(0x1004, 0xFFFF_FFFF);
    store(&rt, &mut m, 0x8000_0006, 0xAB);
    store(&rt, &mut m, 0x1004, 0);
    let then = [
        (0x1000, fill),
        (0x1004, Seen::Known(0xFFFF_FF00)),
        (0x1008, fill),
        (LOW, fill),
        (0x8000_0004, Seen::Known(0x12AB_5678)),
    ];
    assert_seen(&rt, &m, &then);
}

/// Puts a word where RAM has one.
fn put(rt: &impl Abort, m: &mut PartMem, a: u32, w: u32) {
    assert_eq!(rt; a % 4, 0);
    let there = !matches!(m.word(a), Seen::Vacant);
    assert!(rt; there);
    m.put(a, w).expect(rt, "memory");
}

/// Forgets a word where RAM has one.
fn forget(rt: &impl Abort, m: &mut PartMem, a: u32) {
    assert_eq!(rt; a % 4, 0);
    let there = !matches!(m.word(a), Seen::Vacant);
    assert!(rt; there);
    m.forget(a);
}

#[test]
fn a_partial_memory_knows_nothing_yet(rt: HostRuntime) {
    let ram = small_ram(rt.alloc()).expect(&rt, "memory");
    let m = PartMem::new(rt.alloc(), &ram).expect(&rt, "memory");
    let none = [
        (0xFFC, Seen::Vacant),
        (0x1000, Seen::Untouched),
        (0x1008, Seen::Untouched),
        (0x100C, Seen::Vacant),
        (LOW, Seen::Untouched),
        (0x8000_0008, Seen::Vacant),
    ];
    assert_seen(&rt, &m, &none);
}

#[test]
fn a_partial_memory_knows_what_was_put(rt: HostRuntime) {
    let ram = small_ram(rt.alloc()).expect(&rt, "memory");
    let mut m = PartMem::new(rt.alloc(), &ram).expect(&rt, "memory");
    put(&rt, &mut m, LOW, 1);
    put(&rt, &mut m, 0x1008, 0x8899_AABB);
    put(&rt, &mut m, 0x1000, 7);
    store(&rt, &mut m, 0x100B, 0x11);
    store(&rt, &mut m, 0x1009, 0xEE);
    forget(&rt, &mut m, LOW);
    let then = [
        (0x1000, Seen::Known(7)),
        (0x1004, Seen::Untouched),
        (0x1008, Seen::Known(0x1199_EEBB)),
        (LOW, Seen::Untouched),
        (0x8000_0004, Seen::Untouched),
    ];
    assert_seen(&rt, &m, &then);
}
