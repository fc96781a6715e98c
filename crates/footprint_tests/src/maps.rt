use foot_map::{Clash, FootMap, OutOfMemory};
use rv_script::Role;
use std::alloc::Global;
use std::process::Abort;

const ROLES: [Role; 4] = [Role::Fetch, Role::Walk, Role::Load, Role::Store];

fn assert_clash(rt: &impl Abort, clash: Option<Clash>, byte: u32, hart: u8, role: Role) {
    assert_eq!(rt; clash, Some(Clash { byte, hart, role }));
}

fn assert_free(rt: &impl Abort, clash: Option<Clash>) {
    assert_eq!(rt; clash, None);
}

fn assert_mask(rt: &impl Abort, answer: Result<u8, OutOfMemory>, mask: u8) {
    assert_eq!(rt; answer, Ok(mask));
}

#[test]
fn a_stored_byte_is_seen_by_no_other_hart(rt: HostRuntime) {
    let mut map = FootMap::new(rt.alloc());
    assert_mask(&rt, map.add(0, Role::Store, 0x8000_0800, 1), 1);
    assert_mask(&rt, map.add(0, Role::Store, 0x8000_0800, 1), 0);
    assert_clash(
        &rt,
        map.may(1, Role::Load, 0x8000_0800, 4),
        0x8000_0800,
        0,
        Role::Store,
    );
    assert_free(&rt, map.may(1, Role::Load, 0x8000_0801, 1));
    assert_free(&rt, map.may(0, Role::Load, 0x8000_0800, 4));
    assert_clash(
        &rt,
        map.may(0, Role::Fetch, 0x8000_0800, 4),
        0x8000_0800,
        0,
        Role::Store,
    );
}

/// Which roles of the first hart and then of the second may share a byte, of one hart and of two.
const TABLE: [[(bool, bool); 4]; 4] = [
    [(true, true), (true, true), (true, true), (false, false)],
    [(true, true), (true, true), (true, true), (false, false)],
    [(true, true), (true, true), (true, true), (true, false)],
    [(false, false), (false, false), (true, false), (true, false)],
];

fn assert_pair(rt: &impl Abort, alloc: Global, one: Role, other: Role, row: (bool, bool)) {
    let mut map = FootMap::new(alloc);
    assert_mask(rt, map.add(3, one, 0x1000, 2), 3);
    assert_eq!(rt; map.may(3, other, 0x1001, 1).is_none(), row.0);
    assert_eq!(rt; map.may(2, other, 0x1001, 1).is_none(), row.1);
    assert_free(rt, map.may(2, other, 0x1002, 2));
}

#[test]
fn each_pair_of_roles_is_in_the_table(rt: HostRuntime) {
    for (one, row) in ROLES.iter().zip(TABLE.iter()) {
        for (other, free) in ROLES.iter().zip(row.iter()) {
            assert_pair(&rt, rt.alloc(), *one, *other, *free);
        }
    }
}

#[test]
fn the_least_byte_then_hart_then_role_is_told(rt: HostRuntime) {
    let mut map = FootMap::new(rt.alloc());
    assert_mask(&rt, map.add(0, Role::Fetch, 0x2002, 2), 3);
    assert_mask(&rt, map.add(2, Role::Load, 0x2001, 1), 1);
    assert_mask(&rt, map.add(1, Role::Load, 0x2001, 1), 1);
    assert_mask(&rt, map.add(1, Role::Walk, 0x2001, 1), 1);
    assert_clash(
        &rt,
        map.may(3, Role::Store, 0x2000, 4),
        0x2001,
        1,
        Role::Walk,
    );
    assert_clash(
        &rt,
        map.may(1, Role::Store, 0x2002, 2),
        0x2002,
        0,
        Role::Fetch,
    );
}

#[test]
fn a_mask_has_the_new_bytes_and_undoes_them(rt: HostRuntime) {
    let mut map = FootMap::new(rt.alloc());
    assert_mask(&rt, map.add(0, Role::Load, 0x3001, 1), 1);
    assert_mask(&rt, map.add(0, Role::Load, 0x3003, 1), 1);
    assert_mask(&rt, map.add(0, Role::Load, 0x3000, 4), 0b0101);
    map.remove(0, Role::Load, 0x3000, 0b0101);
    assert_free(&rt, map.may(1, Role::Store, 0x3000, 1));
    assert_clash(
        &rt,
        map.may(1, Role::Store, 0x3000, 4),
        0x3001,
        0,
        Role::Load,
    );
    assert_clash(
        &rt,
        map.may(1, Role::Store, 0x3002, 2),
        0x3003,
        0,
        Role::Load,
    );
}

/// A page takes memory. Where it is refused, no byte is in.
fn assert_all_or_none(rt: &impl Abort, map: &mut FootMap) {
    match map.add(0, Role::Load, 0x5010, 4) {
        Ok(mask) => {
            assert_eq!(rt; mask, 0b1111);
            assert_clash(
                rt,
                map.may(1, Role::Store, 0x5010, 1),
                0x5010,
                0,
                Role::Load,
            );
        }
        Err(OutOfMemory) => assert_free(rt, map.may(1, Role::Store, 0x5010, 4)),
    }
}

#[test]
fn all_bytes_are_added_or_none(rt: HostRuntime) {
    let mut map = FootMap::new(rt.alloc());
    assert_mask(&rt, map.add(0, Role::Load, 0x4000, 4), 0b1111);
    assert_mask(&rt, map.add(1, Role::Load, 0x4004, 4), 0b1111);
    assert_mask(&rt, map.add(0, Role::Fetch, 0x4008, 4), 0b1111);
    assert_all_or_none(&rt, &mut map);
    assert_clash(
        &rt,
        map.may(0, Role::Store, 0x4008, 4),
        0x4008,
        0,
        Role::Fetch,
    );
}

#[test]
fn the_first_and_the_last_byte_are_kept(rt: HostRuntime) {
    let mut map = FootMap::new(rt.alloc());
    assert_mask(&rt, map.add(255, Role::Store, 0xffff_fffc, 4), 0b1111);
    assert_mask(&rt, map.add(0, Role::Store, 0, 1), 1);
    assert_clash(
        &rt,
        map.may(1, Role::Load, 0xffff_ffff, 1),
        0xffff_ffff,
        255,
        Role::Store,
    );
    assert_clash(&rt, map.may(1, Role::Load, 0, 4), 0, 0, Role::Store);
    map.remove(255, Role::Store, 0xffff_fffc, 0b1000);
    assert_free(&rt, map.may(1, Role::Load, 0xffff_ffff, 1));
    map.remove(255, Role::Store, 0xffff_fffc, 0b0111);
    assert_free(&rt, map.may(1, Role::Load, 0xffff_fffc, 4));
}

#[test]
fn the_bytes_of_a_frame_that_are_free(rt: HostRuntime) {
    let mut map = FootMap::new(rt.alloc());
    assert_mask(&rt, map.add(0, Role::Store, 0x8000_0800, 1), 1);
    let free = map
        .allowed(rt.alloc(), 1, Role::Load, 0x8000_0000)
        .expect(&rt, "memory");
    assert_eq!(rt; free.size(), 4095);
    assert!(rt; !free.has(0x800) && free.has(0x7ff) && free.has(0x801));
    let own = map
        .allowed(rt.alloc(), 0, Role::Load, 0x8000_0000)
        .expect(&rt, "memory");
    assert_eq!(rt; own.size(), 4096);
    let next = map
        .allowed(rt.alloc(), 1, Role::Load, 0x8000_1000)
        .expect(&rt, "memory");
    assert_eq!(rt; next.size(), 4096);
}

#[test]
fn a_frame_that_one_hart_stored_whole(rt: HostRuntime) {
    let mut map = FootMap::new(rt.alloc());
    for word in 0..1024u32 {
        assert_mask(
            &rt,
            map.add(0, Role::Store, 0x8000_0000 + word * 4, 4),
            0b1111,
        );
    }
    assert!(rt; !map.some_free(1, Role::Load, 0x8000_0000, 1));
    let none = map
        .allowed(rt.alloc(), 1, Role::Load, 0x8000_0000)
        .expect(&rt, "memory");
    assert_eq!(rt; none.size(), 0);
    assert!(rt; map.some_free(0, Role::Store, 0x8000_0000, 4));
    assert!(rt; !map.races());
}

#[test]
fn room_is_for_whole_multiples(rt: HostRuntime) {
    let mut map = FootMap::new(rt.alloc());
    for word in 0..1024u32 {
        assert_mask(&rt, map.add(0, Role::Store, 0x7000 + word * 4 + 1, 1), 1);
    }
    assert!(rt; map.some_free(1, Role::Load, 0x7000, 1));
    assert!(rt; map.some_free(1, Role::Load, 0x7000, 2));
    assert!(rt; !map.some_free(1, Role::Load, 0x7000, 4));
    map.remove(0, Role::Store, 0x7ffd, 1);
    assert!(rt; map.some_free(1, Role::Load, 0x7000, 4));
    assert!(rt; map.some_free(0, Role::Fetch, 0x7000, 4));
}

#[test]
fn what_is_refused_is_named(rt: HostRuntime) {
    let text = format!(in rt.alloc(); "{OutOfMemory}").expect(&rt, "memory");
    assert_eq!(rt; text.as_str(), "out of memory");
}
