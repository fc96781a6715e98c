//! Footprints beside the plain set of their triples, on accesses that look random.
use foot_map::{Clash, FootMap, breaks};
use rv_script::Role;
use std::alloc::Global;
use std::process::Abort;

const ROLES: [Role; 4] = [Role::Fetch, Role::Walk, Role::Load, Role::Store];

/// From where accesses go on, how many there are, and over how many words on both sides of the
/// frame's end they are spread.
const RUNS: &str = "\
1 60 2
20 60 8
300 90 16
4000 90 40
50000 120 100";

/// Accesses, each as hart, role, byte and length, and whether some of them race.
const RACES: &str = "\
no
no 0S1000:4
no 0S1000:4 0L1002:2 0S1000:1
no 0S1000:2 1L1002:2 2F1004:4 3W1004:4 1F1008:4
no 0F1000:4 1F1000:4 2W1000:4 3L1000:4
no 0S1ffc:4 1F2000:4 1L2000:4
no 0S1000:1 1L2000:1 1F3000:1
yes 0S1000:4 1L1003:1
yes 1L1003:1 0S1000:4
yes 0S1000:4 1S1000:4
yes 0S1000:4 0F1002:2
yes 0F1002:2 0S1000:4
yes 0S1000:4 0W1000:4
yes 1S1fff:1 3F1ffc:4
yes 0L1000:4 1L1000:4 2L1000:4 3S1001:1
yes 0S2000:4 0S1000:4 1L2000:1";

/// An access inside one aligned word.
#[derive(Clone, Copy)]
struct Access {
    hart: u8,
    role: Role,
    addr: u32,
    len: u8,
}

/// A footprint, and its triples one by one.
#[derive(Drop)]
struct Pair {
    map: FootMap,
    plain: Vec<(u32, u8, Role)>,
}

fn is_in(pair: &Pair, triple: (u32, u8, Role)) -> bool {
    pair.plain
        .iter()
        .any(|t| t.0 == triple.0 && t.1 == triple.1 && t.2 == triple.2)
}

/// The plain form of whether an access may not touch a byte.
fn is_blocked(pair: &Pair, hart: u8, role: Role, byte: u32) -> bool {
    pair.plain
        .iter()
        .any(|t| t.0 == byte && breaks(t.1 == hart, t.2, role))
}

/// The plain form of `races`.
fn has_race(pair: &Pair) -> bool {
    pair.plain.iter().any(|t| is_blocked(pair, t.1, t.2, t.0))
}

/// The plain form of `may` on one byte.
fn clash_on(pair: &Pair, access: Access, byte: u32) -> Option<Clash> {
    for hart in 0..=255u8 {
        for role in ROLES.iter() {
            let breaks = breaks(hart == access.hart, *role, access.role);
            if breaks && is_in(pair, (byte, hart, *role)) {
                return Some(Clash {
                    byte,
                    hart,
                    role: *role,
                });
            }
        }
    }
    None
}

fn clash_of(pair: &Pair, access: Access) -> Option<Clash> {
    for i in 0..u32::from(access.len) {
        let clash = clash_on(pair, access, access.addr.wrapping_add(i));
        if clash.is_some() {
            return clash;
        }
    }
    None
}

/// Adds an access to both, and compares what was new.
fn add(rt: &impl Abort, pair: &mut Pair, access: Access) {
    let Access {
        hart,
        role,
        addr,
        len,
    } = access;
    assert!(rt; len > 0 && addr % 4 + u32::from(len) <= 4);
    assert_eq!(rt; pair.map.may(hart, role, addr, len), clash_of(pair, access));
    let mut mask = pair.map.add(hart, role, addr, len).expect(rt, "memory");
    for i in 0..u32::from(len) {
        let triple = (addr.wrapping_add(i), hart, role);
        assert_eq!(rt; mask % 2 == 0, is_in(pair, triple));
        if mask % 2 == 1 {
            pair.plain.push(triple).expect(rt, "memory");
        }
        mask /= 2;
    }
    assert_eq!(rt; mask, 0);
}

/// Adds an access and takes it back, and compares clashes before, between and after.
fn add_and_remove(rt: &impl Abort, pair: &mut Pair, access: Access, probe: Access) {
    let Access {
        hart,
        role,
        addr,
        len,
    } = access;
    assert!(rt; len > 0 && addr % 4 + u32::from(len) <= 4);
    assert!(rt; probe.len > 0 && probe.addr % 4 + u32::from(probe.len) <= 4);
    let mask = pair.map.add(hart, role, addr, len).expect(rt, "memory");
    pair.map.remove(hart, role, addr, mask);
    let found = pair.map.may(probe.hart, probe.role, probe.addr, probe.len);
    assert_eq!(rt; found, clash_of(pair, probe));
}

/// The plain form of `some_free`.
fn has_room(pair: &Pair, hart: u8, role: Role, frame: u32, len: u32) -> bool {
    (0..4096u32).any(|x| {
        len > 0
            && x % len == 0
            && (0..len).all(|i| !is_blocked(
                pair,
                hart,
                role,
                frame.wrapping_add(x).wrapping_add(i),
            ))
    })
}

fn assert_frame(rt: &impl Abort, alloc: Global, pair: &Pair, hart: u8, role: Role, frame: u32) {
    assert!(rt; frame % 4096 == 0);
    let free = pair
        .map
        .allowed(alloc, hart, role, frame)
        .expect(rt, "memory");
    for x in 0..4096 {
        let blocked = is_blocked(pair, hart, role, frame.wrapping_add(x));
        assert_eq!(rt; free.has(x), !blocked);
    }
    for len in [1u8, 2, 4].iter() {
        let len = *len;
        assert!(rt; len == 1 || len == 2 || len == 4);
        let room = has_room(pair, hart, role, frame, u32::from(len));
        assert_eq!(rt; pair.map.some_free(hart, role, frame, len), room);
    }
}

fn next(state: u32) -> u32 {
    state.wrapping_mul(1_664_525).wrapping_add(1_013_904_223)
}

fn role_of(state: u32) -> Role {
    match state % 4 {
        0 => Role::Fetch,
        1 => Role::Walk,
        2 => Role::Load,
        _ => Role::Store,
    }
}

/// An access of any role, length and hart on one of so many words round the end of a frame.
fn access_of(state: u32, words: u32) -> Access {
    let word = (state >> 20) % words.max(1);
    let start = 0x8000_1000 - words.min(1000) / 2 * 4 + word.min(1000) * 4;
    let (place, len) = match (state >> 8) % 7 {
        0 => (0, 1),
        1 => (1, 1),
        2 => (2, 1),
        3 => (3, 1),
        4 => (0, 2),
        5 => (2, 2),
        _ => (0, 4),
    };
    Access {
        hart: [0u8, 1, 2, 255][(state >> 12) as usize % 4],
        role: role_of(state >> 16),
        addr: start + place,
        len,
    }
}

fn run(rt: &impl Abort, alloc: Global, seed: u32, count: u32, words: u32) {
    let mut pair = Pair {
        map: FootMap::new(alloc),
        plain: Vec::new(alloc),
    };
    let mut state = seed;
    for i in 0..count {
        state = next(state);
        let access = access_of(state, words);
        state = next(state);
        add_and_remove(rt, &mut pair, access, access_of(state, words));
        if i % 3 == 0 {
            add(rt, &mut pair, access_of(state, words));
        }
        assert_eq!(rt; pair.map.races(), has_race(&pair));
    }
    assert_frame(rt, alloc, &pair, 1, role_of(state >> 16), 0x8000_0000);
    assert_frame(rt, alloc, &pair, 255, Role::Store, 0x8000_1000);
}

fn number_of(rt: &impl Abort, word: Option<&str>) -> u32 {
    word.expect(rt, "a number")
        .parse::<u32>()
        .expect(rt, "a number")
}

#[test]
fn a_footprint_is_the_set_of_its_triples(rt: HostRuntime) {
    for line in RUNS.lines() {
        let mut words = line.split_whitespace();
        let seed = number_of(&rt, words.next());
        let count = number_of(&rt, words.next());
        run(&rt, rt.alloc(), seed, count, number_of(&rt, words.next()));
    }
}

fn role_named(rt: &impl Abort, letter: &str) -> Role {
    match letter {
        "F" => Role::Fetch,
        "W" => Role::Walk,
        "L" => Role::Load,
        "S" => Role::Store,
        _ => {
            assert_eq!(rt; letter, "F, W, L or S");
            Role::Fetch
        }
    }
}

fn access_named(rt: &impl Abort, word: &str) -> Access {
    let (hart, rest) = word.split_at_checked(1).expect(rt, word);
    let (role, place) = rest.split_at_checked(1).expect(rt, word);
    let (addr, len) = place.split_once(':').expect(rt, word);
    Access {
        hart: hart.parse::<u8>().expect(rt, word),
        role: role_named(rt, role),
        addr: u32::from_str_radix(addr, 16).expect(rt, word),
        len: len.parse::<u8>().expect(rt, word),
    }
}

#[test]
fn races_are_told(rt: HostRuntime) {
    for line in RACES.lines() {
        let mut words = line.split_whitespace();
        let told = words.next().expect(&rt, line);
        let mut pair = Pair {
            map: FootMap::new(rt.alloc()),
            plain: Vec::new(rt.alloc()),
        };
        for word in words {
            add(&rt, &mut pair, access_named(&rt, word));
        }
        assert_eq!(rt; pair.map.races(), told == "yes");
        assert_eq!(rt; has_race(&pair), told == "yes");
    }
}
