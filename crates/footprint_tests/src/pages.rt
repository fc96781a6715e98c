//! Pages of bits compared with plain lists of tests, one for each of the 4,096 numbers.
use lane_bits::PageBits;
use std::alloc::Global;
use std::process::Abort;

const SIZE: u16 = 4096;

/// Pages as lists of numbers and runs: none, one at each end of a word and of a page, every word's
/// first or last, runs that cross words, and numbers far apart.
const PAGES: &str = "\
=
0
63
64
4095
0 63 64 4095
0:4095
1:62 64:4094
60:70 125:131 4030:4040
0:4095:64
63:4095:64
0:4095:2
1:4095:3
5:4000:129
2048:2111
2047 2112";

/// How far pages are moved: within a word, by whole words, across them, and past the end.
const MOVES: [u16; 14] = [0, 1, 2, 5, 62, 63, 64, 65, 127, 128, 2047, 4032, 4095, 4096];

/// A page, and the runs of numbers that it is to have, each by its first, its last and its step.
#[derive(Drop)]
struct Case {
    page: PageBits,
    runs: Vec<(u16, u16, u16)>,
}

/// The plain definition: whether a number is in one of the runs.
fn is_in(case: &Case, i: u16) -> bool {
    case.runs.iter().any(|run| run.0 <= i && i <= run.1 && (i - run.0) % run.2.max(1) == 0)
}

fn number_of(rt: &impl Abort, word: &str) -> u16 {
    word.parse::<u16>().expect(rt, word)
}

/// A number, or a run.
fn run_of(rt: &impl Abort, word: &str) -> (u16, u16, u16) {
    let mut parts = word.split(':');
    let first = number_of(rt, parts.next().expect(rt, word));
    let last = match parts.next() {
        Some(part) => number_of(rt, part),
        None => first,
    };
    let step = match parts.next() {
        Some(part) => number_of(rt, part),
        None => 1,
    };
    (first, last, step)
}

fn case_of(rt: &impl Abort, alloc: Global, line: &str) -> Case {
    let mut case = Case {
        page: PageBits::new(),
        runs: Vec::new(alloc),
    };
    for word in line.split_whitespace() {
        if word != "=" {
            case.runs.push(run_of(rt, word)).expect(rt, "memory");
        }
    }
    for i in 0..SIZE {
        if is_in(&case, i) {
            case.page.set(i);
        }
    }
    case
}

fn assert_numbers(rt: &impl Abort, case: &Case) {
    let mut count = 0;
    for i in 0..SIZE {
        assert_eq!(rt; case.page.get(i), is_in(case, i));
        if is_in(case, i) && count < 4096 {
            count += 1;
        }
    }
    assert_eq!(rt; case.page.count(), count);
}

fn assert_firsts(rt: &impl Abort, case: &Case) {
    let mut first = None;
    for i in (0..SIZE).rev() {
        if is_in(case, i) {
            first = Some(i);
        }
        assert_eq!(rt; case.page.first_from(i), first);
    }
    assert_eq!(rt; case.page.first_from(SIZE), None);
    assert_eq!(rt; case.page.first_from(u16::MAX), None);
}

/// Each operation beside its plain form.
fn assert_both(rt: &impl Abort, one: &Case, other: &Case) {
    let and = one.page.and(&other.page);
    let or = one.page.or(&other.page);
    let left = one.page.and_not(&other.page);
    let mut common = false;
    for i in 0..SIZE {
        let (here, there) = (is_in(one, i), is_in(other, i));
        assert_eq!(rt; and.get(i), here && there);
        assert_eq!(rt; or.get(i), here || there);
        assert_eq!(rt; left.get(i), here && !there);
        common = common || (here && there);
    }
    assert_eq!(rt; one.page.any_common(&other.page), common);
}

/// Moves beside their plain form.
fn assert_moved(rt: &impl Abort, one: &Case, other: &Case, n: u16) {
    let lowered = other.page.lowered(n);
    let mut meets = false;
    for i in 0..SIZE {
        let there = n < SIZE && i < SIZE - n && is_in(other, i + n);
        assert_eq!(rt; lowered.get(i), there);
        meets = meets || (is_in(one, i) && there);
    }
    assert_eq!(rt; one.page.shift_check(&other.page, n), meets);
}

#[test]
fn numbers_are_those_put_in(rt: HostRuntime) {
    for line in PAGES.lines() {
        let case = case_of(&rt, rt.alloc(), line);
        assert_numbers(&rt, &case);
        assert_firsts(&rt, &case);
    }
}

#[test]
fn operations_are_those_of_lists(rt: HostRuntime) {
    for line in PAGES.lines() {
        let one = case_of(&rt, rt.alloc(), line);
        for line in PAGES.lines() {
            assert_both(&rt, &one, &case_of(&rt, rt.alloc(), line));
        }
    }
}

#[test]
fn moves_cross_words(rt: HostRuntime) {
    let spread = case_of(&rt, rt.alloc(), "5:4000:129 63 64 4095");
    let low = case_of(&rt, rt.alloc(), "0 1 63 64 2047");
    for line in PAGES.lines() {
        let case = case_of(&rt, rt.alloc(), line);
        for n in MOVES.iter() {
            assert_moved(&rt, &case, &spread, *n);
            assert_moved(&rt, &low, &case, *n);
        }
    }
}

#[test]
fn what_is_cleared_is_out(rt: HostRuntime) {
    let mut case = case_of(&rt, rt.alloc(), "0:4095");
    for i in [0u16, 63, 64, 4095].iter() {
        case.page.clear(*i);
        case.page.clear(*i);
    }
    let left = case_of(&rt, rt.alloc(), "1:62 65:4094");
    assert_eq!(rt; case.page.count(), 4092);
    assert!(rt; !case.page.and_not(&left.page).any_common(&case.page));
}

#[test]
fn four_numbers_are_counted_and_found(rt: HostRuntime) {
    let case = case_of(&rt, rt.alloc(), "0 63 64 4095");
    assert_eq!(rt; case.page.count(), 4);
    assert_eq!(rt; case.page.first_from(65), Some(4095));
    let hit = case_of(&rt, rt.alloc(), "64");
    assert!(rt; case.page.any_common(&hit.page));
    let miss = case_of(&rt, rt.alloc(), "65");
    assert!(rt; !case.page.any_common(&miss.page));
}

#[test]
fn multiples_are_those_of_the_page(rt: HostRuntime) {
    for i in 0..SIZE {
        assert!(rt; PageBits::multiples_of(1).get(i));
        assert_eq!(rt; PageBits::multiples_of(2).get(i), i % 2 == 0);
        assert_eq!(rt; PageBits::multiples_of(4).get(i), i % 4 == 0);
    }
}
