//! Sets compared with lists of their elements, and with one another where they are too large to list.
use dom_set::{OutOfMemory, Set, set_laws};
use std::alloc::{AllocError, Global};
use std::process::Abort;

/// The power of two whose multiples are meant, and ranges: sets of each step that is used, of ranges
/// that overlap, touch, lie apart, stand in another order, have one number, none, or all.
const ROWS: &str = "\
1 =
1 = 7:3
1 = 5:5
1 = 3:9 8:c
1 = 14:1d 3:9 a:c
1 = ffa:1004 0:2 1ffe:2002
1 = fffffffa:ffffffff 0:3
1 = 3ffff8:400004 7ffffe:800001
2 = 7ffffff8:80000007
2 = 1:1 5:14 10:1f
4 = 0:f
4 = 28:32 1:2 4:7 9:b
4 = b:12 4:9
1000 = 0:ffff
1000 = 3f0000:410000 fff00000:ffffffff
400000 = 0:ffffffff
400000 = 1:400000 fff00000:ffffffff 7fffffff:80000001";

/// Patterns, each a mask and the bits under it, and the numbers that match one of them in ascending
/// order: none at all, one with a bit outside its mask, all bits, bits that are free far apart, and
/// patterns that overlap.
const MATCHING: &str = "\
=
1:2 =
ffffffff:7 = 7
fffffff5:80000005 = 80000005 80000007 8000000d 8000000f
ffefffbd:0 = 0 2 40 42 100000 100002 100040 100042
fffffff8:8 ffffffea:8 = 8 9 a b c d e f 18 19 1c 1d
7ffffffe:4 fffffffe:4 0:1 ffffffff:ffffffff = 4 5 80000004 80000005 ffffffff";

/// How many numbers match one of the patterns, one of these, how many of them are below it, and the
/// patterns.
const SIZES: &str = "\
100000000 deadbeef deadbeef 0:0
40000000 14 5 3:0
100000 80012345 12345 fff00000:80000000
1 7 0 ffffffff:7
10000 11123141 1234 f0f00f0f:10100101
10000 1f1ff1f1 ffff f0f00f0f:10100101
1000 22 5 ffa1e655:0
1000 5e19aa fff ffa1e655:0
70000000 1000000a 7000004 3:0 c:8
70000000 fffffffc 6fffffff c:8 3:0 c:8
40000000 7fffffff 3fffffff 80000001:1 1:2
80000000 80000000 0 80000000:80000000";

/// Patterns, and a power of two with ranges whose multiples of it are the same numbers.
const SAME: &str = "\
0:0 = 1 = 0:ffffffff
3:0 = 4 = 0:ffffffff
fff00000:80000000 = 1 = 80000000:800fffff
1:0 1:1 = 1 = 0:ffffffff
80000fff:0 = 1000 = 0:7fffffff
c:10 3:4 = 1 =";

/// Of all numbers: a bound, and the ranges of those below it, unsigned and signed.
const BOUNDS: &str = "\
0 = = 80000000:ffffffff
1 = 0:0 = 0:0 80000000:ffffffff
7fffffff = 0:7ffffffe = 0:7ffffffe 80000000:ffffffff
80000000 = 0:7fffffff =
80000001 = 0:80000000 = 80000000:80000000
ffffffff = 0:fffffffe = 80000000:fffffffe";

/// Distances and bounds.
const NUMBERS: [u32; 11] = [
    0,
    1,
    4,
    9,
    13,
    4096,
    0x40_0000,
    0x7fff_ffff,
    0x8000_0000,
    0xffff_fffc,
    u32::MAX,
];

/// A number in hexadecimal.
pub fn number_of(rt: &impl Abort, word: &str) -> u32 {
    u32::from_str_radix(word.trim(), 16).expect(rt, word)
}

fn wide_number_of(rt: &impl Abort, word: &str) -> u64 {
    u64::from_str_radix(word, 16).expect(rt, word)
}

/// What stands before a mark, and what stands behind it.
pub fn parts<'a>(rt: &impl Abort, text: &'a str, mark: char) -> (&'a str, &'a str) {
    text.split_once(mark).expect(rt, text)
}

/// The pairs of the words.
pub fn pairs_of(rt: &impl Abort, alloc: Global, words: &str) -> Vec<(u32, u32)> {
    let mut pairs = Vec::new(alloc);
    for word in words.split_whitespace() {
        let (one, other) = parts(rt, word, ':');
        let pair = (number_of(rt, one), number_of(rt, other));
        pairs.push(pair).expect(rt, "memory");
    }
    pairs
}

fn numbers_of(rt: &impl Abort, alloc: Global, words: &str) -> Vec<u32> {
    let mut numbers = Vec::new(alloc);
    for word in words.split_whitespace() {
        numbers.push(number_of(rt, word)).expect(rt, "memory");
    }
    numbers
}

/// A set, and its elements in ascending order.
#[derive(Drop)]
struct Case<'a> {
    line: &'a str,
    set: Set,
    list: Vec<u32>,
}

/// The multiples in each range, one by one.
fn multiples(alloc: Global, align: u32, ranges: &[(u32, u32)]) -> Result<Vec<u32>, AllocError> {
    let align = u64::from(align.max(1));
    let mut out = Vec::new(alloc);
    for range in ranges {
        let low = u64::from(range.0).div_ceil(align);
        for k in low..u64::from(range.1) / align + 1 {
            if let Ok(x) = u32::try_from(k.wrapping_mul(align)) {
                out.push(x)?;
            }
        }
    }
    out.sort()?;
    out.dedup();
    Ok(out)
}

/// The multiples of a power of two in ranges.
pub fn set_of(rt: &impl Abort, alloc: Global, align: u32, ranges: &[(u32, u32)]) -> Set {
    set_laws();
    assert!(rt; align.is_power_of_two());
    Set::from_ranges(alloc, ranges, align).expect(rt, "memory")
}

/// The numbers that match one of the patterns.
fn matching(rt: &impl Abort, alloc: Global, patterns: &str) -> Set {
    let patterns = pairs_of(rt, alloc, patterns);
    Set::from_patterns(alloc, &patterns).expect(rt, "memory")
}

/// The power of two and the ranges of a text.
pub fn aligned_of(rt: &impl Abort, alloc: Global, text: &str) -> (u32, Vec<(u32, u32)>) {
    let (align, ranges) = parts(rt, text, '=');
    (number_of(rt, align), pairs_of(rt, alloc, ranges))
}

fn ranges_case<'a>(rt: &impl Abort, alloc: Global, line: &'a str) -> Case<'a> {
    let (align, ranges) = aligned_of(rt, alloc, line);
    Case {
        line,
        set: set_of(rt, alloc, align, &ranges),
        list: multiples(alloc, align, &ranges).expect(rt, "memory"),
    }
}

fn patterns_case<'a>(rt: &impl Abort, alloc: Global, line: &'a str) -> Case<'a> {
    let (patterns, elements) = parts(rt, line, '=');
    Case {
        line,
        set: matching(rt, alloc, patterns),
        list: numbers_of(rt, alloc, elements),
    }
}

fn cases(rt: &impl Abort, alloc: Global) -> Vec<Case<'static>> {
    let mut out = Vec::new(alloc);
    for line in ROWS.lines() {
        out.push(ranges_case(rt, alloc, line)).expect(rt, "memory");
    }
    for line in MATCHING.lines() {
        out.push(patterns_case(rt, alloc, line))
            .expect(rt, "memory");
    }
    out
}

/// The elements in ascending order.
pub fn listed(alloc: Global, set: &Set) -> Result<Vec<u32>, AllocError> {
    let mut out = Vec::new(alloc);
    for n in 0..set.size() {
        out.push(set.nth(n))?;
    }
    Ok(out)
}

fn assert_is(rt: &impl Abort, alloc: Global, set: &Set, elements: &[u32], row: &str) {
    let list = listed(alloc, set).expect(rt, "memory");
    assert_eq!(rt; list.as_slice(), elements, "{row}");
}

/// The same of a set that was made, if there was memory for it.
fn assert_made(
    rt: &impl Abort,
    alloc: Global,
    set: Result<Set, OutOfMemory>,
    elements: &[u32],
    row: &str,
) -> Set {
    let set = set.expect(rt, "memory");
    assert_is(rt, alloc, &set, elements, row);
    set
}

/// The elements that pass the test.
fn passing<F: Fn(u32) -> bool>(alloc: Global, list: &[u32], test: F) -> Result<Vec<u32>, AllocError>
    requires { F.IsAlwaysCallable test }
{
    let mut out = Vec::new(alloc);
    for x in list {
        if test(*x) {
            out.push(*x)?;
        }
    }
    Ok(out)
}

#[test]
fn multiples_of_four(rt: HostRuntime) {
    let alloc = rt.alloc();
    let set = set_of(&rt, alloc, 4, &[(0, 15)]);
    assert_is(&rt, alloc, &set, &[0, 4, 8, 12], "multiples of 4");
    assert_eq!(rt; set.size(), 4);
    assert_eq!(rt; set.nth(2), 8);
    assert_eq!(rt; set.first_from(9), Some(12));
    assert_eq!(rt; set.first_from(13), Some(0));
}

#[test]
fn multiples_of_four_are_cut_and_moved(rt: HostRuntime) {
    let alloc = rt.alloc();
    let set = set_of(&rt, alloc, 4, &[(0, 15)]);
    let moved = set.shift(alloc, 0xffff_fffc);
    let moved = assert_made(&rt, alloc, moved, &[0, 4, 8, 0xffff_fffc], "multiples of 4");
    let negative = moved.signed_below(alloc, 0);
    let _ = assert_made(&rt, alloc, negative, &[0xffff_fffc], "multiples of 4");
    let _ = assert_made(&rt, alloc, set.below(alloc, 8), &[0, 4], "multiples of 4");
    let four = set_of(&rt, alloc, 1, &[(4, 4)]);
    let _ = assert_made(
        &rt,
        alloc,
        set.minus(alloc, &four),
        &[0, 8, 12],
        "multiples of 4",
    );
    let eight = set_of(&rt, alloc, 1, &[(8, 9)]);
    let _ = assert_made(&rt, alloc, set.and(alloc, &eight), &[8], "multiples of 4");
}

fn assert_answer(rt: &impl Abort, case: &Case<'_>, x: u32) {
    let list = case.list.as_slice();
    assert_eq!(rt; case.set.has(x), list.contains(&x), "{}", case.line);
    let above = list.iter().copied().find(|y| x <= *y);
    assert_eq!(rt;
        case.set.first_from(x),
        above.or(list.first().copied()),
        "{}",
        case.line
    );
}

#[test]
fn answers_are_those_of_the_list(rt: HostRuntime) {
    let alloc = rt.alloc();
    for case in &cases(&rt, alloc) {
        assert_is(&rt, alloc, &case.set, &case.list, case.line);
        for x in NUMBERS {
            assert_answer(&rt, case, x);
        }
    }
}

fn assert_below(rt: &impl Abort, alloc: Global, case: &Case<'_>, x: u32) {
    let below = passing(alloc, &case.list, |y| y < x).expect(rt, "memory");
    let _ = assert_made(rt, alloc, case.set.below(alloc, x), &below, case.line);
}

fn assert_signed_below(rt: &impl Abort, alloc: Global, case: &Case<'_>, x: u32) {
    let signed = passing(alloc, &case.list, |y| y.cast_signed() < x.cast_signed());
    let signed = signed.expect(rt, "memory");
    let _ = assert_made(
        rt,
        alloc,
        case.set.signed_below(alloc, x),
        &signed,
        case.line,
    );
}

/// Each number plus the distance, in ascending order.
fn moved(alloc: Global, list: &[u32], distance: u32) -> Result<Vec<u32>, AllocError> {
    let mut sums = Vec::new(alloc);
    for y in list {
        sums.push(y.wrapping_add(distance))?;
    }
    sums.sort()?;
    Ok(sums)
}

fn assert_shift(rt: &impl Abort, alloc: Global, case: &Case<'_>, x: u32) {
    let sums = moved(alloc, &case.list, x).expect(rt, "memory");
    let _ = assert_made(rt, alloc, case.set.shift(alloc, x), &sums, case.line);
}

#[test]
fn bounds_and_shifts_are_those_of_the_list(rt: HostRuntime) {
    let alloc = rt.alloc();
    for case in &cases(&rt, alloc) {
        for x in NUMBERS {
            assert_below(&rt, alloc, case, x);
            assert_signed_below(&rt, alloc, case, x);
            assert_shift(&rt, alloc, case, x);
        }
    }
}

fn assert_common(rt: &impl Abort, alloc: Global, a: &Case<'_>, b: &Case<'_>) {
    let list = b.list.as_slice();
    let common = passing(alloc, &a.list, |x| list.binary_search(&x).is_ok());
    let common = common.expect(rt, "memory");
    let intersection = assert_made(rt, alloc, a.set.and(alloc, &b.set), &common, a.line);
    assert_eq!(rt; intersection == b.set, common.as_slice() == list);
}

fn assert_rest(rt: &impl Abort, alloc: Global, a: &Case<'_>, b: &Case<'_>) {
    let list = b.list.as_slice();
    let rest = passing(alloc, &a.list, |x| list.binary_search(&x).is_err());
    let rest = rest.expect(rt, "memory");
    let difference = assert_made(rt, alloc, a.set.minus(alloc, &b.set), &rest, a.line);
    assert_eq!(rt; difference == a.set, rest.as_slice() == a.list.as_slice());
}

fn assert_either(rt: &impl Abort, alloc: Global, a: &Case<'_>, b: &Case<'_>) {
    let mut either = Vec::from_slice(alloc, &a.list).expect(rt, "memory");
    for x in &b.list {
        if a.list.binary_search(x).is_err() {
            either.push(*x).expect(rt, "memory");
        }
    }
    either.sort_unstable();
    assert_made(rt, alloc, a.set.or(alloc, &b.set), &either, a.line);
}

#[test]
fn two_sets_are_as_two_lists(rt: HostRuntime) {
    let alloc = rt.alloc();
    let all = cases(&rt, alloc);
    for a in &all {
        for b in &all {
            assert_common(&rt, alloc, a, b);
            assert_rest(&rt, alloc, a, b);
            assert_either(&rt, alloc, a, b);
            assert_eq!(rt; a.set == b.set, a.list.as_slice() == b.list.as_slice());
        }
    }
}

fn all_numbers(rt: &impl Abort, alloc: Global) -> Set {
    let all = set_of(rt, alloc, 1, &[(0, u32::MAX)]);
    assert_eq!(rt; all.size(), 1 << 32);
    all
}

/// The set was made, and is this one.
fn assert_same(rt: &impl Abort, set: Result<Set, OutOfMemory>, want: &Set, row: &str) {
    assert!(rt; set.expect(rt, "memory") == *want, "{row}");
}

#[test]
fn all_are_all_numbers(rt: HostRuntime) {
    let alloc = rt.alloc();
    assert_same(&rt, Set::all(alloc), &all_numbers(&rt, alloc), "all");
}

#[test]
fn bits_that_all_elements_have_are_told(rt: HostRuntime) {
    let alloc = rt.alloc();
    let set = matching(&rt, alloc, "f:3 ff:13 ff0000ff:23");
    assert_eq!(rt; set.bits_under(0xf), Some(3));
    assert_eq!(rt; set.bits_under(0x1f), None);
    assert_eq!(rt; Set::new(alloc).bits_under(0xf), None);
}

#[test]
fn spans_go_from_one_element_to_another(rt: HostRuntime) {
    let alloc = rt.alloc();
    let set = set_of(&rt, alloc, 4, &pairs_of(&rt, alloc, "5:9 14:1b"));
    let spans = set.spans(alloc).expect(&rt, "memory");
    assert!(rt; spans.as_slice() == [(8, 8), (0x14, 0x18)].as_slice());
    let none = Set::new(alloc).spans(alloc).expect(&rt, "memory");
    assert!(rt; none.is_empty());
}

#[test]
fn ranges_less_multiples_are_one_span_each(rt: HostRuntime) {
    let alloc = rt.alloc();
    let set = set_of(&rt, alloc, 64, &pairs_of(&rt, alloc, "0:10000 20000:30000"));
    let less = set_of(&rt, alloc, 4096, &pairs_of(&rt, alloc, "0:ffffffff"));
    let left = set.minus(alloc, &less).expect(&rt, "memory");
    let spans = left.spans(alloc).expect(&rt, "memory");
    assert!(rt; spans.as_slice() == [(0x40, 0xffc0), (0x20040, 0x2ffc0)].as_slice());
}

fn assert_place(rt: &impl Abort, alloc: Global, all: &Set, x: u32) {
    let place = u64::from(x);
    assert!(rt; place < all.size());
    assert_eq!(rt; all.nth(place), x);
    assert_eq!(rt; all.first_from(x), Some(x));
    assert_same(rt, all.shift(alloc, x), all, "all numbers");
}

#[test]
fn each_number_is_in_its_place_among_all(rt: HostRuntime) {
    let alloc = rt.alloc();
    let all = all_numbers(&rt, alloc);
    for x in NUMBERS {
        assert_place(&rt, alloc, &all, x);
    }
}

/// The numbers of ranges.
fn numbers_in(rt: &impl Abort, alloc: Global, ranges: &str) -> Set {
    set_of(rt, alloc, 1, &pairs_of(rt, alloc, ranges))
}

fn assert_bound(rt: &impl Abort, alloc: Global, all: &Set, line: &str) {
    let (bound, ranges) = parts(rt, line, '=');
    let (below, signed) = parts(rt, ranges, '=');
    let x = number_of(rt, bound);
    assert_same(rt, all.below(alloc, x), &numbers_in(rt, alloc, below), line);
    assert_same(
        rt,
        all.signed_below(alloc, x),
        &numbers_in(rt, alloc, signed),
        line,
    );
}

#[test]
fn bounds_cut_all_numbers(rt: HostRuntime) {
    let alloc = rt.alloc();
    let all = all_numbers(&rt, alloc);
    for line in BOUNDS.lines() {
        assert_bound(&rt, alloc, &all, line);
    }
}

fn assert_halves(rt: &impl Abort, alloc: Global, all: &Set, set: &Set, row: &str) {
    let others = all.minus(alloc, set).expect(rt, "memory");
    assert_eq!(rt; others.size() + set.size(), 1 << 32);
    assert_same(rt, all.minus(alloc, &others), set, row);
    assert_same(rt, others.and(alloc, set), &Set::new(alloc), row);
}

#[test]
fn a_set_is_what_was_taken_off_and_what_was_left(rt: HostRuntime) {
    let alloc = rt.alloc();
    let all = all_numbers(&rt, alloc);
    for case in &cases(&rt, alloc) {
        assert_halves(&rt, alloc, &all, &case.set, case.line);
    }
}

/// A row of `SIZES`.
#[derive(Drop)]
struct Sized<'a> {
    line: &'a str,
    size: u64,
    x: u32,
    place: u64,
    set: Set,
}

fn sized_of<'a>(rt: &impl Abort, alloc: Global, line: &'a str) -> Sized<'a> {
    let (size, rest) = parts(rt, line, ' ');
    let (x, rest) = parts(rt, rest, ' ');
    let (place, patterns) = parts(rt, rest, ' ');
    Sized {
        line,
        size: wide_number_of(rt, size),
        x: number_of(rt, x),
        place: wide_number_of(rt, place),
        set: matching(rt, alloc, patterns),
    }
}

fn assert_sized(rt: &impl Abort, alloc: Global, row: &Sized<'_>) {
    let set = &row.set;
    assert_eq!(rt; set.size(), row.size, "{}", row.line);
    assert!(rt; row.place < set.size());
    assert_eq!(rt; set.nth(row.place), row.x, "{}", row.line);
    assert!(rt; set.has(row.x));
    assert_eq!(rt; set.first_from(row.x), Some(row.x));
    let below = set.below(alloc, row.x).expect(rt, "memory");
    assert_eq!(rt; below.size(), row.place, "{}", row.line);
}

#[test]
fn numbers_of_patterns_are_counted_and_found(rt: HostRuntime) {
    let alloc = rt.alloc();
    for line in SIZES.lines() {
        assert_sized(&rt, alloc, &sized_of(&rt, alloc, line));
    }
}

#[test]
fn the_next_number_that_matches_is_found(rt: HostRuntime) {
    let alloc = rt.alloc();
    let set = matching(&rt, alloc, "f0f00f0f:10100101");
    assert_eq!(rt; set.first_from(0), Some(0x1010_0101));
    assert_eq!(rt; set.first_from(0x1010_0112), Some(0x1010_0121));
    assert_eq!(rt; set.first_from(0x1010_01f2), Some(0x1010_1101));
    assert_eq!(rt; set.first_from(0x1f1f_f1f2), Some(0x1010_0101));
}

/// The set was made, and has so many elements.
fn assert_size(rt: &impl Abort, set: Result<Set, OutOfMemory>, size: u64) {
    assert_eq!(rt; set.expect(rt, "memory").size(), size);
}

#[test]
fn numbers_that_match_are_cut(rt: HostRuntime) {
    let alloc = rt.alloc();
    let set = matching(&rt, alloc, "f0f00f0f:10100101");
    assert_size(&rt, set.below(alloc, 0x1010_0200), 16);
    let ends = matching(&rt, alloc, "ff:f1 3:0");
    assert_size(&rt, set.and(alloc, &ends), 1 << 12);
    assert_size(&rt, set.minus(alloc, &ends), 15 << 12);
}

fn assert_alike(rt: &impl Abort, alloc: Global, set: &Set, ranges: &Set, x: u32, row: &str) {
    let below = ranges.below(alloc, x).expect(rt, "memory");
    assert_same(rt, set.below(alloc, x), &below, row);
    let signed_below = ranges.signed_below(alloc, x).expect(rt, "memory");
    assert_same(rt, set.signed_below(alloc, x), &signed_below, row);
    let moved = ranges.shift(alloc, x).expect(rt, "memory");
    assert_same(rt, set.shift(alloc, x), &moved, row);
}

fn assert_pair(rt: &impl Abort, alloc: Global, set: &Set, ranges: &Set, row: &str) {
    assert!(rt; *set == *ranges, "{row}");
    assert!(rt; *ranges == *set, "{row}");
    for x in NUMBERS {
        assert_alike(rt, alloc, set, ranges, x, row);
    }
}

#[test]
fn patterns_and_ranges_make_the_same_sets(rt: HostRuntime) {
    let alloc = rt.alloc();
    for line in SAME.lines() {
        let (patterns, ranges) = parts(&rt, line, '=');
        let (align, ranges) = aligned_of(&rt, alloc, ranges);
        let ranges = set_of(&rt, alloc, align, &ranges);
        let set = matching(&rt, alloc, patterns);
        assert_pair(&rt, alloc, &set, &ranges, line);
    }
}

fn assert_shared(rt: &impl Abort, alloc: Global, a: &Sized<'_>, b: &Sized<'_>) {
    let common = a.set.and(alloc, &b.set).expect(rt, "memory");
    let rest = a.set.minus(alloc, &b.set).expect(rt, "memory");
    assert_eq!(rt; common.size() + rest.size(), a.size);
    assert_size(rt, rest.and(alloc, &b.set), 0);
    assert_same(rt, b.set.and(alloc, &a.set), &common, a.line);
    assert_same(rt, a.set.minus(alloc, &rest), &common, a.line);
}

#[test]
fn what_two_sets_share_and_what_one_leaves_is_all(rt: HostRuntime) {
    let alloc = rt.alloc();
    for one in SIZES.lines() {
        let first = sized_of(&rt, alloc, one);
        for other in SIZES.lines() {
            assert_shared(&rt, alloc, &first, &sized_of(&rt, alloc, other));
        }
    }
}

/// Of the numbers of seven in sixteen.
fn assert_moved(rt: &impl Abort, alloc: Global, set: &Set, x: u32) {
    let moved = set.shift(alloc, x).expect(rt, "memory");
    assert_eq!(rt; moved.size(), 7 << 28);
    assert!(rt; moved.has(x));
    assert!(rt; moved.has(x.wrapping_add(10)));
    assert!(rt; !moved.has(x.wrapping_add(7)));
    assert_same(rt, moved.shift(alloc, x.wrapping_neg()), set, "moved back");
}

#[test]
fn numbers_of_patterns_are_moved_round(rt: HostRuntime) {
    let alloc = rt.alloc();
    let seven_of_sixteen = matching(&rt, alloc, "3:0 c:8");
    for x in NUMBERS {
        assert_moved(&rt, alloc, &seven_of_sixteen, x);
    }
}

#[test]
fn numbers_of_few_bits_are_moved_round(rt: HostRuntime) {
    let alloc = rt.alloc();
    let below = matching(&rt, alloc, "ffa1e655:0");
    let moved = below.shift(alloc, 5).expect(&rt, "memory");
    assert_eq!(rt; moved.size(), 1 << 12);
    assert_eq!(rt; moved.first_from(0), Some(5));
    assert_eq!(rt; moved.first_from(8), Some(13));
    assert_eq!(rt; moved.first_from(0x5e_19ae), Some(0x5e_19af));
}
