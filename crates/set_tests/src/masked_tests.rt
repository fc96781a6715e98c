//! Sets of words of which the bits under a mask are an element of another set, compared with that set.
use crate::set_tests::{aligned_of, listed, number_of, pairs_of, parts, set_of};
use dom_set::Set;
use std::alloc::Global;
use std::process::Abort;

/// A mask, a power of two and ranges whose multiples of it are meant, and the same of what is taken away from these: a
/// whole frame, its words, words scattered over it, ranges that begin and end inside, multiples of 4, sets with a hole,
/// numbers above the mask, no number, frames of four megabytes, masks with gaps, all bits and no bit.
const ROWS: &str = "\
fff | 1 = 0:fff | 1 =
fff | 4 = 0:fff | 1 =
fff | 4 = 10:10 24:24 100:100 7fc:800 ffc:ffc | 1 =
fff | 1 = 123:abc | 1 =
fff | 4 = 123:abc | 1 =
fff | 1 = 0:fff | 100 = 0:fff
fff | 4 = 8:ff0 | 40 = 0:fff
fff | 1 = fff:1001 2000:2003 | 1 =
fff | 1 = | 1 =
3fffff | 4 = 12345:12fff 3ff000:3fffff | 1 =
3fffff | 1000 = 0:3fffff | 1 =
3fffff | 40 = 0:20000 | 1000 = 0:20000
f0f | 1 = 0:fff | 1 =
f0f | 1 = 105:30b 7ff:801 f0f:f0f | 1 =
f0f | 2 = 0:1fff | 10 = 0:1fff
ffc | 1 = 1:22 | 1 =
80000001 | 1 = 0:0 7fffffff:80000001 | 1 =
ffffffff | 4 = 8:ff0 fffff000:ffffffff | 40 = 0:fff
0 | 1 = 0:3 | 1 =
0 | 1 = 1:3 | 1 =";

/// A mask, a power of two and ranges, and the one span of the words whose bits under the mask are in them.
const WHOLE: &str = "\
fff | 1 = 0:fff | 0:ffffffff
fff | 4 = 0:fff | 0:fffffffc
fff | 1 = 0:12345 | 0:ffffffff
fff | 1 = 800:fff | 800:ffffffff
fff | 4 = 800:ffc | 800:fffffffc
fff | 4 = 7fc:7fc | 7fc:fffff7fc
3fffff | 1 = 0:3fffff | 0:ffffffff
3fffff | 1000 = 0:3fffff | 0:fffff000
f0f | 1 = 0:f0f | 0:ffffffff
ffffffff | 1 = 0:ffffffff | 0:ffffffff
0 | 1 = 0:0 | 0:ffffffff";

fn ranges_of(rt: &impl Abort, alloc: Global, text: &str) -> Set {
    let (align, ranges) = aligned_of(rt, alloc, text);
    set_of(rt, alloc, align, &ranges)
}

/// A set, and that of the words whose bits under the mask are in it.
#[derive(Drop)]
struct Seen<'a> {
    line: &'a str,
    mask: u32,
    set: Set,
    words: Set,
}

fn seen_of<'a>(rt: &impl Abort, alloc: Global, line: &'a str) -> Seen<'a> {
    let (mask, sets) = parts(rt, line, '|');
    let (all, less) = parts(rt, sets, '|');
    let all = ranges_of(rt, alloc, all);
    let less = ranges_of(rt, alloc, less);
    let mask = number_of(rt, mask);
    let set = all.minus(alloc, &less).expect(rt, "memory");
    let words = set.masked(alloc, mask).expect(rt, "memory");
    Seen {
        line,
        mask,
        set,
        words,
    }
}

/// The word is in the one set where its bits under the mask are in the other.
fn assert_word(rt: &impl Abort, seen: &Seen<'_>, x: u32) {
    let line = seen.line;
    assert_eq!(rt;
        seen.words.has(x),
        seen.set.has(x & seen.mask),
        "{line}: {x}"
    );
}

/// So many words have each element's bits that the mask has room for.
fn assert_size(rt: &impl Abort, seen: &Seen<'_>, elements: &[u32]) {
    let mut within = 0u64;
    for x in elements {
        if x & seen.mask == *x {
            within = within.wrapping_add(1);
        }
    }
    let line = seen.line;
    assert_eq!(rt;
        seen.words.size(),
        within.wrapping_shl(seen.mask.count_zeros()),
        "{line}"
    );
}

#[test]
fn words_are_seen_through_a_mask(rt: HostRuntime) {
    let alloc = rt.alloc();
    for line in ROWS.lines() {
        let seen = seen_of(&rt, alloc, line);
        let elements = listed(alloc, &seen.set).expect(&rt, "memory");
        assert_size(&rt, &seen, &elements);
        for x in &elements {
            assert_word(&rt, &seen, *x);
            assert_word(&rt, &seen, *x | !seen.mask);
            assert_word(&rt, &seen, x.wrapping_add(1));
        }
        // An odd factor, so that each twelve bits come once.
        for k in 0..4096u32 {
            assert_word(&rt, &seen, k);
            assert_word(&rt, &seen, k.wrapping_mul(0x9e37_79b1));
        }
    }
}

#[test]
fn whole_frames_are_one_span_each(rt: HostRuntime) {
    let alloc = rt.alloc();
    for line in WHOLE.lines() {
        let (mask, rest) = parts(&rt, line, '|');
        let (ranges, span) = parts(&rt, rest, '|');
        let set = ranges_of(&rt, alloc, ranges);
        let words = set
            .masked(alloc, number_of(&rt, mask))
            .expect(&rt, "memory");
        let spans = words.spans(alloc).expect(&rt, "memory");
        assert!(rt;
            spans.as_slice() == pairs_of(&rt, alloc, span).as_slice(),
            "{line}"
        );
    }
}
