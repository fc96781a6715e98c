// Every combination of an address with new entries, walked on a memory that has them.
use crate::cases::{Case, memory_of, put_word, ram_of, rows_of};
use addr_rows::{Row, RowEnd};
use dom_set::Set;
use rv_mem::PartMem;
use std::alloc::Global;
use std::process::Abort;
use sv_walk::{Kind, View, Walk, WalkEnd, walk};

/// A new root entry and a new second entry, where they are new.
#[derive(Clone, Copy, Debug, PartialEq, Eq)]
struct News {
    root: Option<u32>,
    leaf: Option<u32>,
}

/// Whether a new entry may stand at an address.
fn is_in_tables(case: &Case, addr: u32) -> bool {
    case.tables.iter().any(|t| *t / 4096 == addr / 4096)
}

/// Whether a word has the lowest eight bits of a leaf.
fn has_flag(case: &Case, w: u32) -> bool {
    case.flags.iter().any(|b| u32::from(*b) == w % 0x400)
}

/// Whether a new root entry may be this word.
fn is_first(case: &Case, w: u32) -> bool {
    let pointer = case.tables.iter().any(|t| *t / 4096 * 1024 + 1 == w);
    let frame = case.pool.iter().any(|p| *p / 0x40_0000 == w / 0x10_0000);
    pointer || (frame && w / 0x400 % 0x400 == 0 && has_flag(case, w))
}

/// Whether a new second entry may be this word.
fn is_second(case: &Case, w: u32) -> bool {
    case.pool.iter().any(|p| *p / 4096 == w / 1024) && has_flag(case, w)
}

/// Whether new entries may be these words.
fn have_form(case: &Case, news: News) -> bool {
    let first = match news.root {
        None => true,
        Some(w) => is_first(case, w),
    };
    let second = match news.leaf {
        None => true,
        Some(w) => is_second(case, w),
    };
    first && second
}

/// Takes the new root entry, or the new second entry.
fn taken(left: &mut News, is_root: bool) -> Option<u32> {
    if is_root {
        left.root.take()
    } else {
        left.leaf.take()
    }
}

/// Puts the new entry that the walk of an address is without, if there is one and it may stand there.
fn put_missing(
    rt: &impl Abort,
    case: &Case,
    memory: &mut PartMem,
    view: View,
    kind: Kind,
    ea: u32,
    left: &mut News,
) {
    let walked = walk(memory, view, ea, kind);
    let WalkEnd::Missing(addr) = walked.outcome else {
        return;
    };
    if !is_in_tables(case, addr) {
        return;
    }
    let is_root = walked.ptes.as_slice().is_empty();
    if let Some(word) = taken(left, is_root) {
        put_word(rt, memory, addr, word);
    }
}

/// Whether a new root entry is the second entry too.
fn is_twice(walked: &Walk, news: News) -> bool {
    match walked.ptes.as_slice() {
        [root, second] => news.root.is_some() && root.0 == second.0,
        _ => false,
    }
}

/// Where the walk of an address ends once the new entries are there, where it reads just these, each a
/// word of its own in a frame for tables.
fn end_of(
    rt: &impl Abort,
    alloc: Global,
    case: &Case,
    view: View,
    kind: Kind,
    ea: u32,
    news: News,
) -> Option<WalkEnd> {
    let ram = ram_of(rt, alloc, case.end);
    let mut memory = memory_of(rt, alloc, &ram, &case.words);
    let mut left = news;
    put_missing(rt, case, &mut memory, view, kind, ea, &mut left);
    put_missing(rt, case, &mut memory, view, kind, ea, &mut left);
    let walked = walk(&memory, view, ea, kind);
    let is_missing = matches!(walked.outcome, WalkEnd::Missing(_));
    if is_missing || left.root.is_some() || left.leaf.is_some() || is_twice(&walked, news) {
        return None;
    }
    Some(walked.outcome)
}

/// Adds a word, unless it is there.
fn add(rt: &impl Abort, all: &mut Vec<Option<u32>>, word: u32) {
    if !all.contains(&Some(word)) {
        all.push(Some(word)).expect(rt, "memory");
    }
}

/// Adds what leaves may lead to a frame or to the superpage that it lies in.
fn add_leaves(rt: &impl Abort, all: &mut Vec<Option<u32>>, frame: u32, flags: &[u8]) {
    for b in flags {
        let flag = u32::from(*b);
        add(rt, all, frame / 0x40_0000 * 0x10_0000 + flag);
        add(rt, all, frame / 4096 * 1024 + flag);
    }
}

/// None, and what new entries may be, for the other entry too.
fn choices(rt: &impl Abort, alloc: Global, case: &Case) -> Vec<Option<u32>> {
    let mut all = Vec::new(alloc);
    all.push(None).expect(rt, "memory");
    for t in &case.tables {
        add(rt, &mut all, *t / 4096 * 1024 + 1);
    }
    for p in &case.pool {
        add_leaves(rt, &mut all, *p, &case.flags);
    }
    all
}

/// Adds a root entry with each second entry.
fn add_pairs(rt: &impl Abort, all: &mut Vec<News>, root: Option<u32>, words: &[Option<u32>]) {
    for leaf in words {
        all.push(News { root, leaf: *leaf }).expect(rt, "memory");
    }
}

/// Each choice of a root entry with each of a second one.
fn combinations(rt: &impl Abort, alloc: Global, case: &Case) -> Vec<News> {
    let words = choices(rt, alloc, case);
    let mut all = Vec::new(alloc);
    for root in &words {
        add_pairs(rt, &mut all, *root, &words);
    }
    all
}

/// Whether a row has this new entry, or none.
fn has_entry(entries: &Option<Set>, given: Option<u32>) -> bool {
    match (entries, given) {
        (None, None) => true,
        (Some(set), Some(w)) => set.has(w),
        _ => false,
    }
}

/// Whether an address counts for a row: where its indices in both tables have to differ, they do.
fn counts(row: &Row, ea: u32) -> bool {
    !row.apart || ea / 0x40_0000 != ea / 0x1000 % 0x400
}

fn has(row: &Row, ea: u32, news: News) -> bool {
    let is_there = row.ea.has(ea) && counts(row, ea);
    is_there && has_entry(&row.root, news.root) && has_entry(&row.leaf, news.leaf)
}

/// Where a row leads an address.
fn led(rt: &impl Abort, end: RowEnd, ea: u32) -> WalkEnd {
    match end {
        RowEnd::Pa { base, mask } => WalkEnd::Pa(
            base.checked_add(ea & mask).expect(rt, "an address"),
        ),
        RowEnd::Fault(cause) => WalkEnd::Fault(cause),
        RowEnd::Outside => WalkEnd::Outside,
    }
}

/// The rows that have a combination are one with this end, or none.
fn assert_end(rt: &impl Abort, found: &[Row], ea: u32, news: News, want: Option<WalkEnd>) {
    let mut end = None;
    for row in found {
        if has(row, ea, news) {
            assert!(rt; end.is_none(), "{ea:x} {news:?} is in two rows");
            end = Some(led(rt, row.end, ea));
        }
    }
    assert_eq!(rt; end, want, "{ea:x} {news:?}");
}

/// Compares the rows with the walks of an address, with each choice of new entries.
fn assert_address(
    rt: &impl Abort,
    alloc: Global,
    case: &Case,
    view: View,
    kind: Kind,
    found: &[Row],
    ea: u32,
) {
    let inside = case.pages.iter().any(|p| p.0 <= ea && ea <= p.1);
    for news in &combinations(rt, alloc, case) {
        let want = if inside && have_form(case, *news) {
            end_of(rt, alloc, case, view, kind, ea, *news)
        } else {
            None
        };
        assert_end(rt, found, ea, *news, want);
    }
}

/// Compares the rows of a case with the walks of its addresses.
pub fn assert_rows(rt: &impl Abort, alloc: Global, case: &Case, view: View, kind: Kind) {
    let found = rows_of(rt, alloc, case, view, kind);
    for ea in &case.some {
        assert_address(rt, alloc, case, view, kind, &found, *ea);
    }
}
