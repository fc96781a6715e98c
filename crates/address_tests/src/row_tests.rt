// Rows of worked memories, and rows against every single combination.
use crate::cases::{case_of, rows_of};
use crate::combinations::assert_rows;
use addr_rows::{Row, RowEnd};
use dom_set::Set;
use rv_csr::{Cause, Priv};
use std::alloc::Global;
use std::process::Abort;
use std::test::Fail;
use sv_walk::{Kind, View};
use test_rows::Row as Line;

const SUPERVISOR: View = View {
    satp: 0x8008_0001,
    privilege: Priv::S,
    sum: false,
    mxr: false,
};

/// The only row.
fn only<'a>(rt: &impl Abort, found: &'a [Row], text: &str) -> &'a Row {
    assert_eq!(rt; found.len(), 1, "{text}");
    found.first().expect(rt, text)
}

/// The end of a row: `at`, base and mask, `fault` with its cause, `outside`.
fn end_of(line: &mut Line<'_>) -> Result<RowEnd, Fail> {
    match line.word()? {
        "at" => Ok(RowEnd::Pa {
            base: line.number()?,
            mask: line.number()?,
        }),
        "fault" => Ok(RowEnd::Fault(line.cause()?)),
        "outside" => Ok(RowEnd::Outside),
        _ => Err(line.lacks("end")),
    }
}

/// The end of RAM, the root and the second entry of the page 0x00400000, the privilege, SUM and MXR, the kind of access, and
/// the end of the page's only row.
const KNOWN: &str = "\
80004000 20000801 20000cc7 S no no load at 80003000 fff
80004000 20000801 20000cc7 S no no store at 80003000 fff
80004000 20000801 20000c47 S no no load at 80003000 fff # D is 0.
80004000 20000801 20000c47 S no no store fault 15
80004000 20000801 20000cc7 U no no load fault 13
80004000 20000801 20000cc5 S no no load fault 13 # W without R, and a pointer.
80004000 20000801 20000801 S no no load fault 13
80004000 200008c1 20000cc7 S no no load outside # A pointer with A and D.
80004000 200004cf 0 S no no load fault 13 # Superpages.
80400000 200000cf 0 S no no load at 80000000 3fffff
80004000 20002001 0 S no no load fault 5 # The second entry, and the page, outside RAM, below and above 2^32.
80004000 c0000001 0 S no no store fault 7
80004000 20000801 200020cf S no no load fault 5
80004000 20000801 e0000ccf S no no fetch fault 1
80004000 20000801 20000cdf S no no load fault 13 # SUM, and MXR.
80004000 20000801 20000cdf S yes no load at 80003000 fff
80004000 20000801 20000cc9 S no no load fault 13
80004000 20000801 20000cc9 S no yes load at 80003000 fff";

fn assert_known(rt: &impl Abort, alloc: Global, text: &str) -> Result<(), Fail> {
    let mut line = Line::of(text);
    let mut case = case_of(alloc, "pages 400000-400fff")?;
    case.end = line.number()?;
    let entries = [0x8000_1004, 0x8000_2000];
    for addr in entries {
        case.words.push((addr, line.number()?))?;
    }
    let view = line.view()?;
    let kind = line.kind()?;
    let found = rows_of(rt, alloc, &case, view, kind);
    let row = only(rt, &found, text);
    assert_eq!(rt; row.end, end_of(&mut line)?, "{text}");
    assert_eq!(rt; row.ea.size(), 4096, "{text}");
    assert!(rt; row.root.is_none() && row.leaf.is_none(), "{text}");
    Ok(())
}

#[test]
fn a_mapped_page_is_one_row(rt: HostRuntime) -> Result<(), Fail> {
    for line in KNOWN.lines() {
        assert_known(&rt, rt.alloc(), line)?;
    }
    Ok(())
}

#[test]
fn without_translation_ram_is_one_row_and_the_rest_another(rt: HostRuntime) -> Result<(), Fail> {
    let alloc = rt.alloc();
    let case = case_of(alloc, "ram 80004000\npages 0-ffffffff")?;
    let view = View {
        privilege: Priv::M,
        ..SUPERVISOR
    };
    let found = rows_of(&rt, alloc, &case, view, Kind::Load);
    assert_eq!(rt; found.len(), 2);
    for row in &found {
        let want = match row.end {
            RowEnd::Pa {
                base: 0,
                mask: 0xffff_ffff,
            } => 0x4000,
            RowEnd::Fault(Cause::LoadAccess) => 0xffff_c000,
            _ => 0,
        };
        assert_eq!(rt; row.ea.size(), want);
    }
    Ok(())
}

/// The page 0x00802000 has no entry yet; the root table and the table of the fetched page are known in part.
const OPEN: &str = "\
ram 80005000
words 80001004=20000801 80002000=20000c4b
tables 80001000
pool 80003000 80004000
pages 802000-802000";

/// Whether a set has just these words.
fn is_just(set: &Option<Set>, words: &[u32]) -> bool {
    match set {
        Some(set) => set.size() == words.len() as u64 && words.iter().all(|w| set.has(*w)),
        None => false,
    }
}

/// The rows of loads from the open page with these flag bytes.
fn open_rows(rt: &impl Abort, alloc: Global, flags: &[u8]) -> Result<Vec<Row>, Fail> {
    let mut case = case_of(alloc, OPEN)?;
    case.flags.extend_from_slice(flags)?;
    Ok(rows_of(rt, alloc, &case, SUPERVISOR, Kind::Load))
}

#[test]
fn a_superpage_that_is_closed_faults_as_an_invalid_one(rt: HostRuntime) -> Result<(), Fail> {
    let found = open_rows(&rt, rt.alloc(), &[0x00, 0xdf])?;
    let row = only(&rt, &found, "the open page");
    assert!(rt; is_just(&row.root, &[0x2000_0000, 0x2000_00df]) && row.leaf.is_none());
    assert_eq!(rt; row.end, RowEnd::Fault(Cause::LoadPage));
    Ok(())
}

#[test]
fn a_superpage_that_is_open_is_a_row(rt: HostRuntime) -> Result<(), Fail> {
    let found = open_rows(&rt, rt.alloc(), &[0x00, 0xcf, 0x00])?;
    assert_eq!(rt; found.len(), 2);
    for row in &found {
        match row.end {
            RowEnd::Pa { base, mask } => {
                assert_eq!(rt; (base, mask), (0x8000_0000, 0x3f_ffff));
                assert!(rt; is_just(&row.root, &[0x2000_00cf]) && row.leaf.is_none());
            }
            end => assert_eq!(rt; end, RowEnd::Fault(Cause::LoadPage)),
        }
    }
    Ok(())
}

#[test]
fn the_page_of_the_first_example_faults(rt: HostRuntime) -> Result<(), Fail> {
    let found = open_rows(&rt, rt.alloc(), &[0x00])?;
    let row = only(&rt, &found, "the open page");
    assert!(rt; is_just(&row.root, &[0x2000_0000]) && row.leaf.is_none());
    assert_eq!(rt; row.end, RowEnd::Fault(Cause::LoadPage));
    Ok(())
}

/// Pages and superpages, into RAM and around its end; flags listed twice; pointers by flags.
const WIDE: &str = "\
ram 80004000
words 80001004=20000801 80002000=20000c4b
tables 80001000 80002000
pool 80003000 80004000
flags cf 01 cf
pages 0-ffffffff
some 400abc 802000 ffffffff";

/// One page.
const PAGE: &str = "\
ram 80004000
words 80001004=20000801 80002000=20000c4b
tables 80001000 80002000 80003000
pool 80003000
flags 00 c9 c1
pages 802000-802fff
some 802000 802fff 803000";

/// Tables that are alike, one outside RAM, and new entries that may stand in the second table alone.
const TABLES: &str = "\
ram 80004000
words 80001004=20000801 80001008=20001001
tables 80002000 80003000 80004000
pool 80003000
flags 4f df
pages 400000-4fffff 800000-800fff c00000-c00fff
some 400000 4ff000 800000 c00000";

/// Two entries of the root table, where RAM ends, and no forms.
const ROOT: &str = "\
ram 80001008
words 80001004=200008c1
tables 80001000
pages 0-ffffffff
some 0 400000 c00000";

/// Pages whose new root entry may lead back to the root table, which has no second entry but one. The page 0x00802000 has equal
/// indices.
const BACK: &str = "\
ram 80004000
words 80001004=20000801
tables 80001000
pool 80003000
flags cf 00
pages 800000-bfffff
some 801000 802000 802fff 803000 bff000";

/// Compares rows with walks for each kind of access, each privilege, SUM and MXR.
fn assert_case(rt: &impl Abort, alloc: Global, text: &str) -> Result<(), Fail> {
    let case = case_of(alloc, text)?;
    for kind in [Kind::Fetch, Kind::Load, Kind::Store] {
        for privilege in [Priv::U, Priv::S, Priv::M] {
            for marks in 0..4u32 {
                let view = View {
                    privilege,
                    sum: marks % 2 == 1,
                    mxr: marks / 2 == 1,
                    ..SUPERVISOR
                };
                assert_rows(rt, alloc, &case, view, kind);
            }
        }
    }
    Ok(())
}

#[test]
fn rows_of_all_addresses_are_what_walks_find(rt: HostRuntime) -> Result<(), Fail> {
    assert_case(&rt, rt.alloc(), WIDE)
}

#[test]
fn rows_of_a_page_are_what_walks_find(rt: HostRuntime) -> Result<(), Fail> {
    assert_case(&rt, rt.alloc(), PAGE)
}

#[test]
fn rows_of_alike_tables_are_what_walks_find(rt: HostRuntime) -> Result<(), Fail> {
    assert_case(&rt, rt.alloc(), TABLES)
}

#[test]
fn rows_without_forms_are_what_walks_find(rt: HostRuntime) -> Result<(), Fail> {
    assert_case(&rt, rt.alloc(), ROOT)
}

#[test]
fn rows_behind_an_entry_that_leads_back_are_what_walks_find(rt: HostRuntime) -> Result<(), Fail> {
    let alloc = rt.alloc();
    assert_case(&rt, alloc, BACK)?;
    let case = case_of(alloc, BACK)?;
    let found = rows_of(&rt, alloc, &case, SUPERVISOR, Kind::Load);
    let both = |row: &Row| row.ea.has(0x0080_2000) && row.ea.has(0x0080_3000);
    assert!(rt; found.iter().any(|row| row.apart && both(row)));
    Ok(())
}

/// Most of what may be open at once: eight frames for tables, 32 frames to lead to, eight flags.
const OPEN_ROOT: &str = "\
ram 80100000
words 80001004=20000801 80002000=20000c4b
tables 80001000 80002000 80004000 80005000 80006000 80007000 80008000 80009000
pool 80010000 80011000 80012000 80013000 80014000 80015000 80016000 80017000
pool 80018000 80019000 8001a000 8001b000 8001c000 8001d000 8001e000 8001f000
pool 80020000 80021000 80022000 80023000 80024000 80025000 80026000 80027000
pool 80028000 80029000 8002a000 8002b000 8002c000 8002d000 8002e000 8002f000
flags 00 cf df c7 4f 43 0f d7";

/// There are rows of these pages under the open root, and fewer than a number; some are of addresses whose indices have to
/// differ, or none is. The addresses of each are in few pieces.
fn assert_few(
    rt: &impl Abort,
    alloc: Global,
    pages: (u32, u32),
    bound: usize,
    apart: bool,
) -> Result<(), Fail> {
    let mut case = case_of(alloc, OPEN_ROOT)?;
    case.pages.push(pages)?;
    let found = rows_of(rt, alloc, &case, SUPERVISOR, Kind::Load);
    let count = found.len();
    assert!(rt; 0 < count && count < bound, "{count} rows");
    assert_eq!(rt; found.iter().any(|row| row.apart), apart);
    for row in &found {
        let pieces = row.ea.spans(alloc).expect(rt, "memory").len();
        assert!(rt; pieces < 128, "{pieces} pieces");
    }
    Ok(())
}

#[test]
fn rows_under_an_open_root_are_few(rt: HostRuntime) -> Result<(), Fail> {
    assert_few(&rt, rt.alloc(), (0x0080_2000, 0x0080_2fff), 100, false)?;
    assert_few(&rt, rt.alloc(), (0x0080_3000, 0x0080_3fff), 100, false)?;
    assert_few(&rt, rt.alloc(), (0, 0xffff_ffff), 200, true)
}
