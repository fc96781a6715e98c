// Walks through page tables, as the Privileged manual has them in 4.3.
use rv_csr::Priv;
use rv_mem::PartMem;
use std::alloc::Global;
use std::process::Abort;
use std::test::Fail;
use sv_walk::WalkEnd::{Fault, Missing, Outside, Pa};
use sv_walk::{EntryFlag, Kind, View, WalkEnd, walk};
use test_rows::{Row, memory_of};

/// RAM from 0x80000000 to 0x80004000 of which these words are known.
fn memory(alloc: Global, words: &[(u32, u32)]) -> Result<PartMem, Fail> {
    memory_of(alloc, 0x8000_4000, words)
}

/// The view in S with the root table at 0x80001000, without SUM and MXR.
const SUPERVISOR: View = View {
    satp: 0x8008_0001,
    privilege: Priv::S,
    sum: false,
    mxr: false,
};

/// Pages by their second entries, whose frame is 0x80003000: the root and the second entry of the page 0x00400000, the
/// privilege, SUM and MXR, the kind of access to 0x00400ABC, and its end, `fault` with its cause.
const PAGES: &str = "\
20000801 20000cc7 S no no load at 80003abc
20000801 20000cc7 S no no store at 80003abc
20000801 20000c47 S no no load at 80003abc # D is 0.
20000801 20000c47 S no no store fault 15
20000801 20000cc7 U no no load fault 13
20000801 20000cc5 S no no load fault 13 # W without R, V is 0, a pointer.
20000801 20000cc6 S no no load fault 13
20000801 20000801 S no no load fault 13
20000801 20000801 S no no fetch fault 12
20000801 20000c8f S no no load fault 13 # A is 0.
20000801 20000c8f S no no fetch fault 12
20000801 20000c8f S no no store fault 15
20000801 20000cc7 S no no fetch fault 12 # X is 0, and X is 1.
20000801 20000c4f S no no fetch at 80003abc
20000801 20000cc9 S no no load fault 13 # Executable only, without and with MXR.
20000801 20000cc9 S no yes load at 80003abc
20000801 20000cc9 S no yes store fault 15
20000801 20000cc3 S no no load at 80003abc
20000801 20000cc3 S no no store fault 15
20000801 20000cdf U no no load at 80003abc # A page of U, from U and from S without and with SUM.
20000801 20000cdf U no no fetch at 80003abc
20000801 20000cdf S no no load fault 13
20000801 20000cdf S yes no load at 80003abc
20000801 20000cdf S yes no store at 80003abc
20000801 20000cdf S yes no fetch fault 12
20000801 20000ccf U yes yes load fault 13
20000801 20000cce S no no fetch fault 12 # The rules by the other kinds of access.
20000801 20000cce S no no store fault 15
20000801 20000ccd S no no fetch fault 12
20000801 20000ccd S no no store fault 15
20000801 20000801 S no no store fault 15
20000801 20000ccf U no no store fault 15
20000801 20000cdf S no no store fault 15
20000801 20000cdf S no no fetch fault 12
20000801 20000fef S no no store at 80003abc # G and bits 9:8 change nothing.";

/// Root entries, and what lies outside RAM.
const ROOTS: &str = "\
200008c1 20000cc7 S no no load outside # Pointers with A and D, with U.
20000811 20000cc7 S no no load outside
20000800 20000cc7 S no no load fault 13
20000805 20000cc7 S no no store fault 15
200004cf 00000000 S no no load fault 13 # Superpages.
200004cf 00000000 S no no fetch fault 12
200004cf 00000000 S no no store fault 15
200000cf 00000000 S no no load at 80000abc
2000004f 00000000 S no no store fault 15
200000cf 00000000 U no no fetch fault 12
20002001 00000000 S no no load fault 5 # The second entry outside RAM, below and above 2^32.
20002001 00000000 S no no fetch fault 1
20002001 00000000 S no no store fault 7
c0000001 00000000 S no no load fault 5
20000801 200020cf S no no load fault 5 # The page outside RAM, below and above 2^32.
20000801 e0000ccf S no no load fault 5
20000801 e0000ccf S no no fetch fault 1
e00000cf 00000000 S no no store fault 7";

fn outcome(memory: &PartMem, view: View, va: u32, kind: Kind) -> WalkEnd {
    walk(memory, view, va, kind).outcome
}

fn reads(memory: &PartMem, view: View, va: u32, kind: Kind, entries: &[(u32, u32)]) -> bool {
    walk(memory, view, va, kind).ptes.as_slice() == entries
}

/// A walk over memory of which these entries are known reads them all, and ends so.
fn assert_read(
    rt: &impl Abort,
    alloc: Global,
    row: &str,
    entries: &[(u32, u32)],
    view: View,
    va: u32,
    kind: Kind,
    want: WalkEnd,
) -> Result<(), Fail> {
    let memory = memory(alloc, entries)?;
    assert_eq!(rt; outcome(&memory, view, va, kind), want, "{row}");
    assert!(rt; reads(&memory, view, va, kind, entries), "{row}");
    Ok(())
}

fn end_of(row: &mut Row<'_>) -> Result<WalkEnd, Fail> {
    match row.word()? {
        "at" => Ok(Pa(row.number()?)),
        "fault" => Ok(Fault(row.cause()?)),
        "outside" => Ok(Outside),
        _ => Err(row.lacks("end")),
    }
}

fn assert_case(rt: &impl Abort, alloc: Global, line: &str) -> Result<(), Fail> {
    let mut row = Row::of(line);
    let words = [(0x8000_1004, row.number()?), (0x8000_2000, row.number()?)];
    let view = row.view()?;
    let kind = row.kind()?;
    let want = end_of(&mut row)?;
    row.end()?;
    let memory = memory(alloc, &words)?;
    assert_eq!(rt; outcome(&memory, view, 0x0040_0abc, kind), want, "{line}");
    Ok(())
}

#[test]
fn pages_let_through_what_they_should(rt: HostRuntime) -> Result<(), Fail> {
    for line in PAGES.lines() {
        assert_case(&rt, rt.alloc(), line)?;
    }
    Ok(())
}

#[test]
fn root_entries_lead_where_they_should(rt: HostRuntime) -> Result<(), Fail> {
    for line in ROOTS.lines() {
        assert_case(&rt, rt.alloc(), line)?;
    }
    Ok(())
}

/// satp, the privilege, the address, the kind of access, and its end with no entry known: where no translation holds,
/// and where the root table lies outside RAM, twice beyond 2^32.
const NO_ENTRIES: &str = "\
80090000 S 400abc fetch fault 1
80090000 S 400abc store fault 7
80100000 S 400abc load fault 5
803fffff S 400abc load fault 5
80080001 M 80000abc load at 80000abc
0 S 80003fff load at 80003fff
0 U 80004000 load fault 5
80080001 M 400abc load fault 5
80090000 S 400abc load fault 5";

/// The view of a row without SUM and MXR.
fn plain_view(row: &mut Row<'_>) -> Result<View, Fail> {
    Ok(View {
        satp: row.number()?,
        privilege: row.privilege()?,
        sum: false,
        mxr: false,
    })
}

fn assert_no_entries(rt: &impl Abort, alloc: Global, line: &str) -> Result<(), Fail> {
    let mut row = Row::of(line);
    let view = plain_view(&mut row)?;
    let (va, kind) = (row.number()?, row.kind()?);
    let want = end_of(&mut row)?;
    row.end()?;
    assert_read(rt, alloc, line, &[], view, va, kind, want)
}

#[test]
fn without_entries_addresses_stay_or_fault(rt: HostRuntime) -> Result<(), Fail> {
    for line in NO_ENTRIES.lines() {
        assert_no_entries(&rt, rt.alloc(), line)?;
    }
    Ok(())
}

#[test]
fn a_superpage_has_the_22_lower_bits(rt: HostRuntime) -> Result<(), Fail> {
    let root = [(0x8000_1004, 0x2000_00cf)];
    for kind in [Kind::Fetch, Kind::Load, Kind::Store] {
        assert_read(
            &rt,
            rt.alloc(),
            "superpage",
            &root,
            SUPERVISOR,
            0x0040_3abc,
            kind,
            Pa(0x8000_3abc),
        )?;
    }
    Ok(())
}

#[test]
fn entries_are_read_in_order(rt: HostRuntime) -> Result<(), Fail> {
    let (alloc, va, load) = (rt.alloc(), 0x0080_2abc, Kind::Load);
    let root = (0x8000_1008, 0x2000_0801);
    let second = (0x8000_2008, 0x2000_0cc7);
    assert_read(
        &rt,
        alloc,
        "page",
        &[],
        SUPERVISOR,
        va,
        load,
        Missing(0x8000_1008),
    )?;
    assert_read(
        &rt,
        alloc,
        "page",
        &[root],
        SUPERVISOR,
        va,
        load,
        Missing(0x8000_2008),
    )?;
    assert_read(
        &rt,
        alloc,
        "page",
        &[root, second],
        SUPERVISOR,
        va,
        load,
        Pa(0x8000_3abc),
    )
}

#[test]
fn the_bits_of_an_entry_are_those_of_the_manual(rt: HostRuntime) {
    let flags = [
        (EntryFlag::Valid, 0x01),
        (EntryFlag::Readable, 0x02),
        (EntryFlag::Writable, 0x04),
        (EntryFlag::Executable, 0x08),
        (EntryFlag::User, 0x10),
        (EntryFlag::Accessed, 0x40),
        (EntryFlag::Dirty, 0x80),
    ];
    for (flag, bit) in flags {
        assert!(rt; flag.is_set(bit));
        assert!(rt; !flag.is_set(!bit));
    }
}
