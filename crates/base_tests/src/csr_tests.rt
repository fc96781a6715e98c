//! The table of the registers, accesses, traps and returns, as the Privileged manual and this
//! machine's profile have them.
use rv_csr::{
    CAUSES, CsrAccess, Csrs, Got, LazyRegister, Priv, REGISTERS, Register, Wrote, csr_laws,
    is_cause, legal, row_of, vector_register,
};
use std::process::Abort;
use std::test::Fail;
use test_rows::Row;

/// The registers in the order of their addresses: the address and the name, the lowest privilege that
/// has access, whether the register is read-only, whether it has no first value; words that are
/// legal; words that are not.
const LINES: &str = "\
100 sstatus S no no : 0 2 100 c0122 : 1 8 20000 80000000 c0123
105 stvec S no yes : 0 80000400 fffffffc : 1 2 80000401 ffffffff
140 sscratch S no yes : 0 1 ffffffff :
141 sepc S no yes : 0 80000010 fffffffc : 1 2 80000013
142 scause S no yes : 0 1 2 3 4 5 6 7 8 9 c d f : a b e 10 80000001
143 stval S no yes : 0 3 ffffffff :
180 satp S no no : 0 80000000 80080001 800fffff : 1 7fffffff 80100000 80400000 ffffffff
300 mstatus M no no : 0 800 1800 400000 5e09aa 5e19aa : 1 4 1000 5e11aa 200000 2000 80000000
302 medeleg M no no : 0 100 b3ff : 400 800 4000 10000
305 mtvec M no yes : 0 80000200 fffffffc : 1 2 3
340 mscratch M no yes : 0 1 ffffffff :
341 mepc M no yes : 0 400000 fffffffc : 1 2 3
342 mcause M no yes : 0 1 2 3 4 5 6 7 8 9 b c d f : a e 10 80000007
343 mtval M no yes : 0 10200073 ffffffff :
f14 mhartid M yes no : : 0 3 ffffffff";

#[derive(Drop)]
struct Line<'a> {
    address: u16,
    name: &'a str,
    lowest: Priv,
    read_only: bool,
    lazy: bool,
    legal: &'a str,
    illegal: &'a str,
}

/// The number of the hart.
const HART: u32 = 3;

fn line_of<'a>(text: &'a str) -> Result<Line<'a>, Fail> {
    let (front, words) = text.split_once(':').ok_or("words")?;
    let (legal, illegal) = words.split_once(':').ok_or("illegal words")?;
    let mut row = Row::of(front);
    let line = Line {
        address: row.address()?,
        name: row.word()?,
        lowest: row.privilege()?,
        read_only: row.answer()?,
        lazy: row.answer()?,
        legal,
        illegal,
    };
    row.end()?;
    Ok(line)
}

/// The words are legal at the address, or none is.
fn assert_legal(rt: &impl Abort, address: u16, words: &str, want: bool) -> Result<(), Fail> {
    for word in words.split_whitespace() {
        let value = Row::of(word).number()?;
        assert_eq!(rt; legal(address, value), want, "{word}");
    }
    Ok(())
}

fn assert_row(rt: &impl Abort, register: Register, line: &Line<'_>) {
    let row = row_of(register);
    assert_eq!(rt; row.name(), line.name);
    assert_eq!(rt; row.address(), line.address);
    assert_eq!(rt; row.key(), 0x1000 + u32::from(line.address));
}

#[test]
fn each_register_has_its_name_address_key_and_legal_words(rt: HostRuntime) -> Result<(), Fail> {
    for (register, text) in REGISTERS.iter().zip(LINES.lines()) {
        let line = line_of(text)?;
        assert_row(&rt, *register, &line);
        assert_legal(&rt, line.address, line.legal, true)?;
        assert_legal(&rt, line.address, line.illegal, false)?;
    }
    assert_eq!(rt; LINES.lines().count(), REGISTERS.len());
    assert!(rt; !legal(0x304, 0), "mie is not modelled");
    Ok(())
}

/// A hart of which no lazy register is known.
fn first() -> Csrs {
    Csrs::new(HART, 0, 0, 0)
}

fn read(csrs: &Csrs, address: u16, p: Priv) -> Got {
    csrs.read(address, p)
}

fn write(csrs: &mut Csrs, address: u16, p: Priv, value: u32) -> Wrote {
    csrs.write(address, p, value)
}

/// What a read in a privilege comes to.
fn readable(line: &Line<'_>, p: Priv) -> Got {
    if p.level() < line.lowest.level() {
        Got::Denied
    } else if line.lazy {
        Got::Untouched
    } else if line.read_only {
        Got::Value(HART)
    } else {
        Got::Value(0)
    }
}

fn assert_read(rt: &impl Abort, line: &Line<'_>, p: Priv) {
    assert_eq!(rt;
        read(&first(), line.address, p),
        readable(line, p),
        "{}",
        line.name
    );
}

#[test]
fn each_register_is_read_where_the_privilege_suffices(rt: HostRuntime) -> Result<(), Fail> {
    for text in LINES.lines() {
        let line = line_of(text)?;
        assert_read(&rt, &line, Priv::U);
        assert_read(&rt, &line, Priv::S);
        assert_read(&rt, &line, Priv::M);
    }
    Ok(())
}

fn assert_write(rt: &impl Abort, line: &Line<'_>, p: Priv, value: u32, want: Wrote) {
    let mut csrs = first();
    let wrote = write(&mut csrs, line.address, p, value);
    assert_eq!(rt; wrote, want, "{} {value:#x}", line.name);
    if wrote == Wrote::Done {
        let read = read(&csrs, line.address, p);
        assert_eq!(rt; read, Got::Value(value), "{}", line.name);
    } else {
        assert_eq!(rt; csrs, first(), "{}", line.name);
    }
}

/// What a write in a privilege comes to, where one with enough of it comes to `fits`.
fn writable(line: &Line<'_>, p: Priv, fits: Wrote) -> Wrote {
    if p.level() < line.lowest.level() || line.read_only {
        Wrote::Denied
    } else {
        fits
    }
}

/// Each word is written in each privilege.
fn assert_writes(rt: &impl Abort, line: &Line<'_>, words: &str, fits: Wrote) -> Result<(), Fail> {
    for word in words.split_whitespace() {
        let value = Row::of(word).number()?;
        assert_write(rt, line, Priv::U, value, writable(line, Priv::U, fits));
        assert_write(rt, line, Priv::S, value, writable(line, Priv::S, fits));
        assert_write(rt, line, Priv::M, value, writable(line, Priv::M, fits));
    }
    Ok(())
}

#[test]
fn each_register_keeps_a_legal_word_and_no_other(rt: HostRuntime) -> Result<(), Fail> {
    for text in LINES.lines() {
        let line = line_of(text)?;
        assert_writes(&rt, &line, line.legal, Wrote::Done)?;
        assert_writes(&rt, &line, line.illegal, Wrote::Outside)?;
    }
    Ok(())
}

/// The address, the privilege, whether the access writes, and the register to which it is granted.
const ACCESSES: &str = "\
100 S yes sstatus
100 U no denied
180 S no denied
180 M yes satp
305 S no denied
f14 M no mhartid
f14 M yes denied
f14 U no denied
304 U no outside";

fn access_named(rt: &impl Abort, name: &str) -> CsrAccess {
    if name == "denied" {
        return CsrAccess::Denied;
    }
    if name == "outside" {
        return CsrAccess::Outside;
    }
    let register = REGISTERS.iter().find(|x| row_of(**x).name() == name);
    CsrAccess::Granted(*register.expect(rt, name))
}

#[test]
fn access_is_granted_denied_or_outside(rt: HostRuntime) -> Result<(), Fail> {
    // While TVM is set.
    let csrs = Csrs::new(HART, 0x0010_0000, 0, 0);
    for line in ACCESSES.lines() {
        let mut row = Row::of(line);
        let (address, p) = (row.address()?, row.privilege()?);
        let access = csrs.access(address, p, row.answer()?);
        assert_eq!(rt; access, access_named(&rt, row.word()?), "{line}");
    }
    Ok(())
}

#[test]
fn a_lazy_register_has_the_value_that_it_starts_with(rt: HostRuntime) {
    let mut csrs = Csrs::new(HART, 0x0010_0000, 0, 0);
    assert_eq!(rt; csrs.lazy_at(0x341), None);
    csrs.start(0x341, 0x0040_0000);
    assert_eq!(rt; csrs.lazy_at(0x341), Some(0x0040_0000));
    assert_eq!(rt; csrs.lazy_at(0x300), None);
    csrs.legal_values();
    csr_laws();
}

/// Addresses of registers that are not modelled, and what is no address.
const OTHERS: &str = "0 104 144 301 304 3a0 b00 c00 f11 fff ffff";

fn assert_outside(rt: &impl Abort, address: u16, p: Priv) {
    assert_eq!(rt; read(&first(), address, p), Got::Outside, "{address:#x}");
    assert_eq!(rt;
        write(&mut first(), address, p, 0),
        Wrote::Outside,
        "{address:#x}"
    );
}

#[test]
fn other_addresses_are_outside_in_each_privilege(rt: HostRuntime) -> Result<(), Fail> {
    for word in OTHERS.split_whitespace() {
        let address = Row::of(word).address()?;
        assert_outside(&rt, address, Priv::U);
        assert_outside(&rt, address, Priv::S);
        assert_outside(&rt, address, Priv::M);
    }
    Ok(())
}

#[test]
fn sstatus_is_a_view_of_mstatus(rt: HostRuntime) {
    let mut csrs = Csrs::new(HART, 0x005e_19aa, 0, 0);
    assert_eq!(rt; read(&csrs, 0x100, Priv::S), Got::Value(0x000c_0122));
    assert_eq!(rt; write(&mut csrs, 0x100, Priv::S, 0x0004_0002), Wrote::Done);
    assert_eq!(rt; csrs.mstatus(), 0x0056_188a);
}

#[test]
fn satp_is_denied_to_s_while_tvm_is_set(rt: HostRuntime) {
    let mut csrs = Csrs::new(HART, 0x0010_0000, 0, 0);
    assert_eq!(rt; read(&csrs, 0x180, Priv::S), Got::Denied);
    assert_eq!(rt;
        write(&mut csrs, 0x180, Priv::S, 0x8000_0000),
        Wrote::Denied
    );
    assert_eq!(rt; read(&csrs, 0x180, Priv::M), Got::Value(0));
    assert_eq!(rt; write(&mut csrs, 0x180, Priv::M, 0x8000_0000), Wrote::Done);
    assert_eq!(rt; csrs.satp(), 0x8000_0000);
}

const NUMBERS: [u8; 14] = [0, 1, 2, 3, 4, 5, 6, 7, 8, 9, 11, 12, 13, 15];

#[test]
fn the_causes_are_0_to_9_and_11_12_13_15(rt: HostRuntime) {
    for number in 0..64u8 {
        assert_eq!(rt;
            is_cause(u32::from(number)),
            NUMBERS.contains(&number),
            "{number}"
        );
    }
}

#[test]
fn each_cause_has_its_number(rt: HostRuntime) {
    for (cause, number) in CAUSES.iter().zip(NUMBERS) {
        assert_eq!(rt; cause.number(), number);
    }
}

/// Where the traps are taken.
const PC: u32 = 0x8000_0010;

/// Traps: the privilege, the cause and the trap value, mstatus and medeleg before it,
/// the privilege and mstatus after it.
const TRAPS: &str = "\
U 8 0 0 100 S 0
S 2 10200073 400000 0 M 400800
M 3 80000010 0 0 M 1800
U 2 f14020f3 0 0 M 0
U 2 f14020f3 0 4 S 0
S 13 400000 2 2000 S 120
S 15 400000 8 2000 M 880
M 2 0 8 b3ff M 1880
U 8 0 5e19aa 100 S 5e18a8";

#[derive(Drop)]
struct Trap<'a> {
    line: &'a str,
    from: Priv,
    cause: u8,
    value: u32,
    mstatus: u32,
    medeleg: u32,
    to: Priv,
    after: u32,
}

fn trap_of<'a>(line: &'a str) -> Result<Trap<'a>, Fail> {
    let mut row = Row::of(line);
    let trap = Trap {
        line,
        from: row.privilege()?,
        cause: row.small()?,
        value: row.number()?,
        mstatus: row.number()?,
        medeleg: row.number()?,
        to: row.privilege()?,
        after: row.number()?,
    };
    row.end()?;
    Ok(trap)
}

/// Where traps to S and to M leave the pc, the cause and the trap value.
const LEFT_TO_S: [u16; 3] = [0x141, 0x142, 0x143];

const LEFT_TO_M: [u16; 3] = [0x341, 0x342, 0x343];

fn assert_left(
    rt: &impl Abort,
    csrs: &Csrs,
    addresses: [u16; 3],
    want: [Option<u32>; 3],
    row: &str,
) {
    for (address, value) in addresses.iter().zip(want) {
        assert_eq!(rt; csrs.lazy_at(*address), value, "{row}");
    }
}

/// Takes the trap: the registers after it, its vector before there was one, and where it goes.
fn taken(rt: &impl Abort, trap: &Trap<'_>) -> (Csrs, (Priv, Option<u32>), (Priv, u32)) {
    assert!(rt; is_cause(u32::from(trap.cause)));
    assert!(rt; legal(0x300, trap.mstatus));
    assert!(rt; legal(0x302, trap.medeleg));
    let mut csrs = Csrs::new(HART, trap.mstatus, trap.medeleg, 0);
    let none = csrs.vector(trap.from, trap.cause);
    csrs.start(0x105, 0x8000_0400);
    csrs.start(0x305, 0x8000_0200);
    let entered = csrs.enter_trap(trap.from, trap.cause, PC, trap.value);
    (csrs, none, entered)
}

fn assert_trap(rt: &impl Abort, trap: &Trap<'_>) {
    let (vector, register) = match trap.to {
        Priv::S => (0x8000_0400, LazyRegister::Stvec),
        Priv::M | Priv::U => (0x8000_0200, LazyRegister::Mtvec),
    };
    assert_eq!(rt; vector_register(trap.to), register);
    let (csrs, none, entered) = taken(rt, trap);
    assert_eq!(rt; none, (trap.to, None), "{}", trap.line);
    assert_eq!(rt; entered, (trap.to, vector), "{}", trap.line);
    assert_eq!(rt; csrs.mstatus(), trap.after, "{}", trap.line);
    assert_saved(rt, &csrs, trap);
}

/// The registers of the privilege that took the trap tell it, and those of the other one tell nothing.
fn assert_saved(rt: &impl Abort, csrs: &Csrs, trap: &Trap<'_>) {
    let saved = [Some(PC), Some(u32::from(trap.cause)), Some(trap.value)];
    let (to_supervisor, to_machine) = match trap.to {
        Priv::S => (saved, [None; 3]),
        Priv::M | Priv::U => ([None; 3], saved),
    };
    assert_left(rt, csrs, LEFT_TO_S, to_supervisor, trap.line);
    assert_left(rt, csrs, LEFT_TO_M, to_machine, trap.line);
}

#[test]
fn traps_go_where_medeleg_says_and_save_what_they_left(rt: HostRuntime) -> Result<(), Fail> {
    for line in TRAPS.lines() {
        assert_trap(&rt, &trap_of(line)?);
    }
    Ok(())
}

/// mstatus, the privilege and mstatus after MRET.
const MRETS: &str = "\
0 U 80
21880 M 20088
20808 S 80
5e19aa M 5e01aa";

/// mstatus, the privilege and mstatus after SRET.
const SRETS: &str = "\
0 U 20
2 U 20
20122 S 22
5e19aa S 5c18aa";

fn assert_mret(rt: &impl Abort, mstatus: u32, to: Priv, after: u32) {
    assert!(rt; legal(0x300, mstatus));
    let mut csrs = Csrs::new(HART, mstatus, 0, 0);
    csrs.start(0x341, 0x0040_0000);
    assert_eq!(rt; csrs.mret(), (to, 0x0040_0000), "{mstatus:#x}");
    assert_eq!(rt; csrs.mstatus(), after, "{mstatus:#x}");
    assert_eq!(rt; csrs.lazy(LazyRegister::Mepc), Some(0x0040_0000));
}

fn assert_sret(rt: &impl Abort, mstatus: u32, to: Priv, after: u32) {
    assert!(rt; legal(0x300, mstatus));
    let mut csrs = Csrs::new(HART, mstatus, 0, 0);
    csrs.start(0x141, 0x0040_0000);
    assert_eq!(rt; csrs.sret(), (to, 0x0040_0000), "{mstatus:#x}");
    assert_eq!(rt; csrs.mstatus(), after, "{mstatus:#x}");
}

#[test]
fn mret_goes_back_to_mpp(rt: HostRuntime) -> Result<(), Fail> {
    for line in MRETS.lines() {
        let mut row = Row::of(line);
        let (mstatus, to) = (row.number()?, row.privilege()?);
        assert_mret(&rt, mstatus, to, row.number()?);
    }
    Ok(())
}

#[test]
fn sret_goes_back_to_spp(rt: HostRuntime) -> Result<(), Fail> {
    for line in SRETS.lines() {
        let mut row = Row::of(line);
        let (mstatus, to) = (row.number()?, row.privilege()?);
        assert_sret(&rt, mstatus, to, row.number()?);
    }
    Ok(())
}

/// mstatus; whether MPRV, SUM, MXR, TVM and TSR are set; MPP; the effective privilege of a data
/// access in S.
const FIELDS: &str = "\
0 no no no no no U S
20000 yes no no no no U U
40800 no yes no no no S S
81800 no no yes no no M S
100000 no no no yes no U S
400000 no no no no yes U S
21800 yes no no no no M M";

fn flags_of(csrs: &Csrs) -> [bool; 5] {
    [csrs.mprv(), csrs.sum(), csrs.mxr(), csrs.tvm(), csrs.tsr()]
}

fn privileges_of(csrs: &Csrs) -> [Priv; 2] {
    [csrs.mpp(), csrs.effective_privilege(Priv::S)]
}

fn csrs_with(rt: &impl Abort, mstatus: u32) -> Csrs {
    assert!(rt; legal(0x300, mstatus), "{mstatus:#x}");
    Csrs::new(HART, mstatus, 0xb3ff, 0)
}

fn assert_fields(rt: &impl Abort, line: &str) -> Result<(), Fail> {
    let mut row = Row::of(line);
    let csrs = csrs_with(rt, row.number()?);
    for flag in flags_of(&csrs) {
        assert_eq!(rt; flag, row.answer()?, "{line}");
    }
    for p in privileges_of(&csrs) {
        assert_eq!(rt; p, row.privilege()?, "{line}");
    }
    assert_eq!(rt; csrs.medeleg(), 0xb3ff);
    assert_eq!(rt; csrs.hart(), HART);
    row.end()?;
    Ok(())
}

#[test]
fn the_fields_of_mstatus_are_seen(rt: HostRuntime) -> Result<(), Fail> {
    for line in FIELDS.lines() {
        assert_fields(&rt, line)?;
    }
    Ok(())
}
