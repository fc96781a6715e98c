// What is seen of a test that is being made.
use crate::making::Making;
use foot_map::Clash;
use rv_csr::{Csrs, Priv};
use rv_hart::Seen;
use rv_script::Role;

/// What is seen of a hart.
#[derive(Clone, Copy, PartialEq, Eq)]
pub struct HartView {
    pub pc: u32,
    pub privilege: Priv,
    pub regs: [Option<u32>; 32],
    pub csrs: Csrs,
    /// How many records it has.
    pub records: usize,
    /// Where its last one leads to.
    pub next: Option<u32>,
}

/// What is seen of a test: its harts, of which there are one or two, some words and bytes of memory, two names, and how
/// many changes stand.
#[derive(Clone, Copy, PartialEq, Eq)]
pub struct View {
    pub mark: usize,
    pub first: HartView,
    pub second: Option<HartView>,
    pub words: [Seen; 8],
    pub names: [Option<u32>; 2],
    pub clashes: [Option<Clash>; 4],
}

fn hart_view(making: &Making, k: u8) -> Option<HartView> {
    let hart = making.hart(k)?;
    let records = making.records(k)?;
    Some(HartView {
        pc: hart.pc,
        privilege: hart.privilege,
        regs: hart.regs,
        csrs: hart.csrs,
        records: records.len(),
        next: records.last().map(|did| did.next_pc),
    })
}

fn words_of(making: &Making) -> [Seen; 8] {
    [
        making.memory(0x8000_0000),
        making.memory(0x8000_0004),
        making.memory(0x8000_0008),
        making.memory(0x8000_0100),
        making.memory(0x8000_0104),
        making.memory(0x8000_0800),
        making.memory(0x8000_0804),
        making.memory(0x8000_0808),
    ]
}

/// With what a store would clash.
fn clashes_of(making: &Making) -> [Option<Clash>; 4] {
    [
        making.clash(0, Role::Store, 0x8000_0000),
        making.clash(1, Role::Store, 0x8000_0800),
        making.clash(0, Role::Store, 0x8000_0801),
        making.clash(1, Role::Store, 0x8000_0804),
    ]
}

/// What is seen of a test that has a hart.
pub fn view_of(making: &Making) -> Option<View> {
    Some(View {
        mark: making.mark(),
        first: hart_view(making, 0)?,
        second: hart_view(making, 1),
        words: words_of(making),
        names: [making.name(0), making.name(1)],
        clashes: clashes_of(making),
    })
}
