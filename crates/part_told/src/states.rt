// Harts as a certificate tells them.
ghost use Rattle.std.specs.Prelude.{◌≡◌, ◌++◌, IfOk, OnOk, drop, length, map};
ghost use Rattle.part_machine.specs.Whole.{bare};
ghost use Rattle.std.specs.List.{AllByRecursion};
ghost use Rattle.tpl_ast.specs.States.{IsState};
ghost use Rattle.part_told.specs.Finishing.{known_one, known_from, known_csrs, places_in, told_state, AreSmall};

use crate::OutOfMemory;
use rv_csr::FIRST_KEY;
use rv_hart::Hart;
use std::alloc::{AllocError, Global};
use tpl_ast::{HartState, Items};

/// The addresses of the lazy CSRs, ascending.
const CSRS: [u16; 10] = [
    0x105, 0x140, 0x141, 0x142, 0x143, 0x305, 0x340, 0x341, 0x342, 0x343,
];

/// Appends a key with its value, where there is one.
pub(crate) fn push_known(
    places: &mut Items<(u32, u32)>,
    key: u32,
    value: Option<u32>,
) -> Result<(), AllocError>
    ensures pushed { OnOk result (places.new ≡ places.old ++ known_one key value) }
    ensures small { OnOk result (AreSmall places.old → AreSmall places.new) }
{
    if let Some(v) = value {
        places.push((key, v))?;
    }
    Ok(())
}

/// The registers but x0 that are known.
fn known_registers(alloc: Global, regs: &[Option<u32>; 32]) -> Result<Items<(u32, u32)>, AllocError>
    ensures size { length regs.now ≡ 32 }
    ensures known { IfOk result (λ places. places ≡ known_from 1 (drop 1 regs.now)) }
    ensures small { IfOk result AreSmall }
{
    let mut places = Items::new(alloc);
    for n in 1..32usize {
        push_known(&mut places, n as u32, regs[n])?;
    }
    Ok(places)
}

/// Appends the lazy CSRs of these addresses that are known.
fn push_csrs(places: &mut Items<(u32, u32)>, hart: &Hart, addrs: &[u16]) -> Result<(), AllocError>
    ensures known { OnOk result (places.new ≡ places.old ++ known_csrs addrs.now hart.now.csrs) }
    ensures small { OnOk result (AreSmall places.old → AreSmall places.new) }
{
    for i in 0..addrs.len() {
        let addr = addrs[i];
        push_known(places, FIRST_KEY + u32::from(addr), hart.csrs.lazy_at(addr))?;
    }
    Ok(())
}

/// The known places of a hart, by ascending key.
fn places_of(alloc: Global, hart: &Hart) -> Result<Items<(u32, u32)>, AllocError>
    ensures size { length hart.now.regs ≡ 32 }
    ensures known { IfOk result (λ places. places ≡ places_in (bare hart.now)) }
    ensures small { IfOk result AreSmall }
{
    let mut places = known_registers(alloc, &hart.regs)?;
    push_csrs(&mut places, hart, &CSRS)?;
    Ok(places)
}

/// The address of the next instruction.
fn pc_of(hart: &Hart) -> u32
    ensures { result ≡ hart.now.pc }
{
    hart.pc
}

/// A hart as a certificate tells it.
fn state_of(alloc: Global, hart: &Hart) -> Result<HartState, AllocError>
    ensures told { IfOk result (λ s. s ≡ told_state (bare hart.now)) }
    ensures state { IfOk result IsState }
{
    hart.csrs.legal_values();
    let places = places_of(alloc, hart)?;
    Ok(HartState {
        pc: pc_of(hart),
        privilege: hart.privilege,
        mstatus: hart.csrs.mstatus(),
        medeleg: hart.csrs.medeleg(),
        satp: hart.csrs.satp(),
        places,
    })
}

/// Each hart as a certificate tells it.
pub fn states_of(alloc: Global, harts: &[Hart]) -> Result<Items<HartState>, OutOfMemory>
    ensures told { IfOk result (λ told. told ≡ map told_state (map bare harts.now)) }
    ensures states { IfOk result (AllByRecursion IsState) }
{
    let mut told = Items::new(alloc);
    for hart in harts {
        told.push(state_of(alloc, hart)?)?;
    }
    Ok(told)
}
