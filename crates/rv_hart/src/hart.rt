// A hart of which some registers may not be known yet.
ghost use Rattle.std.specs.Prelude.{◌≡◌, ◌<◌, ◌%◌, slice_get, slice_index_or, Some, None};
ghost use Rattle.rv_hart.specs.Registers.{no_registers, written};
ghost use Rattle.rv_hart.specs.Changes.{IsSoundChange, IsSoundControl, csrs_after, privilege_after};

use crate::{Change, Control};
use rv_csr::{Csrs, Priv};

/// The state of a hart. A register or lazy CSR is None as long as no value was given to it.
#[derive(Drop)]
pub struct Hart {
    /// The address of the next instruction, a multiple of 4.
    pub pc: u32,
    pub privilege: Priv,
    pub regs: [Option<u32>; 32],
    pub csrs: Csrs,
    pub ghost aligned: { pc % 4 ≡ 0 },
    pub ghost zero: { slice_get regs 0 ≡ Some (Some 0) },
}

impl Hart {
    /// A hart with these CSRs, of which no register but x0 is known.
    pub fn new(pc: u32, privilege: Priv, csrs: Csrs) -> Self
        requires { pc % 4 ≡ 0 }
        ensures pc { result.pc ≡ pc }
        ensures privilege { result.privilege ≡ privilege }
        ensures regs { result.regs ≡ no_registers }
        ensures csrs { result.csrs ≡ csrs }
    {
        let mut regs = [None; 32];
        regs[0] = Some(0);
        Hart {
            pc,
            privilege,
            regs,
            csrs,
        }
    }

    /// The register's value, where it is known.
    pub fn register(&self, n: u8) -> Option<u32>
        requires { n < 32 }
        ensures { result ≡ slice_index_or self.now.regs n None }
    {
        self.regs[n as usize]
    }

    /// Goes on to where a step leads, with what it wrote.
    pub(crate) fn take(&mut self, change: &Change)
        requires { IsSoundChange self.old.privilege self.old.csrs change.now }
        ensures pc { self.new.pc ≡ change.now.next_pc }
        ensures privilege { self.new.privilege ≡ privilege_after self.old.privilege self.old.csrs.mstatus self.old.csrs.medeleg change.now.control }
        ensures regs { self.new.regs ≡ written change.now.rd self.old.regs }
        ensures csrs { self.new.csrs ≡ csrs_after self.old.privilege self.old.pc change.now.control self.old.csrs }
    {
        self.privilege = control(self.privilege, self.pc, &mut self.csrs, change.control);
        self.pc = change.next_pc;
        if let Some((n, value)) = change.rd {
            self.regs[n as usize] = Some(value);
        }
    }
}

/// Does to the CSRs what a step does at a pc in a privilege, and answers the privilege after it.
fn control(from: Priv, pc: u32, csrs: &mut Csrs, change: Control) -> Priv
    requires pc { pc % 4 ≡ 0 }
    requires change { IsSoundControl from csrs.old change }
    ensures privilege { result ≡ privilege_after from csrs.old.mstatus csrs.old.medeleg change }
    ensures csrs { csrs.new ≡ csrs_after from pc change csrs.old }
{
    match change {
        Control::Stay => from,
        Control::Write(register, value) => {
            csrs.set(register, value);
            from
        }
        Control::Trap { cause, value } => csrs.enter_trap(from, cause, pc, value).0,
        Control::Mret => csrs.mret().0,
        Control::Sret => csrs.sret().0,
    }
}
