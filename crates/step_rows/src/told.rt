// What a step says, as values that can be compared.
use rv_hart::{Access, Hart, Outcome, Place, Priv, Role, Stepped};

/// The addresses of CSRs that traps write.
pub const MSTATUS: u16 = 0x300;

const SEPC: u16 = 0x141;

const SCAUSE: u16 = 0x142;

const STVAL: u16 = 0x143;

const MEPC: u16 = 0x341;

const MCAUSE: u16 = 0x342;

const MTVAL: u16 = 0x343;

/// Where traps go, to M and to S.
pub const TO_MACHINE: u32 = 0x8000_0200;

pub const TO_SUPERVISOR: u32 = 0x8000_0400;

/// All that a record says.
#[derive(Clone, Copy, Debug, PartialEq, Eq)]
pub struct Done {
    pub pc: u32,
    pub privilege: Priv,
    pub word: u32,
    pub outcome: Outcome,
    pub rd: Option<(u8, u32)>,
    pub accesses: [Option<Access>; 6],
    pub next_pc: u32,
}

/// What a step says.
#[derive(Clone, Copy, Debug, PartialEq, Eq)]
pub enum Told {
    Did(Done),
    Missing(Place),
    Outside,
}

/// The accesses, of which there are at most six.
pub fn first_six(accesses: &[Access]) -> [Option<Access>; 6] {
    [
        accesses.get(0).copied(),
        accesses.get(1).copied(),
        accesses.get(2).copied(),
        accesses.get(3).copied(),
        accesses.get(4).copied(),
        accesses.get(5).copied(),
    ]
}

pub fn told_by(stepped: &Stepped) -> Told {
    match stepped {
        Stepped::Did(r) => {
            let accesses = r.accesses.as_slice();
            Told::Did(Done {
                pc: r.pc,
                privilege: r.privilege,
                word: r.word,
                outcome: r.outcome,
                rd: r.rd,
                accesses: first_six(accesses),
                next_pc: r.next_pc,
            })
        }
        Stepped::Missing(place) => Told::Missing(*place),
        Stepped::Outside => Told::Outside,
    }
}

/// The fetch of a word.
pub fn fetched(pc: u32, word: u32) -> Option<Access> {
    Some(Access {
        role: Role::Fetch,
        addr: pc,
        size: 4,
        value: word,
    })
}

/// The record of an instruction that retires, and makes no access to data.
pub fn retired(hart: &Hart, word: u32, rd: Option<(u8, u32)>, next_pc: u32) -> Done {
    Done {
        pc: hart.pc,
        privilege: hart.privilege,
        word,
        outcome: Outcome::Retired,
        rd,
        accesses: [fetched(hart.pc, word), None, None, None, None, None],
        next_pc,
    }
}

/// The record of an instruction that traps: it writes no register and makes no access to data.
pub fn trapped(hart: &Hart, word: u32, cause: u8, value: u32, to: Priv) -> Done {
    let next_pc = match to {
        Priv::S => TO_SUPERVISOR,
        Priv::M | Priv::U => TO_MACHINE,
    };
    Done {
        pc: hart.pc,
        privilege: hart.privilege,
        word,
        outcome: Outcome::Trap { cause, value, to },
        rd: None,
        accesses: [fetched(hart.pc, word), None, None, None, None, None],
        next_pc,
    }
}

/// What a trap leaves in CSRs.
pub fn saved_by(pc: u32, cause: u8, value: u32, to: Priv, mstatus: u32) -> [(u16, u32); 4] {
    let cause = u32::from(cause);
    match to {
        Priv::S => [
            (MSTATUS, mstatus),
            (SEPC, pc),
            (SCAUSE, cause),
            (STVAL, value),
        ],
        Priv::M | Priv::U => [
            (MSTATUS, mstatus),
            (MEPC, pc),
            (MCAUSE, cause),
            (MTVAL, value),
        ],
    }
}
