// The variables of a step.
ghost use Rattle.std.specs.Prelude.{◌≡◌, ◌<◌};
ghost use Rattle.fd_prob.specs.Slots.{slot_number};

/// A variable of a step. In an assignment one that the step does not use counts as 0.
#[derive(Clone, Copy, Debug, PartialEq, Eq)]
pub enum Slot {
    /// The number of the operation, in the order of the table of instructions.
    Op,
    /// The numbers of registers, 0 to 31.
    Rs1,
    Rs2,
    /// The immediate as a word, sign-extended where its format is signed.
    Imm,
    Rd,
    /// The address of a control and status register.
    Csr,
    /// The virtual address of a load or store.
    Ea,
    /// The value of rs1.
    A,
    /// The value of rs2.
    B,
    /// The values of the page table entries that are started, the root's first (Privileged, 4.3.1).
    FirstPte,
    SecondPte,
    /// The value of the aligned word of a load or store.
    DataWord,
    /// The value of a control and status register before it is read or written.
    OldCsr,
    /// The address at which a trap goes on.
    Vector,
}

/// The variables in the order in which assignments are compared.
pub const SLOTS: [Slot; 14] = [
    Slot::Op,
    Slot::Rs1,
    Slot::Rs2,
    Slot::Imm,
    Slot::Rd,
    Slot::Csr,
    Slot::Ea,
    Slot::A,
    Slot::B,
    Slot::FirstPte,
    Slot::SecondPte,
    Slot::DataWord,
    Slot::OldCsr,
    Slot::Vector,
];

impl Slot {
    /// The variable's place in the order.
    pub fn number(self) -> usize
        ensures place { result ≡ slot_number self }
        ensures below { result < 14 }
    {
        match self {
            Slot::Op => 0,
            Slot::Rs1 => 1,
            Slot::Rs2 => 2,
            Slot::Imm => 3,
            Slot::Rd => 4,
            Slot::Csr => 5,
            Slot::Ea => 6,
            Slot::A => 7,
            Slot::B => 8,
            Slot::FirstPte => 9,
            Slot::SecondPte => 10,
            Slot::DataWord => 11,
            Slot::OldCsr => 12,
            Slot::Vector => 13,
        }
    }
}
