// The values that CSRs may have when they are read.

ghost use Rattle.std.specs.Prelude.{◌≡◌, IfOk};
ghost use Rattle.rv_hart.specs.Privileged.{lazy_address};
ghost use Rattle.leaf_link.specs.Controls.{is_old};
ghost use Rattle.leaf_link.specs.Turns.{may_be_old};
ghost use Rattle.data_bytes.specs.Sets.{IsSetOf};
ghost use Rattle.leaf_stand.specs.Stands.{turn_of};

use crate::formats::Spans;
use crate::stand::Stand;
use dom_set::{OutOfMemory, Set};
use rv_csr::LazyRegister;
use std::alloc::Global;

impl Stand<'_> {
    /// The values that an untouched CSR may be started with: for vectors and return addresses one of the set, and else a
    /// legal one.
    fn open_values(&self, alloc: Global, register: LazyRegister) -> Result<Set, OutOfMemory>
        ensures { IfOk result (IsSetOf (may_be_old (turn_of self.now) (lazy_address register))) }
    {
        match register {
            LazyRegister::Mtvec | LazyRegister::Stvec => self.vectors.copy(alloc),
            LazyRegister::Mepc | LazyRegister::Sepc => self.vectors.copy(alloc),
            LazyRegister::Scause => Set::from_ranges(alloc, &[(0, 9), (12, 13), (15, 15)], 1),
            LazyRegister::Mcause => Set::from_ranges(alloc, &[(0, 9), (11, 13), (15, 15)], 1),
            LazyRegister::Mscratch | LazyRegister::Sscratch => Set::all(alloc),
            LazyRegister::Mtval | LazyRegister::Stval => Set::all(alloc),
        }
    }

    /// The values of a CSR: the known one, or those that it may be started with.
    pub fn old_values(&self, alloc: Global, register: LazyRegister) -> Result<Set, OutOfMemory>
        ensures { IfOk result (IsSetOf (is_old (turn_of self.now) (lazy_address register))) }
    {
        match self.csrs.lazy(register) {
            Some(value) => Spans::one(value).set(alloc),
            None => self.open_values(alloc, register),
        }
    }
}
