// What an instruction has access to.

ghost use Rattle.std.specs.Prelude.{◌≡◌};
ghost use Rattle.rv_csr.specs.Access.{access_of};
ghost use Rattle.rv_csr.specs.Table.{address_of};
ghost use Rattle.rv_hart.specs.Privileged.{is_swap};
ghost use Rattle.leaf_link.specs.Controls.{is_denied};
ghost use Rattle.leaf_csrs.specs.Usages.{refuses};

use leaf_stand::Stand;
use rv_csr::{CsrAccess, Register, row_of};
use rv_isa::Op;

/// Whether the operation writes whatever the field of its operand is.
pub fn is_swap(op: Op) -> bool
    ensures { result ≡ is_swap op }
{
    matches!(op, Op::Csrrw | Op::Csrrwi)
}

/// Whether an access to a register is illegal.
fn is_denied(stand: &Stand, register: Register, writes: bool) -> bool
    ensures { result ≡ is_denied (access_of stand.now.csrs.mstatus (address_of register) stand.now.privilege writes) }
{
    match stand
        .csrs
        .access(row_of(register).address(), stand.privilege, writes)
    {
        CsrAccess::Denied => true,
        CsrAccess::Granted(_) | CsrAccess::Outside => false,
    }
}

/// Whether a register may not be accessed or, at `written`, may only be read.
pub fn refuses(stand: &Stand, written: bool, register: Register) -> bool
    ensures { result ≡ refuses stand.now written register }
{
    if written {
        !is_denied(stand, register, false) && is_denied(stand, register, true)
    } else {
        is_denied(stand, register, false)
    }
}
