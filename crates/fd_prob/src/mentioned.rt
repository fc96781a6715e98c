// At which variables relations look.
ghost use Rattle.std.specs.Prelude.{◌≡◌};
ghost use Rattle.fd_prob.specs.Mentions.{is_slot, mentions};

use crate::relation::Rel;
use crate::slot::Slot;

fn is_slot(s: Slot, t: Slot) -> bool
    ensures { result ≡ is_slot s t }
{
    s.number() == t.number()
}

/// Whether for some operation the relation looks at the value of the variable.
pub fn mentions(rel: &Rel, v: Slot) -> bool
    ensures { result ≡ mentions rel.now v }
{
    match rel {
        Rel::Same(s, t) => is_slot(*s, v) || is_slot(*t, v),
        Rel::Differ(s, t) => is_slot(*s, v) || is_slot(*t, v),
        Rel::Sum(s, t, u) => is_slot(*s, v) || is_slot(*t, v) || is_slot(*u, v),
        Rel::Taken(_) => is_slot(Slot::A, v) || is_slot(Slot::B, v),
        Rel::Holds { index, value, .. } => is_slot(*index, v) || is_slot(*value, v),
        Rel::Linked => {
            is_slot(Slot::Rs1, v)
                || is_slot(Slot::Rs2, v)
                || is_slot(Slot::A, v)
                || is_slot(Slot::B, v)
        }
        Rel::Target(..) => is_slot(Slot::A, v) || is_slot(Slot::Imm, v),
        Rel::Writes => {
            is_slot(Slot::Rs1, v)
                || is_slot(Slot::A, v)
                || is_slot(Slot::Imm, v)
                || is_slot(Slot::Csr, v)
                || is_slot(Slot::OldCsr, v)
        }
        Rel::In(s, _) => is_slot(*s, v),
        Rel::Rows(_) => {
            is_slot(Slot::Ea, v)
                || is_slot(Slot::FirstPte, v)
                || is_slot(Slot::SecondPte, v)
                || is_slot(Slot::DataWord, v)
        }
    }
}
