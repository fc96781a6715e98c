//! The control and status registers of a hart (Privileged, 2 to 4): one table of the 15 that are
//! modelled, with their names, addresses and legal values; reads and writes as an instruction makes
//! them in a privilege; and what a trap and the returns from traps change, with delegation to S.
#![tactic(auto)]

mod access;
mod cause;
mod csrs;
mod laws;
mod privilege;
mod status;
mod table;
mod traps;

pub use access::{CsrAccess, Got, Wrote};
pub use cause::{CAUSES, Cause, is_cause};
pub use csrs::Csrs;
pub use laws::{csr_laws, place_laws};
pub use privilege::Priv;
pub use status::Flag;
pub use table::{
    FIRST_KEY, LazyRegister, REGISTERS, Register, Row, Values, legal, register_at, row_of,
};
pub use traps::vector_register;
