// The ways in which a step goes on after its sources.

use crate::shape::End;
use rv_csr::LazyRegister;

/// Which targets a way is for.
#[derive(Clone, Copy)]
pub enum Aim {
    /// Any, or none.
    Anywhere,
    /// Multiples of 4.
    Aligned,
    /// No multiples of 4.
    Misaligned,
}

/// How a step without a data access goes on after its sources.
#[derive(Clone, Copy)]
pub struct Way {
    pub end: End,
    /// Of a branch, whether it is taken.
    pub taken: Option<bool>,
    pub aim: Aim,
    /// The CSR that it reads.
    pub reads: Option<LazyRegister>,
}
