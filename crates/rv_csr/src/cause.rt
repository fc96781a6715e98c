//! The causes of traps.

ghost use Rattle.std.specs.Prelude.{◌≡◌};
ghost use Rattle.rv_csr.specs.Causes.{is_cause, is_among, number_of};

/// Why a trap is taken (Privileged, 3.1.15). The machine has no interrupts, and no exception 10 or 14,
/// which are reserved.
#[derive(Clone, Copy, Debug, PartialEq, Eq)]
pub enum Cause {
    FetchMisaligned,
    FetchAccess,
    Illegal,
    Breakpoint,
    LoadMisaligned,
    LoadAccess,
    StoreMisaligned,
    StoreAccess,
    /// An ECALL in U.
    CallFromU,
    /// An ECALL in S.
    CallFromS,
    /// An ECALL in M.
    CallFromM,
    FetchPage,
    LoadPage,
    StorePage,
}

/// The causes, by their numbers.
pub const CAUSES: [Cause; 14] = [
    Cause::FetchMisaligned,
    Cause::FetchAccess,
    Cause::Illegal,
    Cause::Breakpoint,
    Cause::LoadMisaligned,
    Cause::LoadAccess,
    Cause::StoreMisaligned,
    Cause::StoreAccess,
    Cause::CallFromU,
    Cause::CallFromS,
    Cause::CallFromM,
    Cause::FetchPage,
    Cause::LoadPage,
    Cause::StorePage,
];

impl Cause {
    /// The number of the cause in mcause and scause, and of its bit in medeleg.
    pub fn number(self) -> u8
        ensures { result ≡ number_of self }
    {
        match self {
            Cause::FetchMisaligned => 0,
            Cause::FetchAccess => 1,
            Cause::Illegal => 2,
            Cause::Breakpoint => 3,
            Cause::LoadMisaligned => 4,
            Cause::LoadAccess => 5,
            Cause::StoreMisaligned => 6,
            Cause::StoreAccess => 7,
            Cause::CallFromU => 8,
            Cause::CallFromS => 9,
            Cause::CallFromM => 11,
            Cause::FetchPage => 12,
            Cause::LoadPage => 13,
            Cause::StorePage => 15,
        }
    }
}

/// Whether the number is that of a cause.
pub fn is_cause(number: u32) -> bool
    ensures { result ≡ is_cause number }
{
    is_among(&CAUSES, number)
}

/// Whether one of the causes has the number.
fn is_among(causes: &[Cause], number: u32) -> bool
    ensures { result ≡ is_among causes.now number }
{
    causes
        .iter()
        .any(|cause| u32::from(cause.number()) == number)
}
