//! The privileges.

ghost use Rattle.std.specs.Prelude.{◌≡◌};
ghost use Rattle.rv_csr.specs.Privilege.{level_of, privilege_at};

/// A privilege mode (Privileged, 1.2).
#[derive(Clone, Copy, Debug, PartialEq, Eq)]
pub enum Priv {
    /// User.
    U,
    /// Supervisor.
    S,
    /// Machine.
    M,
}

impl Priv {
    /// The encoding of the privilege, as MPP and addresses have it: 0, 1 or 3.
    pub fn level(self) -> u32
        ensures { result ≡ level_of self }
    {
        match self {
            Priv::U => 0,
            Priv::S => 1,
            Priv::M => 3,
        }
    }

    /// The privilege of an encoding other than 2.
    pub(crate) fn at(level: u32) -> Priv
        ensures { result ≡ privilege_at level }
    {
        if level == 0 {
            Priv::U
        } else if level == 1 {
            Priv::S
        } else {
            Priv::M
        }
    }
}
