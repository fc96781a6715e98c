// What two harts may not do to one byte.
ghost use Rattle.std.specs.Prelude.{◌≡◌};
ghost use Rattle.foot_map.specs.Races.{breaks};

use rv_script::Role;

/// A touch with which an access would race.
#[derive(Clone, Copy, Debug, PartialEq, Eq)]
pub struct Clash {
    /// The physical address.
    pub byte: u32,
    pub hart: u8,
    pub role: Role,
}

/// Whether two roles on one byte break race-freedom, by one hart or by two.
pub fn breaks(same_hart: bool, one: Role, other: Role) -> bool
    ensures { result ≡ breaks same_hart one other }
{
    match (one, other) {
        (Role::Store, Role::Store | Role::Load) | (Role::Load, Role::Store) => !same_hart,
        (Role::Store, Role::Fetch | Role::Walk) | (Role::Fetch | Role::Walk, Role::Store) => true,
        (Role::Fetch | Role::Walk | Role::Load, Role::Fetch | Role::Walk | Role::Load) => false,
    }
}
