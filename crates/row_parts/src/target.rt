// Where page table entries lead.
ghost use Rattle.std.specs.Prelude.{◌≡◌, true};
ghost use Rattle.row_parts.specs.Internal.Targets.{second_target, root_target};

use sv_walk::{Kind, View, is_closed, is_invalid, is_pointer, is_reserved, is_unaligned};

/// Where an entry leads.
#[derive(Clone, Copy, Debug, PartialEq, Eq)]
pub enum Target {
    PageFault,
    /// To a page or a superpage, by the number of its first frame.
    Frame(u32),
    /// Beyond what the machine models.
    Outside,
    /// To the table in a frame.
    Table(u32),
}

/// Where a second entry leads.
#[tactic(auto, unfolding(crate::specs::Internal::Targets::second_target))]
pub fn second_target(v: View, kind: Kind, entry: u32) -> Target
    ensures { result ≡ second_target v kind entry }
{
    if is_invalid(entry) || is_pointer(entry) || is_closed(v, kind, entry) {
        return Target::PageFault;
    }
    Target::Frame(entry >> 10)
}

/// Where a root entry leads.
#[tactic(auto, unfolding(crate::specs::Internal::Targets::root_target))]
pub fn root_target(v: View, kind: Kind, entry: u32) -> Target
    ensures { result ≡ root_target v kind entry }
{
    if is_invalid(entry) {
        return Target::PageFault;
    }
    if is_pointer(entry) {
        if is_reserved(entry) {
            return Target::Outside;
        }
        return Target::Table(entry >> 10);
    }
    if is_unaligned(entry) || is_closed(v, kind, entry) {
        return Target::PageFault;
    }
    Target::Frame((entry >> 20) * 1024)
}

/// Whether two targets are the same.
pub fn is_same_target(a: Target, b: Target) -> bool
    ensures { result ≡ true → a ≡ b }
{
    match (a, b) {
        (Target::PageFault, Target::PageFault) => true,
        (Target::Frame(f), Target::Frame(g)) => f == g,
        (Target::Outside, Target::Outside) => true,
        (Target::Table(f), Target::Table(g)) => f == g,
        _ => false,
    }
}
