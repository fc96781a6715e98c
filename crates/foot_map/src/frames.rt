// What the pages of one frame say.
ghost use Rattle.std.specs.Prelude.{◌≡◌, ℕ, ◌+◌, ◌*◌, ◌^◌, ◌<◌, IfNone, IfSome};
ghost use Rattle.foot_map.specs.declared.clash.Clash.{Clash};
ghost use Rattle.foot_map.specs.Races.{IsClash, IsNotAfter, is_blocked, has_race};
ghost use Rattle.foot_map.specs.Pages.{kept, AreWithin};
ghost use Rattle.lane_bits.specs.Pages.{has as has_offset};

use crate::clash::{Clash, breaks};
use crate::touch::Touch;
use lane_bits::PageBits;
use rv_script::Role;
use std::collections::BTreeMap;

/// Where the pages of a frame begin.
fn start_of(frame: u32) -> Touch
    ensures byte { result.byte ≡ frame }
    ensures hart { result.hart ≡ 0 }
    ensures role { result.role ≡ Role.Fetch }
{
    Touch {
        byte: frame,
        hart: 0,
        role: Role::Fetch,
    }
}

/// The first touch on the byte that breaks with one of the hart's in the role.
pub fn first_on(pages: &BTreeMap<Touch, PageBits>, byte: u32, hart: u8, role: Role) -> Option<Clash>
    requires { AreWithin pages.now }
    ensures found { IfSome result (IsClash (kept pages.now) hart role byte 1) }
    ensures least { IfSome result (λ c. (d : Clash) → IsClash (kept pages.now) hart role byte 1 d → IsNotAfter c d) }
    ensures none { IfNone result ((d : Clash) → IsClash (kept pages.now) hart role byte 1 d → ⊥) }
{
    let frame = byte / 4096;
    let offset = (byte % 4096) as u16;
    for (place, page) in pages.range(start_of(frame)..start_of(frame + 1)) {
        if breaks(place.hart == hart, place.role, role) && page.get(offset) {
            return Some(Clash {
                byte,
                hart: place.hart,
                role: place.role,
            });
        }
    }
    None
}

/// The offsets on a frame of the bytes that an access of the hart in the role may not touch.
pub fn blocked(pages: &BTreeMap<Touch, PageBits>, frame: u32, hart: u8, role: Role) -> PageBits
    requires within { AreWithin pages.now }
    requires frame { frame < 2 ^ 20 }
    ensures { (x : ℕ) → x < 4096 → has_offset result x ≡ is_blocked (kept pages.now) hart role (frame * 4096 + x) }
{
    let mut blocked = PageBits::new();
    for (place, page) in pages.range(start_of(frame)..start_of(frame + 1)) {
        if breaks(place.hart == hart, place.role, role) {
            blocked = blocked.or(page);
        }
    }
    blocked
}

/// Whether two of the touches are on one byte and break.
pub fn races(pages: &BTreeMap<Touch, PageBits>) -> bool
    requires { AreWithin pages.now }
    ensures { result ≡ has_race (kept pages.now) }
{
    for (place, page) in pages {
        if blocked(pages, place.byte, place.hart, place.role).any_common(page) {
            return true;
        }
    }
    false
}
