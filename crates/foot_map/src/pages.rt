// Touches kept as pages of bits.
ghost use Rattle.std.specs.Prelude.{◌≡◌, ℕ, ◌+◌, ◌*◌, ◌/◌, ◌%◌, ◌^◌, ◌<◌, ◌&&◌, ◌||◌, ◌↔◌, [], false, true, not, nat_eq, IfOk, OnOk, OnErr, IfNone, IfSome};
ghost use Rattle.rv_script.specs.declared.access.Role.{Role};
ghost use Rattle.foot_map.specs.Order.{IsInOrder};
ghost use Rattle.foot_map.specs.Touches.{has, is_triple};
ghost use Rattle.foot_map.specs.declared.clash.Clash.{Clash};
ghost use Rattle.foot_map.specs.Races.{IsClash, IsNotAfter, is_blocked, has_race};
ghost use Rattle.lane_bits.specs.Pages.{has as has_offset};
ghost use Rattle.foot_map.specs.Pages.{place_of};

use crate::clash::Clash;
use crate::error::OutOfMemory;
use crate::frames;
use crate::touch::Touch;
use lane_bits::PageBits;
use rv_script::Role;
use std::alloc::Global;
use std::collections::BTreeMap;
use std::marker::Model;

/// A set of touches: for each frame, hart and role the offsets of the touched bytes. A page is found
/// by a touch whose byte is the number of its frame.
#[derive(Drop)]
pub struct Pages {
    pages: BTreeMap<Touch, PageBits>,
}

impl Model for Pages {
    ghost use Rattle.std.specs.Prelude.{List};
    ghost use Rattle.foot_map.specs.declared.touch.Touch.{Touch};

    ghost Value = { List Touch };

    ghost use Rattle.foot_map.specs.Pages.{kept, AreWithin};

    ghost view = { λ p. kept p.pages };

    ghost invariant = { λ p. AreWithin p.pages };
}

/// Where the page is kept that has a touch.
fn place_of(touch: Touch) -> Touch
    ensures place { result ≡ place_of touch }
    ensures byte { touch.byte < 2 ^ 32 }
    ensures hart { touch.hart < 256 }
{
    Touch {
        byte: touch.byte / 4096,
        hart: touch.hart,
        role: touch.role,
    }
}

/// Where a touch stands on its page.
fn offset_of(touch: Touch) -> u16
    ensures offset { result ≡ touch.byte % 4096 }
    ensures within { result < 4096 }
{
    (touch.byte % 4096) as u16
}

impl Pages {
    /// The empty set.
    pub fn new(alloc: Global) -> Pages
        ensures empty { result ≡ [] }
    {
        Pages {
            pages: BTreeMap::new(alloc),
        }
    }

    /// Puts one touch in, and tells whether it was new.
    pub fn put(&mut self, touch: Touch) -> Result<bool, OutOfMemory>
        ensures new { IfOk result (λ new. new ≡ not (has self.old touch.byte touch.hart touch.role)) }
        ensures added { OnOk result ((b h : ℕ) (r : Role) →
            has self.new b h r ≡ (has self.old b h r || is_triple touch b h r)) }
        ensures refused { OnErr result (self.new ≡ self.old) }
        ensures absent { OnErr result (has self.old touch.byte touch.hart touch.role ≡ false) }
        ensures ordered { IsInOrder self.new }
    {
        let place = place_of(touch);
        let offset = offset_of(touch);
        if let Some(page) = self.pages.get_mut(&place) {
            let new = !page.get(offset);
            page.set(offset);
            return Ok(new);
        }
        let mut page = PageBits::new();
        page.set(offset);
        match self.pages.insert(place, page) {
            Ok(_) => Ok(true),
            Err(_) => Err(OutOfMemory),
        }
    }

    /// Takes one touch out. Its page stays, so that it needs no memory when touched again.
    pub fn take_out(&mut self, touch: Touch)
        ensures removed { (b h : ℕ) (r : Role) →
            has self.new b h r ≡ (has self.old b h r && not (is_triple touch b h r)) }
        ensures ordered { IsInOrder self.new }
    {
        let place = place_of(touch);
        if let Some(page) = self.pages.get_mut(&place) {
            page.clear(offset_of(touch));
        }
    }

    /// Does nothing. Its contract says that the set is in order.
    pub fn tell_order(&self)
        ensures { IsInOrder self.now }
    {
        let _ = self.pages.len();
    }

    /// The first touch on the byte that breaks with one of the hart's in the role.
    pub fn first_on(&self, byte: u32, hart: u8, role: Role) -> Option<Clash>
        ensures found { IfSome result (IsClash self.now hart role byte 1) }
        ensures least { IfSome result (λ c. (d : Clash) → IsClash self.now hart role byte 1 d → IsNotAfter c d) }
        ensures none { IfNone result ((d : Clash) → IsClash self.now hart role byte 1 d → ⊥) }
    {
        frames::first_on(&self.pages, byte, hart, role)
    }

    /// The offsets on a frame, by its number, of the bytes that an access of the hart in the role may not touch.
    pub fn blocked(&self, frame: u32, hart: u8, role: Role) -> PageBits
        requires { frame < 2 ^ 20 }
        ensures { (x : ℕ) → x < 4096 → has_offset result x ≡ is_blocked self.now hart role (frame * 4096 + x) }
    {
        frames::blocked(&self.pages, frame, hart, role)
    }

    /// Whether two of the touches are on one byte and break.
    pub fn races(&self) -> bool
        ensures { result ≡ has_race self.now }
    {
        frames::races(&self.pages)
    }
}
