// The footprints of all harts.
ghost use Rattle.std.specs.Prelude.{◌≡◌, ℕ, ◌-◌, ◌%◌, ◌^◌, ◌<◌, ◌+◌, ◌⊎◌, ◌↔◌, ◌&&◌, not, nat_lt, [], IfOk, IsTrue, OnOk, OnErr, IfNone, IfSome, false};
ghost use Rattle.rv_script.specs.declared.access.Role.{Role};
ghost use Rattle.foot_map.specs.declared.clash.Clash.{Clash};
ghost use Rattle.foot_map.specs.Order.{IsInOrder};
ghost use Rattle.foot_map.specs.Touches.{has, IsInWord, IsAdded, IsMaskOfNew, WantsMemory, IsRemoved};
ghost use Rattle.foot_map.specs.Races.{IsClash, IsNotAfter, is_blocked, has_race, HasRoom};
ghost use Rattle.dom_set.specs.Elements.{elements_of};

use crate::clash::Clash;
use crate::error::OutOfMemory;
use crate::pages::Pages;
use crate::runs::{others, runs, starts};
use crate::touch::Touch;
use crate::touches::{add_bytes, first_clash, remove_bytes};
use dom_set::{Set, set_laws};
use lane_bits::PageBits;
use rv_script::Role;
use std::alloc::Global;
use std::marker::Model;

/// Which bytes which hart has touched in which role: a set of (byte, hart, role).
#[derive(Drop)]
pub struct FootMap {
    touches: Pages,
}

impl Model for FootMap {
    ghost use Rattle.std.specs.Prelude.{List};
    ghost use Rattle.foot_map.specs.declared.touch.Touch.{Touch};

    ghost Value = { List Touch };

    ghost view = { λ m. m.touches };
}

impl FootMap {
    /// The empty set. It takes no memory.
    pub fn new(alloc: Global) -> FootMap
        ensures empty { result ≡ [] }
        ensures none { (b h : ℕ) (r : Role) → has result b h r ≡ false }
    {
        FootMap {
            touches: Pages::new(alloc),
        }
    }

    /// Adds the bytes of an access. Bit i of the answer is set where byte `addr + i` was new;
    /// `OutOfMemory` where there is no memory for a new one.
    pub fn add(&mut self, hart: u8, role: Role, addr: u32, len: u8) -> Result<u8, OutOfMemory>
        requires { IsInWord addr len }
        ensures added { OnOk result (IsAdded hart role addr len self.old self.new) }
        ensures mask { IfOk result (IsMaskOfNew hart role addr len self.old) }
        ensures within { IfOk result (λ mask. mask < 2 ^ (4 - addr % 4)) }
        ensures refused { OnErr result (self.new ≡ self.old) }
        ensures wanted { OnErr result (WantsMemory hart role addr len self.old) }
        ensures ordered { IsInOrder self.old }
    {
        let touch = Touch {
            byte: addr,
            hart,
            role,
        };
        add_bytes(&mut self.touches, touch, len)
    }

    /// Takes out byte `addr + i` for each bit i of the mask. It takes no memory.
    pub fn remove(&mut self, hart: u8, role: Role, addr: u32, mask: u8)
        requires { mask < 2 ^ (4 - addr % 4) }
        ensures removed { IsRemoved hart role addr mask self.old self.new }
        ensures ordered { IsInOrder self.new }
    {
        let touch = Touch {
            byte: addr,
            hart,
            role,
        };
        remove_bytes(&mut self.touches, touch, mask);
    }

    /// The first triple, by byte, hart and role, that would race with an access. It takes no memory.
    pub fn may(&self, hart: u8, role: Role, addr: u32, len: u8) -> Option<Clash>
        requires { IsInWord addr len }
        ensures none { IfNone result ((c : Clash) → IsClash self.now hart role addr len c → ⊥) }
        ensures clash { IfSome result (IsClash self.now hart role addr len) }
        ensures least { IfSome result (λ c. (d : Clash) → IsClash self.now hart role addr len d → IsNotAfter c d) }
    {
        first_clash(&self.touches, hart, role, addr, len)
    }

    /// The offsets of the bytes of a frame that an access of the hart in the role may touch: those for which
    /// `may` gives none. The frame is given by its first byte.
    pub fn allowed(
        &self,
        alloc: Global,
        hart: u8,
        role: Role,
        frame: u32,
    ) -> Result<Set, OutOfMemory>
        requires { frame % 4096 ≡ 0 }
        ensures { IfOk result (λ s. s ≡ elements_of (λ x. nat_lt x 4096 && not (is_blocked self.now hart role (frame + x)))) }
    {
        set_laws();
        let blocked = self.touches.blocked(frame / 4096, hart, role);
        let runs = runs(alloc, &others(&blocked))?;
        Ok(Set::from_ranges(alloc, &runs, 1)?)
    }

    /// Whether an access of the hart in the role of 1, 2 or 4 bytes may touch some multiple of its length in the
    /// frame. The frame is given by its first byte. It takes no memory.
    pub fn some_free(&self, hart: u8, role: Role, frame: u32, len: u8) -> bool
        requires frame { frame % 4096 ≡ 0 }
        requires len { (len ≡ 1) ⊎ ((len ≡ 2) ⊎ (len ≡ 4)) }
        ensures { IsTrue result ↔ HasRoom self.now hart role frame len }
    {
        let blocked = self.touches.blocked(frame / 4096, hart, role);
        starts(others(&blocked), len).any_common(&PageBits::multiples_of(len))
    }

    /// Whether two of the triples race: they are on one byte, and break. It takes no memory.
    pub fn races(&self) -> bool
        ensures { result ≡ has_race self.now }
    {
        self.touches.races()
    }
}
