// Sets of touches in their order.
ghost use Rattle.std.specs.Prelude.{◌≡◌, ℕ, ◌+◌, ◌-◌, ◌%◌, ◌^◌, ◌<◌, ◌&&◌, ◌||◌, false, not, IfOk, OnOk, OnErr, IfNone, IfSome};
ghost use Rattle.rv_script.specs.declared.access.Role.{Role};
ghost use Rattle.foot_map.specs.declared.clash.Clash.{Clash};
ghost use Rattle.foot_map.specs.Order.{IsInOrder};
ghost use Rattle.foot_map.specs.Touches.{has, is_triple, IsInWord, IsAdded, IsMaskOfNew, IsRemoved, WantsMemory};
ghost use Rattle.foot_map.specs.Races.{IsClash, IsNotAfter};

use crate::clash::Clash;
use crate::error::OutOfMemory;
use crate::pages::Pages;
use crate::touch::Touch;
use rv_script::Role;

/// The same touch on the next byte.
fn next(touch: Touch) -> Touch
    requires { touch.byte + 1 < 2 ^ 32 }
    ensures byte { result.byte ≡ touch.byte + 1 }
    ensures hart { result.hart ≡ touch.hart }
    ensures role { result.role ≡ touch.role }
{
    Touch {
        byte: touch.byte + 1,
        hart: touch.hart,
        role: touch.role,
    }
}

/// Takes one touch out where it is masked.
fn take_out_if(touches: &mut Pages, touch: Touch, masked: bool)
    ensures removed { (b h : ℕ) (r : Role) →
        has touches.new b h r ≡ (has touches.old b h r && not (masked && is_triple touch b h r)) }
    ensures ordered { IsInOrder touches.new }
{
    touches.tell_order();
    if masked {
        touches.take_out(touch);
    }
}

/// Puts in so many bytes from a touch on, and tells by a mask which were new.
pub fn add_bytes(touches: &mut Pages, touch: Touch, len: u8) -> Result<u8, OutOfMemory>
    requires { IsInWord touch.byte len }
    ensures added { OnOk result
        (IsAdded touch.hart touch.role touch.byte len touches.old touches.new) }
    ensures mask { IfOk result (IsMaskOfNew touch.hart touch.role touch.byte len touches.old) }
    ensures within { IfOk result (λ mask. mask < 2 ^ (4 - touch.byte % 4)) }
    ensures refused { OnErr result (touches.new ≡ touches.old) }
    ensures wanted { OnErr result (WantsMemory touch.hart touch.role touch.byte len touches.old) }
    ensures ordered { IsInOrder touches.old }
{
    touches.tell_order();
    let new = match touches.put(touch) {
        Ok(new) => new,
        Err(refused) => return Err(refused),
    };
    if len == 1 {
        return Ok(u8::from(new));
    }
    match add_bytes(touches, next(touch), len - 1) {
        Ok(rest) => Ok(rest * 2 + u8::from(new)),
        Err(refused) => {
            take_out_if(touches, touch, new);
            Err(refused)
        }
    }
}

/// Takes out the masked bytes from a touch on.
pub fn remove_bytes(touches: &mut Pages, touch: Touch, mask: u8)
    requires { mask < 2 ^ (4 - touch.byte % 4) }
    ensures removed { IsRemoved touch.hart touch.role touch.byte mask touches.old touches.new }
    ensures ordered { IsInOrder touches.new }
{
    take_out_if(touches, touch, mask % 2 == 1);
    if mask > 1 {
        remove_bytes(touches, next(touch), mask / 2);
    }
}

/// The first touch that breaks with one of so many bytes from an address on.
pub fn first_clash(touches: &Pages, hart: u8, role: Role, addr: u32, len: u8) -> Option<Clash>
    requires { IsInWord addr len }
    ensures found { IfSome result (IsClash touches.now hart role addr len) }
    ensures least { IfSome result (λ c. (d : Clash) → IsClash touches.now hart role addr len d → IsNotAfter c d) }
    ensures none { IfNone result ((d : Clash) → IsClash touches.now hart role addr len d → ⊥) }
{
    for i in 0..len {
        if let Some(clash) = touches.first_on(addr + u32::from(i), hart, role) {
            return Some(clash);
        }
    }
    None
}
