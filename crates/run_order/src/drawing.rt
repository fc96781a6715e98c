// An order that is drawn.
ghost use Rattle.std.specs.Prelude.{◌≡◌, ◌<◌, ◌≤◌, ◌-◌, ◌%◌, ◌^◌, ◌++◌, IfOk, OnOk, length, slice_index, slice_set};
ghost use Rattle.rand_pcg.specs.Pcg.{pcg32};
ghost use Rattle.run_order.specs.Orders.{one_less, order_of, picked, ready_of, turns_in, with_turns};

use crate::OutOfMemory;
use rand_core::utils::NextWord;
use rand_pcg::Lcg64Xsh32;
use std::alloc::Global;

/// Appends a hart that has turns left.
fn push_ready(harts: &mut Vec<u8>, k: u8, turns: u32) -> Result<(), OutOfMemory>
    ensures { OnOk result (harts.new.items ≡ harts.old.items ++ ready_of k turns) }
{
    if turns != 0 {
        harts.push(k)?;
    }
    Ok(())
}

/// The harts that have turns left, in ascending order.
fn ready(alloc: Global, left: &[u32]) -> Result<Vec<u8>, OutOfMemory>
    requires { length left.now ≤ 256 }
    ensures { IfOk result (λ harts. harts.items ≡ with_turns 0 left.now) }
{
    let mut harts = Vec::new(alloc);
    for (k, turns) in left.iter().enumerate() {
        push_ready(&mut harts, k as u8, *turns)?;
    }
    Ok(harts)
}

/// The next draw.
fn draw(draws: &mut Lcg64Xsh32) -> u32
    ensures word { result ≡ (pcg32 draws.old).0 }
    ensures left { draws.new ≡ (pcg32 draws.old).1 }
{
    draws.next_word()
}

/// The hart that a draw picks.
fn pick_from(harts: &[u8], word: u32) -> u8
    requires { 0 < length harts.now }
    ensures { result ≡ slice_index harts.now (word % length harts.now) }
{
    harts[word as usize % harts.len()]
}

/// Takes a turn of a hart.
fn take_turn(left: &mut Vec<u32>, k: u8)
    requires there { k < length left.old.items }
    requires some { 1 ≤ slice_index left.old.items k }
    ensures { left.new.items ≡ one_less k left.old.items }
{
    left[usize::from(k)] -= 1;
}

/// The hart that a draw picks, whose turn is taken.
fn pick(alloc: Global, draws: &mut Lcg64Xsh32, left: &mut Vec<u32>) -> Result<u8, OutOfMemory>
    requires few { length left.old.items ≤ 256 }
    requires some { 0 < turns_in left.old.items }
    ensures hart { IfOk result (λ k. k ≡ picked (pcg32 draws.old).0 left.old.items) }
    ensures draws { OnOk result (draws.new ≡ (pcg32 draws.old).1) }
    ensures left { OnOk result (left.new.items ≡ one_less (picked (pcg32 draws.old).0 left.old.items) left.old.items) }
{
    let harts = ready(alloc, left.as_slice())?;
    let k = pick_from(harts.as_slice(), draw(draws));
    take_turn(left, k);
    Ok(k)
}

/// How many turns there are in all.
fn total(left: &[u32]) -> u32
    requires { turns_in left.now < 2 ^ 32 }
    ensures { result ≡ turns_in left.now }
{
    let mut turns = 0;
    for n in left {
        turns += *n;
    }
    turns
}

/// The order of harts with so many turns each that a number draws.
pub fn drawn_order(alloc: Global, number: u64, left: &[u32]) -> Result<Vec<u8>, OutOfMemory>
    requires few { length left.now ≤ 256 }
    requires room { turns_in left.now < 2 ^ 32 }
    ensures { IfOk result (λ order. order.items ≡ order_of number left.now) }
{
    let mut draws = Lcg64Xsh32::new(number, 0);
    let mut rest = Vec::from_slice(alloc, left)?;
    let mut order = Vec::new(alloc);
    for _turn in 0..total(left) {
        order.push(pick(alloc, &mut draws, &mut rest)?)?;
    }
    Ok(order)
}
