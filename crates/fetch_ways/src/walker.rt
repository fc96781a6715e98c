// Which walks of a fetch keep.
ghost use Rattle.std.specs.Prelude.{◌≡◌, ◌<◌, ◌%◌, ◌/◌, ◌^◌, ◌==◌};
ghost use Rattle.std.specs.List.{list_any};
ghost use Rattle.fetch_ways.specs.Internal.Keeping.{is_clear, keeps_behind, keeps_with};
ghost use Rattle.fetch_ways.specs.Ways.{is_free_walk};

use crate::way::FetchEnd;
use foot_map::FootMap;
use row_parts::word_at;
use rv_mem::{Seen, Words};
use rv_script::Role;
use sv_walk::{View, is_invalid, is_pointer, is_translated};

/// What a fetch's walk rests on: memory, what was touched, and where the hart stands.
#[derive(Drop)]
pub struct Walker<'a, M: Words> {
    pub memory: &'a M,
    pub feet: &'a FootMap,
    pub hart: u8,
    pub view: View,
    pub pc: u32,
}

/// Whether an address is in the word of one of these.
fn is_one_of(words: &[u64], addr: u32) -> bool
    ensures { result ≡ list_any (λ word. word / 4 == addr / 4) words.now }
{
    words.iter().any(|word| *word / 4 == u64::from(addr / 4))
}

impl<'a, M: Words> Walker<'a, M> {
    /// Whether the walk of the entry at an address, a multiple of 4, races with nothing.
    fn is_free(&self, addr: u64) -> bool
        requires small { addr < 2 ^ 32 }
        requires aligned { addr % 4 ≡ 0 }
        ensures { result ≡ is_free_walk self.now.feet.now self.now.hart addr }
    {
        match self.feet.may(self.hart, Role::Walk, addr as u32, 4) {
            None => true,
            Some(_) => false,
        }
    }

    /// Whether a walk leads nowhere, or to a word that is not known and is none of those at these addresses.
    fn is_clear(&self, words: &[u64], end: FetchEnd) -> bool
        ensures { result ≡ is_clear (M.at self.now.memory.now) words.now end }
    {
        let FetchEnd::At(pa) = end else {
            return true;
        };
        match self.memory.word(pa - pa % 4) {
            Seen::Known(_) => false,
            Seen::Untouched | Seen::Vacant => !is_one_of(words, pa),
        }
    }

    /// Whether a walk keeps whose root entry, at this address, has this value, and that ends so.
    fn keeps_behind(&self, root: u64, entry: u32, new: bool, end: FetchEnd) -> bool
        ensures { result ≡ keeps_behind (M.at self.now.memory.now) self.now.feet.now self.now.hart self.now.pc root entry new end }
    {
        if is_invalid(entry) || !is_pointer(entry) {
            return !new || self.is_clear(&[root], end);
        }
        let second = u64::from(entry >> 10) * 4096 + u64::from(self.pc / 4096 % 1024) * 4;
        match word_at(self.memory, second) {
            Seen::Vacant => !new || self.is_clear(&[root], end),
            Seen::Known(_) => self.is_free(second) && (!new || self.is_clear(&[root, second], end)),
            Seen::Untouched => self.is_free(second) && self.is_clear(&[root, second], end),
        }
    }

    /// Whether the walk keeps that has this new root entry, if it is new, and that ends so.
    pub fn keeps(&self, first: u32, end: FetchEnd) -> bool
        ensures { result ≡ keeps_with (M.at self.now.memory.now) self.now.feet.now self.now.hart self.now.view self.now.pc first end }
    {
        if !is_translated(self.view) {
            return true;
        }
        let pc = self.pc;
        let root = u64::from(self.view.satp % 0x40_0000) * 4096 + u64::from(pc / 0x40_0000) * 4;
        match word_at(self.memory, root) {
            Seen::Vacant => true,
            Seen::Known(entry) => self.is_free(root) && self.keeps_behind(root, entry, false, end),
            Seen::Untouched => self.is_free(root) && self.keeps_behind(root, first, true, end),
        }
    }
}
