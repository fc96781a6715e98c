// What is noted of the accesses of a step, so that it can be undone.
ghost use Rattle.std.specs.Prelude.{◌≡◌, ◌<◌, ◌≤◌, ◌/◌, ℕ, All, [], ◌∷◌, ◌++◌, length, OnOk, OnErr};
ghost use Rattle.rv_script.specs.declared.access.Role.{Role};
ghost use Rattle.rv_mem.specs.Part.{part_at};
ghost use Rattle.rv_mem.specs.declared.words.Seen.TheVariants.{Known};
ghost use Rattle.rv_hart.specs.Effects.{IsInWord};
ghost use Rattle.foot_map.specs.Touches.{has};
ghost use Rattle.part_machine.specs.Notes.{AreNotes, IsKnownAt, IsWithinWord, put_back, taken_out, with_seen};

use crate::OutOfMemory;
use arrayvec::ArrayVec;
use foot_map::FootMap;
use rv_mem::{PartMem, Seen, Words};
use rv_script::{Access, Role};
use std::marker::Model;

/// What an access found.
#[derive(Clone, Copy, Debug, Default, PartialEq, Eq)]
pub struct Note {
    pub role: Role,
    pub addr: u32,
    /// The bytes that were new in the footprint.
    pub mask: u8,
    /// The word that stood there before the step.
    pub word: u32,
}

/// The notes of one step, at most eight.
#[derive(Drop)]
pub struct Notes {
    items: ArrayVec<Note, 8>,
}

impl Model for Notes {
    ghost use Rattle.std.specs.Prelude.{List};
    ghost use Rattle.part_machine.specs.declared.notes.Note.{Note};

    ghost Value = { List Note };

    ghost view = { λ a. a.items.items };
}

impl Notes {
    pub fn new() -> Self
        ensures { result ≡ [] }
    {
        Notes {
            items: ArrayVec::new(),
        }
    }

    pub fn push(&mut self, note: Note)
        requires { length self.old < 8 }
        ensures { self.new ≡ self.old ++ note ∷ [] }
    {
        self.items.push(note);
    }

    pub fn as_slice(&self) -> &[Note]
        ensures { result.now ≡ self.now }
    {
        self.items.as_slice()
    }
}

/// The value of the word at an address, which is known.
fn known_word(memory: &PartMem, addr: u32) -> u32
    requires { IsKnownAt (part_at memory.now) addr }
    ensures { part_at memory.now (addr / 4) ≡ Known result }
{
    match memory.word(addr - addr % 4) {
        Seen::Known(word) => word,
        _ => unreachable!(),
    }
}

/// Takes out of a footprint what was new in it.
pub fn remove_all(feet: &mut FootMap, hart: u8, notes: &[Note])
    requires { All IsWithinWord notes.now }
    ensures { (b h : ℕ) (r : Role) → has feet.new b h r ≡ taken_out hart notes.now (has feet.old) b h r }
{
    for note in notes {
        feet.remove(hart, note.role, note.addr, note.mask);
    }
}

/// Adds the bytes of accesses to a footprint, and notes what they found. A refusal changes nothing.
pub fn add_all(
    feet: &mut FootMap,
    memory: &PartMem,
    hart: u8,
    accesses: &[Access],
    notes: &mut Notes,
) -> Result<(), OutOfMemory>
    requires empty { notes.old ≡ [] }
    requires room { length accesses.now ≤ 8 }
    requires words { All IsInWord accesses.now }
    requires known { All (λ x. IsKnownAt (part_at memory.now) x.addr) accesses.now }
    ensures noted { OnOk result (AreNotes hart accesses.now (part_at memory.now) (has feet.old) (has feet.new) notes.new) }
    ensures refused { OnErr result ((b h : ℕ) (r : Role) → has feet.new b h r ≡ has feet.old b h r) }
{
    for access in accesses {
        let word = known_word(memory, access.addr);
        match feet.add(hart, access.role, access.addr, access.size) {
            Ok(mask) => notes.push(Note {
                role: access.role,
                addr: access.addr,
                mask,
                word,
            }),
            Err(_) => {
                remove_all(feet, hart, notes.as_slice());
                return Err(OutOfMemory);
            }
        }
    }
    Ok(())
}

/// Puts a word back that is known; that takes no memory.
fn put_word(memory: &mut PartMem, addr: u32, word: u32)
    requires { IsKnownAt (part_at memory.old) addr }
    ensures { (n : ℕ) → part_at memory.new n ≡ with_seen (addr / 4) (Known word) (part_at memory.old) n }
{
    if memory.put(addr - addr % 4, word).is_err() {
        unreachable!();
    }
}

/// Puts back the words that stood at the accesses.
pub fn put_back_all(memory: &mut PartMem, notes: &[Note])
    requires { All (λ x. IsKnownAt (part_at memory.old) x.addr) notes.now }
    ensures { (n : ℕ) → part_at memory.new n ≡ put_back notes.now (part_at memory.old) n }
{
    for note in notes {
        put_word(memory, note.addr, note.word);
    }
}
