// The machine while a test is being made.
ghost use Rattle.std.specs.Prelude.{◌≡◌, ◌<◌, ◌/◌, ◌%◌, ℕ, true, All, [], ◌∷◌, ◌++◌, length, map, slice_set, slice_index_or, Some, None, OnOk, OnErr, IfOk, IsTrue, List};
ghost use Rattle.rv_mem.specs.Part.{part_at};
ghost use Rattle.rv_mem.specs.Seen.{is_there};
ghost use Rattle.rv_mem.specs.declared.words.Seen.TheVariants.{Untouched};
ghost use Rattle.rv_script.specs.declared.access.Access.{Access as AnAccess};
ghost use Rattle.rv_script.specs.Folds.{Answer.Does};
ghost use Rattle.rv_hart.specs.declared.record.Change.{Change as AChange};
ghost use Rattle.rv_hart.specs.Changes.{IsSoundWrite};
ghost use Rattle.rv_hart.specs.Clauses.{IsFitRecord};
ghost use Rattle.rv_hart.specs.Effects.{IsInWord, seen_after};
ghost use Rattle.foot_map.specs.Touches.{has};
ghost use Rattle.part_machine.specs.Notes.{AreNotes, IsKnownAt, with_seen};
ghost use Rattle.part_machine.specs.Whole.{next_in, next_of, stepped, IsReady, bare_after, record_in, prepared, bare, named, chosen, with_dropped, register_given, csr_given, word_given, with_register, with_csr, hart_of, no_hart, HasHart, IsCsrUntouched};
ghost use Rattle.rv_csr.specs.Table.{is_legal_at};
ghost use Rattle.rv_csr.specs.State.{is_untouched};
ghost use Rattle.rv_mem.specs.declared.words.Seen.TheVariants.{Known};
ghost use Rattle.part_machine.specs.Internal.Places.{IsPlaceEntry};
ghost use Rattle.part_machine.specs.ButLast.{but_last};
ghost use Rattle.part_machine.specs.Undo.{undone, whole_of, IsWithin};

use crate::OutOfMemory;
use crate::entry::Entry;
use crate::notes::{Notes, add_all, put_back_all, remove_all};
use crate::trace::Trace;
use foot_map::FootMap;
use rv_hart::{Hart, Record, Stepped, look, step};
use rv_mem::{PartMem, Ram};
use tpl_admit::Dropped;

/// A start that grows, what the harts did from it, and where they stand.
#[derive(Drop)]
pub struct Running {
    pub ram: Ram,
    /// Each hart at the start.
    pub first: Vec<Hart>,
    /// The words that the start gives, as pairs of number and value in the order in which they were given.
    pub words: Vec<(u32, u32)>,
    pub traces: Vec<Trace>,
    /// Each hart now.
    pub harts: Vec<Hart>,
    pub memory: PartMem,
    pub feet: FootMap,
    pub names: Vec<Option<u32>>,
    pub choices: Vec<u32>,
    pub dropped: Vec<Dropped>,
}

/// The same hart once more.
pub fn copy_of(hart: &Hart) -> Hart
    ensures { bare result ≡ bare hart.now }
{
    Hart {
        pc: hart.pc,
        privilege: hart.privilege,
        regs: hart.regs,
        csrs: hart.csrs,
    }
}

/// Takes the last one away.
fn drop_last<T: Drop>(items: &mut Vec<T>)
    ensures { items.new.items ≡ but_last items.old.items }
{
    items.pop();
}

/// Takes the last record of a hart away.
fn drop_record(traces: &mut Vec<Trace>, hart: u8)
    requires { hart < length traces.old.items }
    ensures { traces.new.items ≡ slice_set traces.old.items hart (but_last (slice_index_or traces.old.items hart [])) }
{
    traces[hart as usize].pop();
}

/// Puts a hart in its place again.
fn put_hart(harts: &mut Vec<Hart>, k: u8, hart: &Hart)
    requires { k < length harts.old.items }
    ensures { map bare harts.new.items ≡ slice_set (map bare harts.old.items) k (bare hart.now) }
{
    harts[k as usize] = copy_of(hart);
}

/// Makes a word untouched.
fn forget_memory(memory: &mut PartMem, addr: u32)
    requires aligned { addr % 4 ≡ 0 }
    requires there { is_there (part_at memory.old (addr / 4)) ≡ true }
    ensures { (i : ℕ) → part_at memory.new i ≡ with_seen (addr / 4) Untouched (part_at memory.old) i }
{
    memory.forget(addr);
}

/// Gives a name its value.
fn set_name(names: &mut Vec<Option<u32>>, name: u32, value: u32)
    requires { name < length names.old.items }
    ensures { names.new.items ≡ slice_set names.old.items name (Some value) }
{
    names[name as usize] = Some(value);
}

/// Gives a register its value.
fn give_register(harts: &mut Vec<Hart>, k: u8, n: u8, value: u32)
    requires hart { k < length harts.old.items }
    requires register { (0 < n) × (n < 32) }
    ensures { map bare harts.new.items ≡ slice_set (map bare harts.old.items) k (with_register n value (slice_index_or (map bare harts.old.items) k no_hart)) }
{
    harts[k as usize].regs[n as usize] = Some(value);
}

/// Gives a lazy CSR its value.
fn give_csr(harts: &mut Vec<Hart>, k: u8, addr: u16, value: u32)
    requires hart { k < length harts.old.items }
    requires untouched { is_untouched (slice_index_or (map bare harts.old.items) k no_hart).csrs addr ≡ true }
    requires legal { IsTrue (is_legal_at addr value) }
    ensures { map bare harts.new.items ≡ slice_set (map bare harts.old.items) k (with_csr addr value (slice_index_or (map bare harts.old.items) k no_hart)) }
{
    harts[k as usize].csrs.start(addr, value);
}

/// Gives a word of the start its value. A refusal changes nothing.
fn give_start_word(words: &mut Vec<(u32, u32)>, n: u32, value: u32) -> Result<(), OutOfMemory>
    ensures given { OnOk result (words.new.items ≡ words.old.items ++ (n, value) ∷ []) }
    ensures refused { OnErr result (words.new.items ≡ words.old.items) }
{
    words.push((n, value))?;
    Ok(())
}

/// Gives a word of memory its value. A refusal changes nothing.
fn give_memory_word(memory: &mut PartMem, addr: u32, value: u32) -> Result<(), OutOfMemory>
    requires aligned { addr % 4 ≡ 0 }
    requires untouched { part_at memory.old (addr / 4) ≡ Untouched }
    ensures given { OnOk result ((i : ℕ) → part_at memory.new i ≡ with_seen (addr / 4) (Known value) (part_at memory.old) i) }
    ensures refused { OnErr result ((i : ℕ) → part_at memory.new i ≡ part_at memory.old i) }
{
    memory.put(addr, value)?;
    Ok(())
}

/// Appends a record to those of a hart. A refusal changes nothing.
fn push_record(traces: &mut Vec<Trace>, k: u8, done: Record) -> Result<(), OutOfMemory>
    requires { k < length traces.old.items }
    ensures pushed { OnOk result (traces.new.items ≡ slice_set traces.old.items k (slice_index_or traces.old.items k [] ++ done ∷ [])) }
    ensures refused { OnErr result (traces.new.items ≡ traces.old.items) }
{
    traces[k as usize].push(done)
}

/// Does the next step of a hart, which is told on what is known.
fn do_step(harts: &mut Vec<Hart>, k: u8, memory: &mut PartMem) -> Record
    requires hart { k < length harts.old.items }
    requires ready { (xs : List AnAccess) × (c : AChange) × (next_in (slice_index_or (map bare harts.old.items) k no_hart) (part_at memory.old) ≡ Does xs c) }
    ensures hart { (xs : List AnAccess) (c : AChange) → next_in (slice_index_or (map bare harts.old.items) k no_hart) (part_at memory.old) ≡ Does xs c
        → map bare harts.new.items ≡ slice_set (map bare harts.old.items) k (bare_after c (slice_index_or (map bare harts.old.items) k no_hart)) }
    ensures memory { (xs : List AnAccess) (c : AChange) → next_in (slice_index_or (map bare harts.old.items) k no_hart) (part_at memory.old) ≡ Does xs c
        → (n : ℕ) → part_at memory.new n ≡ seen_after xs (part_at memory.old) n }
    ensures record { (xs : List AnAccess) (c : AChange) → next_in (slice_index_or (map bare harts.old.items) k no_hart) (part_at memory.old) ≡ Does xs c
        → result ≡ record_in (slice_index_or (map bare harts.old.items) k no_hart) (part_at memory.old) xs c }
    ensures fit { IsFitRecord result }
{
    match step(&mut harts[k as usize], memory) {
        Stepped::Did(done) => done,
        _ => unreachable!(),
    }
}

/// The record of the next step of a hart, which is told on what is known.
fn next_record(harts: &Vec<Hart>, k: u8, memory: &PartMem) -> Record
    requires hart { k < length harts.now.items }
    requires ready { (xs : List AnAccess) × (c : AChange) × (next_in (slice_index_or (map bare harts.now.items) k no_hart) (part_at memory.now) ≡ Does xs c) }
    ensures record { (xs : List AnAccess) (c : AChange) → next_in (slice_index_or (map bare harts.now.items) k no_hart) (part_at memory.now) ≡ Does xs c
        → result ≡ record_in (slice_index_or (map bare harts.now.items) k no_hart) (part_at memory.now) xs c }
    ensures words { All IsInWord result.accesses }
    ensures rd { IsSoundWrite result.rd }
{
    match look(&harts[k as usize], memory) {
        Stepped::Did(done) => done,
        _ => unreachable!(),
    }
}

impl Running {
    /// Takes the room for a record: its place, and its accesses in the footprints. A refusal changes nothing.
    pub fn prepare(&mut self, hart: u8, done: Record, notes: &mut Notes) -> Result<(), OutOfMemory>
        requires hart { HasHart hart (whole_of self.old) }
        requires empty { notes.old ≡ [] }
        requires words { All IsInWord done.accesses }
        requires known { All (λ x. IsKnownAt (part_at self.old.memory) x.addr) done.accesses }
        ensures prepared { OnOk result (whole_of self.new ≡ prepared hart done (whole_of self.old)) }
        ensures noted { OnOk result (AreNotes hart done.accesses (part_at self.old.memory) (has self.old.feet) (has self.new.feet) notes.new) }
        ensures refused { OnErr result (whole_of self.new ≡ whole_of self.old) }
    {
        let _ = done.accesses.len();
        add_all(
            &mut self.feet,
            &self.memory,
            hart,
            done.accesses.as_slice(),
            notes,
        )?;
        match push_record(&mut self.traces, hart, done) {
            Ok(()) => Ok(()),
            Err(refused) => {
                remove_all(&mut self.feet, hart, notes.as_slice());
                Err(refused)
            }
        }
    }

    /// The hart of now once more.
    pub fn copy_now(&self, hart: u8) -> Hart
        requires { HasHart hart (whole_of self.now) }
        ensures { bare result ≡ hart_of hart (whole_of self.now) }
    {
        copy_of(&self.harts[hart as usize])
    }

    /// Does the next step of a hart, with notes of what its accesses found, and gives its record. A refusal changes nothing.
    pub fn advance(&mut self, hart: u8, notes: &mut Notes) -> Result<Record, OutOfMemory>
        requires hart { HasHart hart (whole_of self.old) }
        requires ready { IsReady hart (whole_of self.old) }
        requires empty { notes.old ≡ [] }
        ensures done { OnOk result ((xs : List AnAccess) (c : AChange) → next_of hart (whole_of self.old) ≡ Does xs c
            → (whole_of self.new ≡ stepped hart xs c (whole_of self.old)) × AreNotes hart xs (part_at self.old.memory) (has self.old.feet) (has self.new.feet) notes.new × IsSoundWrite c.rd × All IsInWord xs) }
        ensures record { IfOk result (λ r. (xs : List AnAccess) (c : AChange) → next_of hart (whole_of self.old) ≡ Does xs c → r ≡ record_in (hart_of hart (whole_of self.old)) (part_at self.old.memory) xs c) }
        ensures fit { IfOk result IsFitRecord }
        ensures refused { OnErr result (whole_of self.new ≡ whole_of self.old) }
    {
        let done = next_record(&self.harts, hart, &self.memory);
        self.prepare(hart, done, notes)?;
        Ok(do_step(&mut self.harts, hart, &mut self.memory))
    }

    /// A hart at the start and now, as a change of a place replaces them.
    pub fn place_entry(&self, hart: u8) -> Entry
        requires { HasHart hart (whole_of self.now) }
        ensures { IsPlaceEntry hart (whole_of self.now) result }
    {
        Entry::Place {
            hart,
            first: copy_of(&self.first[hart as usize]),
            now: copy_of(&self.harts[hart as usize]),
        }
    }

    /// Appends to the choices. A refusal changes nothing.
    pub fn add_choice(&mut self, way: u32) -> Result<(), OutOfMemory>
        ensures added { OnOk result (whole_of self.new ≡ chosen way (whole_of self.old)) }
        ensures refused { OnErr result (whole_of self.new ≡ whole_of self.old) }
    {
        self.choices.push(way)?;
        Ok(())
    }

    /// Appends to the dropped biases. A refusal changes nothing.
    pub fn add_wish(&mut self, wish: Dropped) -> Result<(), OutOfMemory>
        ensures added { OnOk result (whole_of self.new ≡ with_dropped wish (whole_of self.old)) }
        ensures refused { OnErr result (whole_of self.new ≡ whole_of self.old) }
    {
        self.dropped.push(wish)?;
        Ok(())
    }

    pub fn set_name(&mut self, name: u32, value: u32)
        requires { name < length self.old.names.items }
        ensures { whole_of self.new ≡ named name value (whole_of self.old) }
    {
        set_name(&mut self.names, name, value);
    }

    pub fn give_register(&mut self, hart: u8, n: u8, value: u32)
        requires hart { HasHart hart (whole_of self.old) }
        requires register { (0 < n) × (n < 32) }
        ensures { whole_of self.new ≡ register_given hart n value (whole_of self.old) }
    {
        give_register(&mut self.first, hart, n, value);
        give_register(&mut self.harts, hart, n, value);
    }

    pub fn give_csr(&mut self, hart: u8, addr: u16, value: u32)
        requires hart { HasHart hart (whole_of self.old) }
        requires untouched { IsCsrUntouched hart addr (whole_of self.old) }
        requires legal { IsTrue (is_legal_at addr value) }
        ensures { whole_of self.new ≡ csr_given hart addr value (whole_of self.old) }
    {
        give_csr(&mut self.first, hart, addr, value);
        give_csr(&mut self.harts, hart, addr, value);
    }

    /// Gives a word its first value. A refusal changes nothing.
    pub fn give_word(&mut self, addr: u32, value: u32) -> Result<(), OutOfMemory>
        requires aligned { addr % 4 ≡ 0 }
        requires untouched { part_at self.old.memory (addr / 4) ≡ Untouched }
        ensures given { OnOk result (whole_of self.new ≡ word_given addr value (whole_of self.old)) }
        ensures refused { OnErr result (whole_of self.new ≡ whole_of self.old) }
    {
        give_start_word(&mut self.words, addr / 4, value)?;
        match give_memory_word(&mut self.memory, addr, value) {
            Ok(()) => Ok(()),
            Err(refused) => {
                drop_last(&mut self.words);
                Err(refused)
            }
        }
    }

    /// Undoes a change.
    pub fn undo(&mut self, entry: &Entry)
        requires { IsWithin entry.now (whole_of self.old) }
        ensures { whole_of self.new ≡ undone entry.now (whole_of self.old) }
    {
        match entry {
            Entry::Place { hart, first, now } => {
                put_hart(&mut self.first, *hart, first);
                put_hart(&mut self.harts, *hart, now);
            }
            Entry::Word { addr } => {
                drop_last(&mut self.words);
                forget_memory(&mut self.memory, *addr);
            }
            Entry::Step { hart, now, notes } => {
                drop_record(&mut self.traces, *hart);
                put_hart(&mut self.harts, *hart, now);
                put_back_all(&mut self.memory, notes.as_slice());
                remove_all(&mut self.feet, *hart, notes.as_slice());
            }
            Entry::Name { name } => self.names[*name as usize] = None,
            Entry::Choice => drop_last(&mut self.choices),
            Entry::Wish => drop_last(&mut self.dropped),
        }
    }
}
