// A test that is being made.
ghost use Rattle.std.specs.Prelude.{◌≡◌, ◌<◌, ◌≤◌, ◌+◌, ◌*◌, ◌/◌, ◌%◌, ℕ, IsTrue, true, [], ◌∷◌, ◌++◌, length, take, slice_get, Some, None, OnOk, OnErr, IfOk, map, replicate, slice_index_or, List};
ghost use Rattle.part_machine.specs.Whole.{wholes, named, chosen, with_dropped, register_given, csr_given, word_given, next_of, record_in, stepped, IsReady, bare, no_hart, known_in, hart_of, records_of, IsNew, HasHart};
ghost use Rattle.rv_script.specs.declared.access.Access.{Access as AnAccess};
ghost use Rattle.rv_script.specs.Folds.{Answer.Does};
ghost use Rattle.rv_hart.specs.declared.record.Change.{Change as AChange};
ghost use Rattle.rv_hart.specs.Clauses.{IsFitRecord};
ghost use Rattle.rv_csr.specs.Table.{is_legal_at};
ghost use Rattle.rv_csr.specs.State.{is_untouched};
ghost use Rattle.rv_mem.specs.declared.words.Seen.TheVariants.{Untouched};
ghost use Rattle.rv_script.specs.declared.access.Role.{Role};
ghost use Rattle.rv_mem.specs.Part.{part_at};
ghost use Rattle.foot_map.specs.Touches.{has};
ghost use Rattle.tpl_admit.specs.declared.certificate.Cert.{Cert as ACert};
ghost use Rattle.tpl_admit.specs.Validity.{IsSound};
ghost use Rattle.part_laws.specs.Laws.{IsMade};
ghost use Rattle.part_state.specs.Meaning.{partial_of, CanStart, place_given, IsFit, IsNamed, IsClear, IsRegisterUntouched};
ghost use Rattle.part_state.specs.Probing.{IsProbe};
ghost use Rattle.part_told.specs.Words.{AreListed};
ghost use Rattle.rv_mem.specs.Ram.{in_ram};
ghost use Rattle.tpl_lang.specs.Laws.{TemplatesKeepLimits};
ghost use Rattle.tpl_lang.specs.Parsing.{Parses};
ghost use Rattle.tpl_ast.specs.States.{is_in_ram};
ghost use Rattle.tpl_admit.specs.WellFormed.{IsWellFormed};
ghost use Rattle.part_state.specs.Told.{Tells, FitsFile};
ghost use Rattle.part_state.specs.Beginning.{IsBegunFrom};
ghost use Rattle.part_state.specs.Internal.Parts.{history, now_of, IsKept};

use crate::OutOfMemory;
use crate::finishing::certificate_of;
use crate::probe::Probe;
use foot_map::FootMap;
use part_clash::least_clash;
use part_machine::{Entry, Notes, Running, Trace, copy_of};
use rv_hart::{Hart, Record, Stepped, look};
use rv_mem::{PartMem, Ram, Seen, Words};
use rv_script::Place;
use std::alloc::Global;
use tpl_admit::{Cert, Dropped};
use tpl_ast::Template;
use undo_log::Log;

/// A running machine with its log: a whole, and the list of the earlier ones, to which it can go back.
#[derive(Drop)]
pub struct Logged {
    machine: Running,
    log: Log<Entry>,
}

/// Each hart once more, and an empty list of records for each.
fn beginnings(alloc: Global, harts: &[Hart]) -> Result<(Vec<Hart>, Vec<Trace>), OutOfMemory>
    ensures first { IfOk result (λ r. map bare r.0.items ≡ map bare harts.now) }
    ensures traces { IfOk result (λ r. r.1.items ≡ replicate (length harts.now) []) }
{
    let mut first = Vec::new(alloc);
    let mut traces = Vec::new(alloc);
    for hart in harts {
        first.push(copy_of(hart))?;
        traces.push(Trace::new(alloc))?;
    }
    Ok((first, traces))
}

/// So many names without a value.
fn no_names(alloc: Global, count: usize) -> Result<Vec<Option<u32>>, OutOfMemory>
    ensures { IfOk result (λ r. r.items ≡ replicate count None) }
{
    let mut names = Vec::new(alloc);
    for _ in 0..count {
        names.push(None)?;
    }
    Ok(names)
}

impl Logged {
    /// Harts that did nothing yet, over a memory of which no word is known, and so many names without a value.
    fn new(alloc: Global, ram: &Ram, harts: Vec<Hart>, names: usize) -> Result<Logged, OutOfMemory>
        requires fit { (k : ℕ) → k < length harts.items → IsFit (slice_index_or (map bare harts.items) k no_hart) }
        requires numbers { (k : ℕ) → k < length harts.items → (slice_index_or (map bare harts.items) k no_hart).csrs.hart ≡ k }
        ensures kept { IfOk result (λ p. IsKept p) }
        ensures now { IfOk result (λ p. IsNew (map bare harts.items) ram.now names (now_of p)) }
        ensures earlier { IfOk result (λ p. (history p).earlier ≡ []) }
    {
        let (first, traces) = beginnings(alloc, &harts)?;
        let own = ram.copy(alloc)?;
        let memory = PartMem::new(alloc, ram)?;
        let names = no_names(alloc, names)?;
        Ok(Logged {
            machine: Running {
                ram: own,
                first,
                words: Vec::new(alloc),
                traces,
                harts,
                memory,
                feet: FootMap::new(alloc),
                names,
                choices: Vec::new(alloc),
                dropped: Vec::new(alloc),
            },
            log: Log::new(alloc),
        })
    }

    /// Harts that did nothing yet, over a memory of which just these words, pairs of address and value, are known.
    pub fn begun(
        alloc: Global,
        ram: &Ram,
        harts: Vec<Hart>,
        names: usize,
        words: &[(u32, u32)],
    ) -> Result<Logged, OutOfMemory>
        requires fit { (k : ℕ) → k < length harts.items → IsFit (slice_index_or (map bare harts.items) k no_hart) }
        requires numbers { (k : ℕ) → k < length harts.items → (slice_index_or (map bare harts.items) k no_hart).csrs.hart ≡ k }
        requires words { AreListed ram.now 0 words.now }
        ensures kept { IfOk result (λ p. IsKept p) }
        ensures now { IfOk result (λ p. IsBegunFrom (map bare harts.items) ram.now names words.now (now_of p)) }
        ensures earlier { IfOk result (λ p. (history p).earlier ≡ []) }
    {
        let mut test = Logged::new(alloc, ram, harts, names)?;
        for word in words {
            test.start_word(word.0, word.1)?;
        }
        let Logged { machine, log: _ } = test;
        Ok(Logged {
            machine,
            log: Log::new(alloc),
        })
    }

    /// How many harts there are.
    pub fn harts(&self) -> usize
        ensures { result ≡ length (now_of self.now).harts }
    {
        self.machine.harts.len()
    }

    /// A hart now.
    pub fn hart(&self, hart: u8) -> &Hart
        requires { HasHart hart (now_of self.now) }
        ensures { bare result.now ≡ hart_of hart (now_of self.now) }
    {
        &self.machine.harts[hart as usize]
    }

    /// RAM.
    pub fn ram(&self) -> &Ram
        ensures { result.now ≡ (now_of self.now).ram }
    {
        &self.machine.ram
    }

    /// Memory now.
    pub fn memory(&self) -> &PartMem
        ensures { (n : ℕ) → part_at result.now n ≡ (now_of self.now).memory n }
    {
        &self.machine.memory
    }

    /// The footprints of all records.
    pub fn feet(&self) -> &FootMap
        ensures { (b h : ℕ) (r : Role) → has result.now b h r ≡ (now_of self.now).feet b h r }
    {
        &self.machine.feet
    }

    /// The records of a hart, in order.
    pub fn records(&self, hart: u8) -> &[Record]
        requires { HasHart hart (now_of self.now) }
        ensures { result.now ≡ records_of hart (now_of self.now) }
    {
        self.machine.traces[hart as usize].as_slice()
    }

    /// A name's value, where it has one.
    pub fn name(&self, name: u32) -> Option<u32>
        ensures { result ≡ slice_index_or (now_of self.now).names name None }
    {
        match self.machine.names.get(name as usize) {
            Some(value) => *value,
            None => None,
        }
    }

    /// The value of a place, where it is known.
    pub fn value_of(&self, hart: u8, place: Place) -> Option<u32>
        requires hart { HasHart hart (now_of self.now) }
        requires place { IsNamed place }
        ensures { result ≡ known_in (hart_of hart (now_of self.now)) (now_of self.now).memory place }
    {
        let now = self.hart(hart);
        match place {
            Place::Reg(n) => now.register(n),
            Place::Csr(addr) => now.csrs.lazy_at(addr),
            Place::Word(addr) => match self.machine.memory.word(addr) {
                Seen::Known(word) => Some(word),
                _ => None,
            },
        }
    }

    /// What the next step of a hart would do. It takes no memory.
    pub fn probe(&self, hart: u8) -> Probe
        requires kept { IsKept self.now }
        requires hart { HasHart hart (now_of self.now) }
        ensures { IsProbe hart (now_of self.now) result }
    {
        match look(self.hart(hart), &self.machine.memory) {
            Stepped::Missing(place) => Probe::Missing(place),
            Stepped::Outside => Probe::Outside,
            Stepped::Did(done) => {
                match least_clash(&self.machine.feet, hart, done.accesses.as_slice()) {
                    Some(clash) => Probe::Clash(clash),
                    None => Probe::Ready(done),
                }
            }
        }
    }

    /// How many changes stand.
    #[tactic(auto, using(crate::proofs::Wholes::length_earlier))]
    pub fn mark(&self) -> usize
        ensures { result ≡ length (history self.now).earlier }
    {
        self.log.mark()
    }

    /// Goes back to the whole that stands at this number, counted from 0. It takes no memory.
    pub fn rollback(&mut self, mark: usize)
        requires kept { IsKept self.old }
        requires mark { mark ≤ length (history self.old).earlier }
        ensures kept { IsKept self.new }
        ensures wholes { wholes (history self.new) ≡ take (mark + 1) (wholes (history self.old)) }
    {
        while let Some(entry) = self.log.pop_above(mark) {
            self.machine.undo(&entry);
        }
    }

    /// Gives a name its value. A refusal changes nothing.
    pub fn bind(&mut self, name: u32, value: u32) -> Result<(), OutOfMemory>
        requires kept { IsKept self.old }
        requires unbound { slice_get (now_of self.old).names name ≡ Some None }
        ensures kept { IsKept self.new }
        ensures now { OnOk result (now_of self.new ≡ named name value (now_of self.old)) }
        ensures earlier { OnOk result ((history self.new).earlier ≡ (history self.old).earlier ++ now_of self.old ∷ []) }
        ensures refused { OnErr result (history self.new ≡ history self.old) }
    {
        self.log.push(Entry::Name { name })?;
        self.machine.set_name(name, value);
        Ok(())
    }

    /// Appends to the choices. A refusal changes nothing.
    pub fn take_choice(&mut self, way: u32) -> Result<(), OutOfMemory>
        requires { IsKept self.old }
        ensures kept { IsKept self.new }
        ensures now { OnOk result (now_of self.new ≡ chosen way (now_of self.old)) }
        ensures earlier { OnOk result ((history self.new).earlier ≡ (history self.old).earlier ++ now_of self.old ∷ []) }
        ensures refused { OnErr result (history self.new ≡ history self.old) }
    {
        let mark = self.log.mark();
        self.log.push(Entry::Choice)?;
        match self.machine.add_choice(way) {
            Ok(()) => Ok(()),
            Err(_) => {
                self.log.pop_above(mark);
                Err(OutOfMemory)
            }
        }
    }

    /// Appends to the dropped biases. A refusal changes nothing.
    pub fn drop_wish(&mut self, wish: Dropped) -> Result<(), OutOfMemory>
        requires { IsKept self.old }
        ensures kept { IsKept self.new }
        ensures now { OnOk result (now_of self.new ≡ with_dropped wish (now_of self.old)) }
        ensures earlier { OnOk result ((history self.new).earlier ≡ (history self.old).earlier ++ now_of self.old ∷ []) }
        ensures refused { OnErr result (history self.new ≡ history self.old) }
    {
        let mark = self.log.mark();
        self.log.push(Entry::Wish)?;
        match self.machine.add_wish(wish) {
            Ok(()) => Ok(()),
            Err(_) => {
                self.log.pop_above(mark);
                Err(OutOfMemory)
            }
        }
    }

    /// Gives a place that has no value yet its first one. A refusal changes nothing.
    pub fn start_place(&mut self, hart: u8, place: Place, value: u32) -> Result<(), OutOfMemory>
        requires kept { IsKept self.old }
        requires hart { HasHart hart (now_of self.old) }
        requires start { CanStart hart place value (now_of self.old) }
        ensures kept { IsKept self.new }
        ensures now { OnOk result (now_of self.new ≡ place_given hart place value (now_of self.old)) }
        ensures earlier { OnOk result ((history self.new).earlier ≡ (history self.old).earlier ++ now_of self.old ∷ []) }
        ensures refused { OnErr result (history self.new ≡ history self.old) }
    {
        match place {
            Place::Reg(n) => self.start_register(hart, n, value),
            Place::Csr(addr) => self.start_csr(hart, addr, value),
            Place::Word(addr) => self.start_word(addr, value),
        }
    }

    /// Does nothing. Its contract says that each certificate that has the start, the records and the end of this test is sound.
    pub fn certificates_are_sound(&self)
        requires { IsKept self.now }
        ensures { (c : ACert) → IsMade (partial_of (now_of self.now)) c → IsSound c }
    {
        let _ = self.log.mark();
    }

    /// Gives a register its first value. A refusal changes nothing.
    pub fn start_register(&mut self, hart: u8, n: u8, value: u32) -> Result<(), OutOfMemory>
        requires kept { IsKept self.old }
        requires hart { HasHart hart (now_of self.old) }
        requires register { (0 < n) × (n < 32) }
        requires untouched { IsRegisterUntouched hart n (now_of self.old) }
        ensures kept { IsKept self.new }
        ensures now { OnOk result (now_of self.new ≡ register_given hart n value (now_of self.old)) }
        ensures earlier { OnOk result ((history self.new).earlier ≡ (history self.old).earlier ++ now_of self.old ∷ []) }
        ensures refused { OnErr result (history self.new ≡ history self.old) }
    {
        let entry = self.machine.place_entry(hart);
        self.log.push(entry)?;
        self.machine.give_register(hart, n, value);
        Ok(())
    }

    /// Gives a lazy CSR its first value. A refusal changes nothing.
    pub fn start_csr(&mut self, hart: u8, addr: u16, value: u32) -> Result<(), OutOfMemory>
        requires kept { IsKept self.old }
        requires hart { HasHart hart (now_of self.old) }
        requires untouched { is_untouched (hart_of hart (now_of self.old)).csrs addr ≡ true }
        requires legal { IsTrue (is_legal_at addr value) }
        ensures kept { IsKept self.new }
        ensures now { OnOk result (now_of self.new ≡ csr_given hart addr value (now_of self.old)) }
        ensures earlier { OnOk result ((history self.new).earlier ≡ (history self.old).earlier ++ now_of self.old ∷ []) }
        ensures refused { OnErr result (history self.new ≡ history self.old) }
    {
        let entry = self.machine.place_entry(hart);
        self.log.push(entry)?;
        self.machine.give_csr(hart, addr, value);
        Ok(())
    }

    /// Gives a word of memory its first value. A refusal changes nothing.
    pub fn start_word(&mut self, addr: u32, value: u32) -> Result<(), OutOfMemory>
        requires kept { IsKept self.old }
        requires aligned { addr % 4 ≡ 0 }
        requires untouched { (now_of self.old).memory (addr / 4) ≡ Untouched }
        ensures kept { IsKept self.new }
        ensures now { OnOk result (now_of self.new ≡ word_given addr value (now_of self.old)) }
        ensures earlier { OnOk result ((history self.new).earlier ≡ (history self.old).earlier ++ now_of self.old ∷ []) }
        ensures refused { OnErr result (history self.new ≡ history self.old) }
    {
        let mark = self.log.mark();
        self.log.push(Entry::Word { addr })?;
        match self.machine.give_word(addr, value) {
            Ok(()) => Ok(()),
            Err(_) => {
                self.log.pop_above(mark);
                Err(OutOfMemory)
            }
        }
    }

    /// Does the next step of a hart, and gives its record. A refusal changes nothing.
    pub fn advance(&mut self, hart: u8) -> Result<Record, OutOfMemory>
        requires kept { IsKept self.old }
        requires hart { HasHart hart (now_of self.old) }
        requires ready { IsReady hart (now_of self.old) }
        requires clear { IsClear hart (now_of self.old) }
        ensures kept { IsKept self.new }
        ensures now { OnOk result ((xs : List AnAccess) (c : AChange) → next_of hart (now_of self.old) ≡ Does xs c → now_of self.new ≡ stepped hart xs c (now_of self.old)) }
        ensures record { IfOk result (λ r. (xs : List AnAccess) (c : AChange) → next_of hart (now_of self.old) ≡ Does xs c → r ≡ record_in (hart_of hart (now_of self.old)) (now_of self.old).memory xs c) }
        ensures fit { IfOk result IsFitRecord }
        ensures earlier { OnOk result ((history self.new).earlier ≡ (history self.old).earlier ++ now_of self.old ∷ []) }
        ensures refused { OnErr result (history self.new ≡ history self.old) }
    {
        let mark = self.log.mark();
        // The room in the log; what stands there until the step is done is no matter.
        self.log.push(Entry::Choice)?;
        let now = self.machine.copy_now(hart);
        let mut notes = Notes::new();
        match self.machine.advance(hart, &mut notes) {
            Ok(done) => {
                self.log.set_last(Entry::Step { hart, now, notes });
                Ok(done)
            }
            Err(_) => {
                self.log.pop_above(mark);
                Err(OutOfMemory)
            }
        }
    }

    /// The certificate of the test.
    pub fn certificate(&self, alloc: Global, t: Template) -> Result<Cert, OutOfMemory>
        requires kept { IsKept self.now }
        requires harts { length t.harts ≡ length (now_of self.now).harts }
        requires ram { (n : ℕ) → is_in_ram t.ram (n * 4) ≡ in_ram (now_of self.now).ram n }
        ensures tells { IfOk result (Tells t (now_of self.now)) }
        ensures made { IfOk result (IsMade (partial_of (now_of self.now))) }
        ensures sound { IfOk result IsSound }
        ensures well_formed { TemplatesKeepLimits → IfOk result (λ c. Parses t.text t → FitsFile c → IsWellFormed c) }
    {
        let certificate = certificate_of(alloc, &self.machine, t)?;
        Ok(certificate)
    }
}
