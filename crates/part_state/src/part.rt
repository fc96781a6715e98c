// A test that is being made.
ghost use Rattle.std.specs.Prelude.{◌≡◌, ◌<◌, ◌≤◌, ◌+◌, ◌*◌, ℕ, List, [], ◌∷◌, ◌++◌, length, take, slice_get, slice_index_or, Some, None, OnOk, OnErr, IfOk};
ghost use Rattle.rv_script.specs.declared.access.Access.{Access as AnAccess};
ghost use Rattle.rv_script.specs.Folds.{Answer.Does};
ghost use Rattle.rv_mem.specs.Part.{part_at};
ghost use Rattle.rv_hart.specs.declared.record.Change.{Change as AChange};
ghost use Rattle.rv_hart.specs.Clauses.{IsFitRecord};
ghost use Rattle.foot_map.specs.Races.{IsFootprint};
ghost use Rattle.tpl_admit.specs.declared.certificate.Cert.{Cert as ACert};
ghost use Rattle.tpl_admit.specs.Races.{footprints_of};
ghost use Rattle.tpl_admit.specs.Validity.{IsSound};
ghost use Rattle.part_laws.specs.Partial.{IsPartialTest};
ghost use Rattle.part_laws.specs.Laws.{IsMade};
ghost use Rattle.part_machine.specs.Whole.{named, chosen, with_dropped, next_of, stepped, record_in, IsReady, bare, known_in, hart_of, records_of};
ghost use Rattle.part_state.specs.Meaning.{partial_of, CanStart, place_given, IsNamed, IsClear, IsTest};
ghost use Rattle.part_state.specs.Probing.{IsProbe};
ghost use Rattle.tpl_lang.specs.Parsing.{Parses};
ghost use Rattle.tpl_ast.specs.States.{is_in_ram};
ghost use Rattle.tpl_admit.specs.WellFormed.{IsWellFormed};
ghost use Rattle.part_state.specs.Beginning.{IsBegun};
ghost use Rattle.part_state.specs.Told.{Tells, FitsFile};
ghost use Rattle.rv_mem.specs.Ram.{in_ram};
ghost use Rattle.rv_mem.specs.Seen.{is_there};
ghost use Rattle.part_state.specs.State.{data_of, here, tests};

use crate::OutOfMemory;
use crate::logged::Logged;
use crate::probe::Probe;
use crate::starting::{harts_of, ram_of};
use foot_map::FootMap;
use rv_hart::{Hart, Record};
use rv_mem::{PartMem, Ram};
use rv_script::Place;
use std::alloc::Global;
use std::marker::Model;
use tpl_admit::{Cert, Dropped};
use tpl_ast::Template;
use tpl_lang::template_law;

/// A test that is being made, and the earlier ones, to which it can go back.
#[derive(Drop)]
pub struct Part {
    inner: Logged,
}

impl Model for Part {
    ghost use Rattle.part_state.specs.State.{State, state_in};

    ghost Value = { State };

    ghost use Rattle.part_state.specs.Internal.Parts.{history, IsKept};

    ghost view = { λ p. state_in (history p.inner) };

    ghost invariant = { λ p. IsKept p.inner };
}

impl Part {
    /// A test that begins as a template says, with nothing done.
    pub fn new(alloc: Global, t: &Template) -> Result<Part, OutOfMemory>
        requires parses { Parses t.now.text t.now }
        ensures now { IfOk result (λ p. IsBegun t.now (here p)) }
        ensures earlier { IfOk result (λ p. p.earlier ≡ []) }
    {
        template_law();
        let ram = ram_of(alloc, t.ram.as_slice())?;
        let harts = harts_of(alloc, t.harts.as_slice())?;
        let inner = Logged::begun(alloc, &ram, harts, t.names.len(), t.words.as_slice())?;
        Ok(Part { inner })
    }

    /// How many harts there are.
    pub fn harts(&self) -> usize
        ensures { result ≡ length self.now.now.harts }
    {
        self.inner.harts()
    }

    /// A hart now.
    pub fn hart(&self, hart: u8) -> &Hart
        requires { hart < length self.now.now.harts }
        ensures { bare result.now ≡ hart_of hart (here self.now) }
    {
        self.inner.hart(hart)
    }

    /// RAM.
    pub fn ram(&self) -> &Ram
        ensures { (n : ℕ) → is_there ((here self.now).memory n) ≡ in_ram result.now n }
    {
        self.inner.ram()
    }

    /// Memory now.
    pub fn memory(&self) -> &PartMem
        ensures { (n : ℕ) → part_at result.now n ≡ (here self.now).memory n }
    {
        self.inner.memory()
    }

    /// The footprints of all records.
    pub fn feet(&self) -> &FootMap
        ensures { IsFootprint result.now (footprints_of (λ k. records_of k (here self.now))) }
    {
        self.inner.feet()
    }

    /// The records of a hart, in order.
    pub fn records(&self, hart: u8) -> &[Record]
        requires { hart < length self.now.now.harts }
        ensures { result.now ≡ records_of hart (here self.now) }
    {
        self.inner.records(hart)
    }

    /// A name's value; None where it has none, as of a name that the template lacks.
    pub fn name(&self, name: u32) -> Option<u32>
        ensures { result ≡ slice_index_or self.now.now.names name None }
    {
        self.inner.name(name)
    }

    /// The value of a place, where it is known.
    pub fn value_of(&self, hart: u8, place: Place) -> Option<u32>
        requires hart { hart < length self.now.now.harts }
        requires place { IsNamed place }
        ensures { result ≡ known_in (hart_of hart (here self.now)) (here self.now).memory place }
    {
        self.inner.value_of(hart, place)
    }

    /// Does nothing. Its contract says what is always so: this is a test so far, in the meaning of `IsPartialTest`, with harts as the machine has them.
    pub fn is_test(&self)
        ensures { IsTest (here self.now) }
    {
        let _inner = &self.inner;
    }

    /// Does nothing. Its contract says that the test is told by what its whole tells.
    pub fn is_told(&self)
        ensures { self.now.now ≡ data_of (here self.now) }
    {
        let _inner = &self.inner;
    }

    /// Does nothing. Its contract says that each certificate that has the start, the records and the end of this test is sound.
    pub fn certificates_are_sound(&self)
        ensures { (c : ACert) → IsMade (partial_of (here self.now)) c → IsSound c }
    {
        self.inner.certificates_are_sound();
    }

    /// What the next step of a hart would do. It takes no memory.
    pub fn probe(&self, hart: u8) -> Probe
        requires { hart < length self.now.now.harts }
        ensures { IsProbe hart (here self.now) result }
    {
        self.inner.probe(hart)
    }

    /// How many changes stand.
    pub fn mark(&self) -> usize
        ensures { result ≡ length self.now.earlier }
    {
        self.inner.mark()
    }

    /// Goes back to the test that stands at this number, counted from 0: it and the earlier ones stand as they did, and those
    /// behind it are gone. It takes no memory.
    pub fn rollback(&mut self, mark: usize)
        requires { mark ≤ length self.old.earlier }
        ensures back { tests self.new ≡ take (mark + 1) (tests self.old) }
    {
        self.inner.rollback(mark);
    }

    /// Gives a name its value. A refusal changes nothing.
    pub fn bind(&mut self, name: u32, value: u32) -> Result<(), OutOfMemory>
        requires { slice_get self.old.now.names name ≡ Some None }
        ensures now { OnOk result (here self.new ≡ named name value (here self.old)) }
        ensures earlier { OnOk result (self.new.earlier ≡ self.old.earlier ++ self.old.now ∷ []) }
        ensures refused { OnErr result (self.new ≡ self.old) }
    {
        self.inner.bind(name, value)
    }

    /// Appends to the choices. A refusal changes nothing.
    pub fn take_choice(&mut self, way: u32) -> Result<(), OutOfMemory>
        ensures now { OnOk result (here self.new ≡ chosen way (here self.old)) }
        ensures earlier { OnOk result (self.new.earlier ≡ self.old.earlier ++ self.old.now ∷ []) }
        ensures refused { OnErr result (self.new ≡ self.old) }
    {
        self.inner.take_choice(way)
    }

    /// Appends to the dropped biases. A refusal changes nothing.
    pub fn drop_wish(&mut self, wish: Dropped) -> Result<(), OutOfMemory>
        ensures now { OnOk result (here self.new ≡ with_dropped wish (here self.old)) }
        ensures earlier { OnOk result (self.new.earlier ≡ self.old.earlier ++ self.old.now ∷ []) }
        ensures refused { OnErr result (self.new ≡ self.old) }
    {
        self.inner.drop_wish(wish)
    }

    /// Gives a place that has no value yet its first one. A refusal changes nothing.
    pub fn start_place(&mut self, hart: u8, place: Place, value: u32) -> Result<(), OutOfMemory>
        requires hart { hart < length self.old.now.harts }
        requires start { CanStart hart place value (here self.old) }
        ensures now { OnOk result (here self.new ≡ place_given hart place value (here self.old)) }
        ensures earlier { OnOk result (self.new.earlier ≡ self.old.earlier ++ self.old.now ∷ []) }
        ensures refused { OnErr result (self.new ≡ self.old) }
    {
        self.inner.start_place(hart, place, value)
    }

    /// Does the next step of a hart, and gives its record. A refusal changes nothing.
    pub fn advance(&mut self, hart: u8) -> Result<Record, OutOfMemory>
        requires hart { hart < length self.old.now.harts }
        requires ready { IsReady hart (here self.old) }
        requires clear { IsClear hart (here self.old) }
        ensures now { OnOk result ((xs : List AnAccess) (c : AChange) → next_of hart (here self.old) ≡ Does xs c → here self.new ≡ stepped hart xs c (here self.old)) }
        ensures record { IfOk result (λ r. (xs : List AnAccess) (c : AChange) → next_of hart (here self.old) ≡ Does xs c → r ≡ record_in (hart_of hart (here self.old)) (here self.old).memory xs c) }
        ensures fit { IfOk result IsFitRecord }
        ensures earlier { OnOk result (self.new.earlier ≡ self.old.earlier ++ self.old.now ∷ []) }
        ensures refused { OnErr result (self.new ≡ self.old) }
    {
        self.inner.advance(hart)
    }

    /// The certificate of the test: its start, its records, where it stands, and the template, which it keeps.
    pub fn finish(&self, alloc: Global, t: Template) -> Result<Cert, OutOfMemory>
        requires harts { length t.harts ≡ length self.now.now.harts }
        requires ram { (n : ℕ) → is_in_ram t.ram (n * 4) ≡ in_ram self.now.now.ram n }
        ensures tells { IfOk result (Tells t (here self.now)) }
        ensures made { IfOk result (IsMade (partial_of (here self.now))) }
        ensures sound { IfOk result IsSound }
        ensures well_formed { IfOk result (λ c. Parses t.text t → FitsFile c → IsWellFormed c) }
    {
        template_law();
        let certificate = self.inner.certificate(alloc, t)?;
        Ok(certificate)
    }
}
