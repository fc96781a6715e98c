// A test that is being made, with its template. Each call first asks what it may do.
ghost use Rattle.std.specs.Prelude.{◌≡◌, ◌<◌, IfOk, IsTrue, Some, length};
ghost use Rattle.rv_csr.specs.declared.table.LazyRegister.{LazyRegister as ALazyRegister};
ghost use Rattle.rv_csr.specs.declared.table.Register.TheVariants.{Lazy};
ghost use Rattle.rv_csr.specs.Table.{register_at};
ghost use Rattle.tpl_lang.specs.Parsing.{Parses};
ghost use Rattle.part_state.specs.Meaning.{CanStart};
ghost use Rattle.part_state.specs.State.{here};
ghost use Rattle.part_making.specs.Kept.{AreOf};

use crate::shown::{Told, told_of};
use foot_map::Clash;
use part_state::{OutOfMemory, Part, Probe};
use rv_csr::{Register, legal, register_at};
use rv_hart::{Hart, Record, Seen, Words};
use rv_script::{Place, Role};
use std::alloc::Global;
use std::test::Fail;
use tpl_admit::{Cert, Dropped};
use tpl_ast::Template;
use tpl_parse::parse;

#[derive(Drop)]
pub struct Making {
    template: Template,
    part: Part,
    ghost fits: { AreOf template part },
}

/// What a text says.
fn template_of(alloc: Global, text: &str) -> Result<Template, Fail>
    ensures { IfOk result (λ t. Parses t.text t) }
{
    match parse(alloc, text.as_bytes()) {
        Ok(template) => Ok(template),
        Err(_) => Err(Fail::new(format_args!("no template: {text}"))),
    }
}

fn begun(alloc: Global, t: &Template) -> Result<Part, Fail>
    requires { Parses t.now.text t.now }
    ensures { IfOk result (AreOf t.now) }
{
    match Part::new(alloc, t) {
        Ok(part) => Ok(part),
        Err(_) => Err(Fail::new("memory")),
    }
}

fn is_lazy(addr: u16) -> bool
    ensures { IsTrue result → (r : ALazyRegister) × (register_at addr ≡ Some (Lazy r)) }
{
    matches!(register_at(addr), Some(Register::Lazy(_)))
}

impl Making {
    /// A test that begins as a text says.
    pub fn begin(alloc: Global, text: &str) -> Result<Making, Fail> {
        let template = template_of(alloc, text)?;
        let part = begun(alloc, &template)?;
        Ok(Making { template, part })
    }

    fn has_hart(&self, hart: u8) -> bool
        ensures { IsTrue result → hart < length self.now.part.now.harts }
    {
        usize::from(hart) < self.part.harts()
    }

    fn has_name(&self, name: u32) -> bool
        ensures { IsTrue result → name < length self.now.part.now.names }
    {
        (name as usize) < self.template.names.len()
    }

    /// A hart, where there is such a hart.
    pub fn hart(&self, hart: u8) -> Option<&Hart> {
        if self.has_hart(hart) {
            Some(self.part.hart(hart))
        } else {
            None
        }
    }

    /// The records of a hart, where there is such a hart.
    pub fn records(&self, hart: u8) -> Option<&[Record]> {
        if self.has_hart(hart) {
            Some(self.part.records(hart))
        } else {
            None
        }
    }

    /// What the next step of a hart would do, where there is such a hart.
    pub fn probe(&self, hart: u8) -> Option<Probe> {
        if self.has_hart(hart) {
            Some(self.part.probe(hart))
        } else {
            None
        }
    }

    /// What is seen of a word of memory.
    pub fn memory(&self, addr: u32) -> Seen {
        if addr % 4 == 0 {
            self.part.memory().word(addr)
        } else {
            Seen::Vacant
        }
    }

    /// With what an access to one byte would clash.
    pub fn clash(&self, hart: u8, role: Role, byte: u32) -> Option<Clash> {
        self.part.feet().may(hart, role, byte, 1)
    }

    /// A name's value, where there is such a name and it has one.
    pub fn name(&self, name: u32) -> Option<u32> {
        if self.has_name(name) {
            self.part.name(name)
        } else {
            None
        }
    }

    /// The value of a place, where there is such a place and it is known.
    pub fn value_of(&self, hart: u8, place: Place) -> Option<u32> {
        if !self.has_hart(hart) {
            return None;
        }
        match place {
            Place::Reg(n) if n >= 32 => None,
            Place::Word(addr) if addr % 4 != 0 => None,
            _ => self.part.value_of(hart, place),
        }
    }

    pub fn mark(&self) -> usize {
        self.part.mark()
    }

    fn start(&mut self, hart: u8, place: Place, value: u32) -> Result<bool, OutOfMemory>
        requires hart { hart < length self.old.part.now.harts }
        requires start { CanStart hart place value (here self.old.part) }
    {
        self.part.start_place(hart, place, value)?;
        Ok(true)
    }

    fn give_register(&mut self, hart: u8, n: u8, value: u32) -> Result<bool, OutOfMemory> {
        if !self.has_hart(hart) || n == 0 || n >= 32 {
            return Ok(false);
        }
        if self.part.value_of(hart, Place::Reg(n)).is_some() {
            return Ok(false);
        }
        self.start(hart, Place::Reg(n), value)
    }

    fn give_csr(&mut self, hart: u8, addr: u16, value: u32) -> Result<bool, OutOfMemory> {
        if !self.has_hart(hart) || !is_lazy(addr) || !legal(addr, value) {
            return Ok(false);
        }
        if self.part.value_of(hart, Place::Csr(addr)).is_some() {
            return Ok(false);
        }
        self.start(hart, Place::Csr(addr), value)
    }

    fn give_word(&mut self, hart: u8, addr: u32, value: u32) -> Result<bool, OutOfMemory> {
        if !self.has_hart(hart) || addr % 4 != 0 {
            return Ok(false);
        }
        match self.part.memory().word(addr) {
            Seen::Untouched => self.start(hart, Place::Word(addr), value),
            _ => Ok(false),
        }
    }

    /// Gives a place its first value, where it can have it and has none yet.
    pub fn give(&mut self, hart: u8, place: Place, value: u32) -> Result<bool, OutOfMemory> {
        match place {
            Place::Reg(n) => self.give_register(hart, n, value),
            Place::Csr(addr) => self.give_csr(hart, addr, value),
            Place::Word(addr) => self.give_word(hart, addr, value),
        }
    }

    /// Gives a name its value, where there is such a name and it has none.
    pub fn bind(&mut self, name: u32, value: u32) -> Result<bool, OutOfMemory> {
        if !self.has_name(name) || self.part.name(name).is_some() {
            return Ok(false);
        }
        self.part.bind(name, value)?;
        Ok(true)
    }

    pub fn choose(&mut self, way: u32) -> Result<bool, OutOfMemory> {
        self.part.take_choice(way)?;
        Ok(true)
    }

    pub fn give_up(&mut self, wish: Dropped) -> Result<bool, OutOfMemory> {
        self.part.drop_wish(wish)?;
        Ok(true)
    }

    /// Does the next step of a hart, where it is ready.
    pub fn step(&mut self, hart: u8) -> Result<Option<Record>, OutOfMemory> {
        if !self.has_hart(hart) {
            return Ok(None);
        }
        match self.part.probe(hart) {
            Probe::Ready(_) => Ok(Some(self.part.advance(hart)?)),
            _ => Ok(None),
        }
    }

    /// Goes back to a mark, where so many changes stand.
    pub fn back(&mut self, mark: usize) -> bool {
        if mark > self.part.mark() {
            return false;
        }
        self.part.rollback(mark);
        true
    }

    fn certificate(self, alloc: Global) -> Result<Cert, OutOfMemory> {
        let Making { template, part } = self;
        part.finish(alloc, template)
    }

    /// What the certificate of the test tells.
    pub fn finish(self, alloc: Global) -> Result<Told, Fail> {
        let cert = self.certificate(alloc)?;
        Ok(told_of(alloc, &cert)?)
    }
}
