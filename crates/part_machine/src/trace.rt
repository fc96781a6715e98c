// The records of a hart.
ghost use Rattle.std.specs.Prelude.{◌≡◌, [], ◌∷◌, ◌++◌, OnOk, OnErr};
ghost use Rattle.part_machine.specs.ButLast.{but_last};

use crate::OutOfMemory;
use rv_hart::Record;
use std::alloc::Global;
use std::marker::Model;

/// Records in order.
#[derive(Drop)]
pub struct Trace {
    records: Vec<Record>,
}

impl Model for Trace {
    ghost use Rattle.std.specs.Prelude.{List};
    ghost use Rattle.rv_hart.specs.declared.record.Record.{Record};

    ghost Value = { List Record };

    ghost view = { λ t. t.records.items };
}

impl Trace {
    pub fn new(alloc: Global) -> Self
        ensures { result ≡ [] }
    {
        Trace {
            records: Vec::new(alloc),
        }
    }

    pub fn as_slice(&self) -> &[Record]
        ensures { result.now ≡ self.now }
    {
        self.records.as_slice()
    }

    pub fn push(&mut self, done: Record) -> Result<(), OutOfMemory>
        ensures ok { OnOk result (self.new ≡ self.old ++ done ∷ []) }
        ensures err { OnErr result (self.new ≡ self.old) }
    {
        self.records.push(done)?;
        Ok(())
    }

    /// Takes the last record away.
    pub fn pop(&mut self)
        ensures { self.new ≡ but_last self.old }
    {
        self.records.pop();
    }
}
