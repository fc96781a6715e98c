// The records of harts once more.
ghost use Rattle.std.specs.Prelude.{◌≡◌, IfOk};

use crate::OutOfMemory;
use part_machine::Trace;
use rv_hart::Record;
use rv_script::Accesses;
use std::alloc::{AllocError, Global};
use tpl_ast::Items;

/// The same accesses once more.
fn copy_accesses(accesses: &Accesses) -> Accesses
    ensures { result ≡ accesses.now }
{
    let mut made = Accesses::new();
    let _ = accesses.len();
    for access in accesses.as_slice() {
        made.push(*access);
    }
    made
}

/// The same record once more.
fn copy_record(done: &Record) -> Record
    ensures { result ≡ done.now }
{
    Record {
        pc: done.pc,
        privilege: done.privilege,
        word: done.word,
        outcome: done.outcome,
        rd: done.rd,
        accesses: copy_accesses(&done.accesses),
        next_pc: done.next_pc,
    }
}

/// The same records once more.
fn copy_trace(alloc: Global, trace: &[Record]) -> Result<Items<Record>, AllocError>
    ensures { IfOk result (λ made. made ≡ trace.now) }
{
    let mut made = Items::new(alloc);
    for done in trace {
        made.push(copy_record(done))?;
    }
    Ok(made)
}

/// The records of each hart once more.
pub fn copy_traces(alloc: Global, traces: &[Trace]) -> Result<Items<Items<Record>>, OutOfMemory>
    ensures { IfOk result (λ made. made ≡ traces.now) }
{
    let mut made = Items::new(alloc);
    for trace in traces {
        made.push(copy_trace(alloc, trace.as_slice())?)?;
    }
    Ok(made)
}
