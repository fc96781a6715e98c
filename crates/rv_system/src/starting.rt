// The harts and the memory with which a certificate begins.
ghost use Rattle.std.specs.Prelude.{◌≡◌, ◌<◌, IfOk, [], length};
ghost use Rattle.rv_mem.specs.Full.{full_at};
ghost use Rattle.tpl_ast.specs.States.{AreStartWords, IsState};
ghost use Rattle.tpl_admit.specs.Starts.{start_of};
ghost use Rattle.tpl_admit.specs.WellFormed.{IsWellFormed};
ghost use Rattle.given_start.specs.Internal.Regions.{AreAligned};
ghost use Rattle.rv_system.specs.Internal.Starting.{AreFilledHarts, IsFilledMemory};

use crate::OutOfMemory;
use crate::filling::filled_hart;
use given_start::ram_of;
use rv_hart::Hart;
use rv_mem::FullMem;
use std::alloc::Global;
use tpl_admit::{Cert, HartState};
use tpl_ast::Region;
use tpl_lang::template_law;

/// RAM of these regions, each word of which has the fill.
fn even_memory(alloc: Global, ram: &[Region], fill: u32) -> Result<FullMem, OutOfMemory>
    requires { AreAligned ram.now }
    ensures { IfOk result (λ m. IsFilledMemory ram.now [] fill (full_at m)) }
{
    let ram = ram_of(alloc, ram)?;
    Ok(FullMem::new(alloc, &ram, fill)?)
}

/// RAM of these regions with these words, and the fill in each other one.
fn filled_memory(
    alloc: Global,
    ram: &[Region],
    words: &[(u32, u32)],
    fill: u32,
) -> Result<FullMem, OutOfMemory>
    requires ram { AreAligned ram.now }
    requires words { AreStartWords ram.now 0 words.now }
    ensures { IfOk result (λ m. IsFilledMemory ram.now words.now fill (full_at m)) }
{
    let mut memory = even_memory(alloc, ram, fill)?;
    for word in words {
        memory.put(word.0, word.1);
    }
    Ok(memory)
}

/// The memory of a certificate's start.
pub fn start_memory(alloc: Global, cert: &Cert, fill: u32) -> Result<FullMem, OutOfMemory>
    requires { IsWellFormed cert.now }
    ensures { IfOk result (λ m. IsFilledMemory cert.now.template.ram cert.now.words fill (full_at m)) }
{
    // RAM is whole frames.
    template_law();
    filled_memory(
        alloc,
        cert.template.ram.as_slice(),
        cert.words.as_slice(),
        fill,
    )
}

/// Where hart k starts.
fn start_state(cert: &Cert, k: u8) -> &HartState
    requires well_formed { IsWellFormed cert.now }
    requires there { k < length cert.now.start }
    ensures state { result.now ≡ start_of cert.now k }
    ensures sound { IsState result.now }
{
    &cert.start.as_slice()[usize::from(k)]
}

/// The harts of a certificate's start.
pub fn start_harts(alloc: Global, cert: &Cert, fill: u32) -> Result<Vec<Hart>, OutOfMemory>
    requires { IsWellFormed cert.now }
    ensures { IfOk result (λ harts. AreFilledHarts cert.now fill harts.items) }
{
    let mut harts = Vec::new(alloc);
    for k in 0..cert.start.len() as u8 {
        harts.push(filled_hart(start_state(cert, k), u32::from(k), fill))?;
    }
    Ok(harts)
}
