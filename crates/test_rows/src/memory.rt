// Memories of which some words are known.
use rv_mem::{PartMem, Ram, Seen, Words};
use std::alloc::Global;
use std::test::Fail;

/// Gives a word of RAM a value.
fn put(memory: &mut PartMem, a: u32, w: u32) -> Result<(), Fail> {
    if a % 4 != 0 {
        return Err(Fail::new(format_args!("no multiple of 4: {a:08x}")));
    }
    if matches!(memory.word(a), Seen::Vacant) {
        return Err(Fail::new(format_args!("no word of RAM: {a:08x}")));
    }
    Ok(memory.put(a, w)?)
}

/// RAM from 0x80000000 up to an end, of which these words are known.
pub fn memory_of(alloc: Global, end: u32, words: &[(u32, u32)]) -> Result<PartMem, Fail> {
    if end % 4 != 0 {
        return Err(Fail::new("the end of RAM is no multiple of 4"));
    }
    let ram = Ram::new(vec![in alloc; (0x8000_0000, end)]?);
    let mut memory = PartMem::new(alloc, &ram)?;
    for (a, w) in words {
        put(&mut memory, *a, *w)?;
    }
    Ok(memory)
}
