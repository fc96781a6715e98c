// A file by its parts (docs/FILE.md).
use crate::hex::{push_word, word_of};
use crate::stop::Stop;
use std::alloc::Global;

/// Words one after another that a file loads.
#[derive(Drop)]
pub struct Run {
    /// The address of the first one.
    pub address: u32,
    /// Their bytes.
    pub bytes: Vec<u8>,
}

/// A file by its parts: the pc at which hart 0 starts, the descriptors of its five notes, and its runs of words.
#[derive(Drop)]
pub struct Parts {
    pub entry: u32,
    pub start: Vec<u8>,
    pub records: Vec<u8>,
    pub end: Vec<u8>,
    pub template: Vec<u8>,
    pub rest: Vec<u8>,
    pub runs: Vec<Run>,
}

impl Parts {
    /// Parts without a byte.
    pub fn new(alloc: Global) -> Parts {
        Parts {
            entry: 0,
            start: Vec::new(alloc),
            records: Vec::new(alloc),
            end: Vec::new(alloc),
            template: Vec::new(alloc),
            rest: Vec::new(alloc),
            runs: Vec::new(alloc),
        }
    }

    fn copy_runs(&self, alloc: Global) -> Result<Vec<Run>, Stop> {
        let mut runs = Vec::new(alloc);
        for run in &self.runs {
            runs.push(Run {
                address: run.address,
                bytes: run.bytes.clone()?,
            })?;
        }
        Ok(runs)
    }

    /// The same parts.
    pub fn copy(&self, alloc: Global) -> Result<Parts, Stop> {
        Ok(Parts {
            entry: self.entry,
            start: self.start.clone()?,
            records: self.records.clone()?,
            end: self.end.clone()?,
            template: self.template.clone()?,
            rest: self.rest.clone()?,
            runs: self.copy_runs(alloc)?,
        })
    }

    /// The notes of the file, one after another.
    fn notes(&self, alloc: Global) -> Result<Vec<u8>, Stop> {
        let mut notes = Vec::new(alloc);
        push_note(&mut notes, 1, &self.start)?;
        push_note(&mut notes, 2, &self.records)?;
        push_note(&mut notes, 3, &self.end)?;
        push_note(&mut notes, 4, &self.template)?;
        push_note(&mut notes, 5, &self.rest)?;
        Ok(notes)
    }

    /// The headers of the runs, whose words stand one after another from an offset on.
    fn push_run_headers(&self, file: &mut Vec<u8>, offset: u32) -> Result<(), Stop> {
        let mut offset = offset;
        for run in &self.runs {
            let size = word_of(run.bytes.len());
            push_header(file, 1, offset, run.address, size, 7)?;
            offset = offset.wrapping_add(size);
        }
        Ok(())
    }

    /// The bytes of the file.
    pub fn file(&self, alloc: Global) -> Result<Vec<u8>, Stop> {
        let notes = self.notes(alloc)?;
        let headers = word_of(self.runs.len()).wrapping_add(1);
        let offset = headers.wrapping_mul(32).wrapping_add(52);
        let mut file = Vec::new(alloc);
        file.extend_from_slice(b"\x7fELF\x01\x01\x01\0\0\0\0\0\0\0\0\0\x02\0\xf3\0\x01\0\0\0")?;
        push_word(&mut file, self.entry)?;
        push_word(&mut file, 52)?;
        push_word(&mut file, 0)?;
        push_word(&mut file, 0)?;
        push_word(&mut file, 0x0020_0034)?;
        push_word(&mut file, headers)?;
        push_word(&mut file, 0)?;
        let size = word_of(notes.len());
        push_header(&mut file, 4, offset, 0, size, 4)?;
        self.push_run_headers(&mut file, offset.wrapping_add(size))?;
        file.extend_from_slice(&notes)?;
        for run in &self.runs {
            file.extend_from_slice(&run.bytes)?;
        }
        Ok(file)
    }
}

/// Appends a note of this type, with zeros up to a multiple of four bytes.
fn push_note(notes: &mut Vec<u8>, kind: u32, desc: &[u8]) -> Result<(), Stop> {
    push_word(notes, 5)?;
    push_word(notes, word_of(desc.len()))?;
    push_word(notes, kind)?;
    notes.extend_from_slice(b"TGEN\0\0\0\0")?;
    notes.extend_from_slice(desc)?;
    for _ in 0..3 {
        if notes.len() % 4 != 0 {
            notes.push(0)?;
        }
    }
    Ok(())
}

/// Appends a program header, whose two addresses and two sizes are the same, with an alignment of 4.
fn push_header(
    file: &mut Vec<u8>,
    kind: u32,
    offset: u32,
    address: u32,
    size: u32,
    flags: u32,
) -> Result<(), Stop> {
    push_word(file, kind)?;
    push_word(file, offset)?;
    push_word(file, address)?;
    push_word(file, address)?;
    push_word(file, size)?;
    push_word(file, size)?;
    push_word(file, flags)?;
    push_word(file, 4)
}
