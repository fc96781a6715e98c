// What a row says.
use crate::parts::Parts;
use crate::stop::Stop;
use std::alloc::Global;

/// What the program is given.
#[derive(Clone, Copy)]
pub enum Input {
    /// The file of the row's parts.
    File,
    /// The template of the row's parts.
    Template,
    /// The row's bytes.
    Bytes,
    /// What the last row with another input wrote to `out`.
    Made,
}

/// How an input is made of another one with a number.
#[derive(Clone, Copy)]
pub enum Made {
    /// Its front with so many bytes.
    Front,
    /// The lowest bit of the byte at this place is another one.
    Flip,
}

/// Which inputs are made of the one that the row says.
#[derive(Clone, Copy)]
pub enum Each {
    /// That one.
    Whole,
    /// Those that are made so with each number from the first up to but not with the last.
    Made(Made, usize, usize),
}

/// What a source or a sink is asked to do.
#[derive(Drop)]
pub struct Pace {
    /// How many bytes a call moves at most, which is not 0.
    pub chunk: usize,
    /// The numbers of the calls that fail, from 1 on.
    pub fails: Vec<u64>,
}

/// What has to stand in a sink.
#[derive(Clone, Copy)]
pub enum Wanted {
    /// The row's text for it.
    Text,
    /// The file of the row's parts.
    File,
    /// Any bytes.
    Any,
    /// The input.
    Input,
    /// So many bytes.
    Size(usize),
    /// So many lines.
    Lines(usize),
    /// So many first bytes of the row's text for it.
    Front(usize),
    /// So many first bytes of the file of the row's parts.
    FileFront(usize),
    /// The steps of the report that was given beside the input, those of each hart in their order.
    Steps,
    /// That report.
    Report,
}

/// A sink's pace, what has to stand in it, and the row's text for it.
#[derive(Drop)]
pub struct Told {
    pub pace: Pace,
    pub wanted: Wanted,
    pub text: Vec<u8>,
}

/// A row.
#[derive(Drop)]
pub struct Row {
    pub name: String,
    pub call: Vec<String>,
    pub parts: Parts,
    pub input: Input,
    pub bytes: Vec<u8>,
    /// The report that was given beside `out` where that is the input.
    pub before: Vec<u8>,
    /// What stands behind the input.
    pub behind: Vec<u8>,
    /// Places of the input, and the bytes there.
    pub changes: Vec<(usize, u8)>,
    pub each: Each,
    pub source: Pace,
    pub out: Told,
    pub report: Told,
    /// The statuses that it may end with.
    pub statuses: Vec<u8>,
}

/// A pace without an end and without a failure.
fn steady_pace(alloc: Global) -> Pace {
    Pace {
        chunk: 4096,
        fails: Vec::new(alloc),
    }
}

fn copy_pace(pace: &Pace) -> Result<Pace, Stop> {
    Ok(Pace {
        chunk: pace.chunk,
        fails: pace.fails.clone()?,
    })
}

fn no_text(alloc: Global) -> Told {
    Told {
        pace: steady_pace(alloc),
        wanted: Wanted::Text,
        text: Vec::new(alloc),
    }
}

fn copy_told(told: &Told) -> Result<Told, Stop> {
    Ok(Told {
        pace: copy_pace(&told.pace)?,
        wanted: told.wanted,
        text: told.text.clone()?,
    })
}

fn copy_words(alloc: Global, words: &[String]) -> Result<Vec<String>, Stop> {
    let mut copies = Vec::new(alloc);
    for word in words {
        copies.push(word.clone()?)?;
    }
    Ok(copies)
}

impl Row {
    /// A row that gives nothing and wants nothing.
    pub fn new(alloc: Global) -> Row {
        Row {
            name: String::new(alloc),
            call: Vec::new(alloc),
            parts: Parts::new(alloc),
            input: Input::File,
            bytes: Vec::new(alloc),
            before: Vec::new(alloc),
            behind: Vec::new(alloc),
            changes: Vec::new(alloc),
            each: Each::Whole,
            source: steady_pace(alloc),
            out: no_text(alloc),
            report: no_text(alloc),
            statuses: Vec::new(alloc),
        }
    }

    /// The same row.
    pub fn copy(&self, alloc: Global) -> Result<Row, Stop> {
        Ok(Row {
            name: self.name.clone()?,
            call: copy_words(alloc, &self.call)?,
            parts: self.parts.copy(alloc)?,
            input: self.input,
            bytes: self.bytes.clone()?,
            before: self.before.clone()?,
            behind: self.behind.clone()?,
            changes: self.changes.clone()?,
            each: self.each,
            source: copy_pace(&self.source)?,
            out: copy_told(&self.out)?,
            report: copy_told(&self.report)?,
            statuses: self.statuses.clone()?,
        })
    }

    /// Whether its input is what another row wrote.
    pub fn is_made(&self) -> bool {
        match self.input {
            Input::File | Input::Template | Input::Bytes => false,
            Input::Made => true,
        }
    }

    fn given(&self, alloc: Global) -> Result<Vec<u8>, Stop> {
        match self.input {
            Input::File => self.parts.file(alloc),
            Input::Template => Ok(self.parts.template.clone()?),
            Input::Bytes | Input::Made => Ok(self.bytes.clone()?),
        }
    }

    /// The input, with the row's changes and what stands behind it.
    pub fn whole_input(&self, alloc: Global) -> Result<Vec<u8>, Stop> {
        let mut input = self.given(alloc)?;
        for (at, byte) in &self.changes {
            let Some(place) = input.get_mut(*at) else {
                return Err(Stop::Place);
            };
            *place = *byte;
        }
        input.extend_from_slice(&self.behind)?;
        Ok(input)
    }
}
