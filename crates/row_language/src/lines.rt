// What the lines of a row say.
use crate::hex::{decimal, hex, push_numbers, push_word};
use crate::parts::Run;
use crate::row::{Each, Input, Made, Pace, Row, Wanted};
use crate::stop::Stop;
use std::alloc::Global;

/// What a row says anew where it says it at all.
#[derive(Clone, Copy, PartialEq, Eq)]
enum Section {
    Start,
    Records,
    End,
    Template,
    Rest,
    Runs,
    Bytes,
    Behind,
    Out,
    Report,
}

/// A row while its lines are read.
#[derive(Drop)]
pub struct Draft {
    pub row: Row,
    /// The sections that the row has said anew.
    said: Vec<Section>,
}

/// A text's first word, and what stands behind the blank.
pub fn split(text: &str) -> (&str, &str) {
    text.split_once(' ').unwrap_or((text, ""))
}

/// A place in an input, or a number of bytes.
fn place(word: &str) -> Result<usize, Stop> {
    Ok(decimal(word)? as usize)
}

fn push_line(text: &mut Vec<u8>, line: &str) -> Result<(), Stop> {
    text.extend_from_slice(line.as_bytes())?;
    text.push(b'\n')?;
    Ok(())
}

/// The text with another line of this number, from 1 on.
fn with_line(alloc: Global, text: &[u8], number: u32, line: &str) -> Result<Vec<u8>, Stop> {
    let mut made = Vec::new(alloc);
    let mut at = 1u32;
    for byte in text {
        if *byte == b'\n' {
            if at == number {
                made.extend_from_slice(line.as_bytes())?;
            }
            at = at.wrapping_add(1);
            made.push(b'\n')?;
        } else if at != number {
            made.push(*byte)?;
        }
    }
    if at <= number {
        return Err(Stop::Place);
    }
    Ok(made)
}

/// Reads how many bytes a call moves, and which calls fail.
fn pace_of(alloc: Global, text: &str) -> Result<Pace, Stop> {
    let (chunk, calls) = split(text);
    let mut fails = Vec::new(alloc);
    for call in calls.split_whitespace() {
        fails.push(u64::from(decimal(call)?))?;
    }
    match place(chunk)? {
        0 => Err(Stop::Value),
        chunk => Ok(Pace { chunk, fails }),
    }
}

/// Reads what has to stand in a sink.
fn wanted_of(text: &str) -> Result<Wanted, Stop> {
    let (key, rest) = split(text);
    match key {
        "any" if rest.is_empty() => Ok(Wanted::Any),
        "file" if rest.is_empty() => Ok(Wanted::File),
        "input" if rest.is_empty() => Ok(Wanted::Input),
        "steps" if rest.is_empty() => Ok(Wanted::Steps),
        "report" if rest.is_empty() => Ok(Wanted::Report),
        "size" => Ok(Wanted::Size(place(rest)?)),
        "lines" => Ok(Wanted::Lines(place(rest)?)),
        "front" => Ok(Wanted::Front(place(rest)?)),
        "file-front" => Ok(Wanted::FileFront(place(rest)?)),
        _ => Err(Stop::Value),
    }
}

fn input_of(word: &str) -> Result<Input, Stop> {
    match word {
        "file" => Ok(Input::File),
        "template" => Ok(Input::Template),
        "bytes" => Ok(Input::Bytes),
        _ => Err(Stop::Value),
    }
}

impl Draft {
    /// A draft of this row, which has said nothing anew.
    pub fn of(alloc: Global, row: Row) -> Draft {
        Draft {
            row,
            said: Vec::new(alloc),
        }
    }

    /// Whether the section is said for the first time here. It is, from then on.
    fn is_new(&mut self, section: Section) -> Result<bool, Stop> {
        if self.said.contains(&section) {
            return Ok(false);
        }
        self.said.push(section)?;
        Ok(true)
    }

    /// The bytes of a section, which are none where it is said for the first time.
    fn bytes(&mut self, section: Section) -> Result<&mut Vec<u8>, Stop> {
        let is_new = self.is_new(section)?;
        let bytes = match section {
            Section::Start => &mut self.row.parts.start,
            Section::Records => &mut self.row.parts.records,
            Section::End => &mut self.row.parts.end,
            Section::Template => &mut self.row.parts.template,
            Section::Rest => &mut self.row.parts.rest,
            Section::Behind => &mut self.row.behind,
            Section::Out => &mut self.row.out.text,
            Section::Report => &mut self.row.report.text,
            Section::Bytes | Section::Runs => &mut self.row.bytes,
        };
        if is_new {
            bytes.clear();
        }
        Ok(bytes)
    }

    fn numbers(&mut self, section: Section, text: &str) -> Result<(), Stop> {
        push_numbers(self.bytes(section)?, text)
    }

    /// How many dropped biases there are, and the first ones that a file can list.
    fn biases(&mut self, text: &str) -> Result<(), Stop> {
        let rest = self.bytes(Section::Rest)?;
        let count = decimal(text)?;
        push_word(rest, count)?;
        for i in 0..count {
            push_word(rest, i / 0x4_0000)?;
            push_word(rest, i / 32 % 0x2000)?;
            push_word(rest, i % 32)?;
            push_word(rest, 0)?;
        }
        Ok(())
    }

    fn text(&mut self, section: Section, line: &str) -> Result<(), Stop> {
        push_line(self.bytes(section)?, line)
    }

    fn begin_run(&mut self, alloc: Global, text: &str) -> Result<(), Stop> {
        if self.is_new(Section::Runs)? {
            self.row.parts.runs.clear();
        }
        self.row.parts.runs.push(Run {
            address: hex(text)?,
            bytes: Vec::new(alloc),
        })?;
        Ok(())
    }

    fn words(&mut self, text: &str) -> Result<(), Stop> {
        let Some(run) = self.row.parts.runs.last_mut() else {
            return Err(Stop::Value);
        };
        push_numbers(&mut run.bytes, text)
    }

    fn call(&mut self, alloc: Global, text: &str) -> Result<(), Stop> {
        self.row.call.clear();
        for word in text.split_whitespace() {
            self.row.call.push(String::from_str(alloc, word)?)?;
        }
        Ok(())
    }

    /// An empty word behind the call's others.
    fn empty_word(&mut self, alloc: Global) -> Result<(), Stop> {
        self.row.call.push(String::new(alloc))?;
        Ok(())
    }

    fn change(&mut self, text: &str) -> Result<(), Stop> {
        let (at, byte) = split(text);
        let [byte, _, _, _] = hex(byte)?.to_le_bytes();
        self.row.changes.push((place(at)?, byte))?;
        Ok(())
    }

    fn statuses(&mut self, text: &str) -> Result<(), Stop> {
        self.row.statuses.clear();
        for word in text.split_whitespace() {
            let Ok(status) = u8::try_from(decimal(word)?) else {
                return Err(Stop::Value);
            };
            self.row.statuses.push(status)?;
        }
        Ok(())
    }

    /// Another line of the template.
    fn template_line(&mut self, alloc: Global, text: &str) -> Result<(), Stop> {
        let (number, line) = split(text);
        let template = with_line(alloc, &self.row.parts.template, decimal(number)?, line)?;
        self.row.parts.template = template;
        Ok(())
    }

    /// A line that says something of a file's parts.
    fn part(&mut self, alloc: Global, key: &str, text: &str) -> Result<(), Stop> {
        match key {
            "entry" => {
                self.row.parts.entry = hex(text)?;
                Ok(())
            }
            "start" => self.numbers(Section::Start, text),
            "records" => self.numbers(Section::Records, text),
            "end" => self.numbers(Section::End, text),
            "rest" => self.numbers(Section::Rest, text),
            "biases" => self.biases(text),
            "template" => self.text(Section::Template, text),
            "line" => self.template_line(alloc, text),
            "run" => self.begin_run(alloc, text),
            "words" => self.words(text),
            _ => Err(Stop::Key),
        }
    }

    /// A line that says something of the input.
    fn input(&mut self, alloc: Global, key: &str, text: &str) -> Result<(), Stop> {
        match key {
            "input" => {
                self.row.input = input_of(text)?;
                Ok(())
            }
            "text" => self.text(Section::Bytes, text),
            "bytes" => self.numbers(Section::Bytes, text),
            "behind" => self.numbers(Section::Behind, text),
            "change" => self.change(text),
            "fronts" => {
                let (from, to) = split(text);
                self.row.each = Each::Made(Made::Front, place(from)?, place(to)?);
                Ok(())
            }
            "flips" => {
                let (from, to) = split(text);
                self.row.each = Each::Made(Made::Flip, place(from)?, place(to)?);
                Ok(())
            }
            _ => self.part(alloc, key, text),
        }
    }

    /// A line that says something of what is read, written or answered.
    fn outcome(&mut self, alloc: Global, key: &str, text: &str) -> Result<(), Stop> {
        match key {
            "status" => self.statuses(text),
            "out" => self.text(Section::Out, text),
            "report" => self.text(Section::Report, text),
            "out-is" => {
                self.row.out.wanted = wanted_of(text)?;
                Ok(())
            }
            "report-is" => {
                self.row.report.wanted = wanted_of(text)?;
                Ok(())
            }
            "reads" => {
                self.row.source = pace_of(alloc, text)?;
                Ok(())
            }
            "out-writes" => {
                self.row.out.pace = pace_of(alloc, text)?;
                Ok(())
            }
            "report-writes" => {
                self.row.report.pace = pace_of(alloc, text)?;
                Ok(())
            }
            _ => self.input(alloc, key, text),
        }
    }

    /// A line of the row.
    pub fn say(&mut self, alloc: Global, key: &str, text: &str) -> Result<(), Stop> {
        match key {
            "call" => self.call(alloc, text),
            "call-empty" => self.empty_word(alloc),
            _ => self.outcome(alloc, key, text),
        }
    }
}
