// The lines of a file, one after another.
use crate::answer::{Answer, Program};
use crate::compare::{Outcome, run};
use crate::hex::decimal;
use crate::lines::{Draft, split};
use crate::row::{Input, Row};
use crate::stop::Stop;
use std::alloc::Global;

/// A reader of a file's lines.
#[derive(Drop)]
pub struct Reader {
    /// What the lines from the last `file` up to the first `row` behind it say.
    base: Row,
    /// What is being read.
    draft: Draft,
    is_row: bool,
    line: u32,
    rows: u32,
    /// What is said of the rows that gave something else.
    told: Vec<String>,
    /// What the last row gave whose input wasn't made by another one.
    made: Option<Answer>,
}

impl Reader {
    /// A reader that has read nothing.
    pub fn new(alloc: Global) -> Reader {
        Reader {
            base: Row::new(alloc),
            draft: Draft::of(alloc, Row::new(alloc)),
            is_row: false,
            line: 0,
            rows: 0,
            told: Vec::new(alloc),
            made: None,
        }
    }

    /// The number of the line that was read last, from 1.
    pub fn line(&self) -> u32 {
        self.line
    }

    /// How many rows were run.
    pub fn rows(&self) -> u32 {
        self.rows
    }

    /// How many of them gave something else.
    pub fn wrong(&self) -> usize {
        self.told.len()
    }

    /// What is said of them.
    pub fn told(&self) -> &[String] {
        &self.told
    }

    /// What came of the row that was read last.
    fn note(&mut self, outcome: Outcome) -> Result<(), Stop> {
        let Outcome { wrong, given } = outcome;
        if let Some(told) = wrong {
            self.told.push(told)?;
        }
        if !self.draft.row.is_made() {
            self.made = given;
        }
        self.rows = self.rows.wrapping_add(1);
        Ok(())
    }

    /// Runs the row that was read last, if there is one.
    fn finish<P: Program>(&mut self, alloc: Global, program: &P) -> Result<(), Stop> {
        if !self.is_row {
            return Ok(());
        }
        let outcome = run(alloc, program, &self.draft.row)?;
        self.note(outcome)
    }

    fn begin_file(&mut self, alloc: Global) {
        self.draft = Draft::of(alloc, Row::new(alloc));
        self.is_row = false;
    }

    fn begin_row(&mut self, alloc: Global, name: &str) -> Result<(), Stop> {
        if !self.is_row {
            self.base = self.draft.row.copy(alloc)?;
        }
        let mut row = self.base.copy(alloc)?;
        row.name = String::from_str(alloc, name)?;
        self.draft = Draft::of(alloc, row);
        self.is_row = true;
        Ok(())
    }

    /// The input is what the last row with another input wrote to `out`.
    fn input_made(&mut self, alloc: Global) -> Result<(), Stop> {
        let Some(made) = &self.made else {
            return Err(Stop::Value);
        };
        self.draft.row.bytes = made.out.to_vec(alloc)?;
        self.draft.row.before = made.report.to_vec(alloc)?;
        self.draft.row.input = Input::Made;
        Ok(())
    }

    /// A line of the language.
    fn say<P: Program>(&mut self, alloc: Global, program: &P, line: &str) -> Result<(), Stop> {
        let (key, text) = split(line);
        match key {
            "" | "#" => Ok(()),
            "file" => {
                self.finish(alloc, program)?;
                self.begin_file(alloc);
                Ok(())
            }
            "row" => {
                self.finish(alloc, program)?;
                self.begin_row(alloc, text)
            }
            "input" if text == "made" => self.input_made(alloc),
            _ => self.draft.say(alloc, key, text),
        }
    }

    /// A line, or one or some that are said so many times.
    fn read<P: Program>(&mut self, alloc: Global, program: &P, line: &str) -> Result<(), Stop> {
        let Some(text) = line.strip_prefix("times ") else {
            return self.say(alloc, program, line);
        };
        let (count, line) = split(text);
        for _ in 0..decimal(count)? {
            for part in line.split(" && ") {
                self.say(alloc, program, part)?;
            }
        }
        Ok(())
    }

    /// Reads a whole file, and runs each row of it.
    pub fn read_all<P: Program>(
        &mut self,
        alloc: Global,
        program: &P,
        text: &str,
    ) -> Result<(), Stop> {
        for line in text.lines() {
            self.line = self.line.wrapping_add(1);
            self.read(alloc, program, line)?;
        }
        self.finish(alloc, program)
    }
}
