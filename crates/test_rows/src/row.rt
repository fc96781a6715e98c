// Tables that stand in a text, a row a line. A row that can't be read fails the test.
use rv_csr::{CAUSES, Cause, Priv};
use rv_script::Role;
use std::str::SplitWhitespace;
use std::test::Fail;
use sv_walk::{Kind, View};

/// The words of a row, one after another.
#[derive(Drop)]
pub struct Row<'a> {
    pub line: &'a str,
    pub words: SplitWhitespace<'a>,
}

/// A number in hexadecimal.
pub fn number_of(word: &str) -> Result<u32, Fail> {
    match u32::from_str_radix(word, 16) {
        Ok(number) => Ok(number),
        Err(_) => Err(Fail::new(format_args!("no number: {word}"))),
    }
}

/// The role of an access.
pub fn role_of(word: &str) -> Result<Role, Fail> {
    match word {
        "fetch" => Ok(Role::Fetch),
        "walk" => Ok(Role::Walk),
        "load" => Ok(Role::Load),
        "store" => Ok(Role::Store),
        _ => Err(Fail::new(format_args!("no role: {word}"))),
    }
}

impl<'a> Row<'a> {
    /// The row of a line, which may have a comment behind a `#`.
    pub fn of(line: &'a str) -> Row<'a> {
        let row = line.split_once('#').map_or(line, |parts| parts.0);
        Row {
            line,
            words: row.split_whitespace(),
        }
    }

    /// A failure by what the row lacks.
    pub fn lacks(&self, what: &str) -> Fail {
        Fail::new(format_args!("no {what}: {}", self.line))
    }

    pub fn word(&mut self) -> Result<&'a str, Fail> {
        match self.words.next() {
            Some(word) => Ok(word),
            None => Err(self.lacks("further word")),
        }
    }

    /// A number in hexadecimal.
    pub fn number(&mut self) -> Result<u32, Fail> {
        number_of(self.word()?)
    }

    /// A number in hexadecimal, or `-` for none.
    pub fn option(&mut self) -> Result<Option<u32>, Fail> {
        match self.word()? {
            "-" => Ok(None),
            word => Ok(Some(number_of(word)?)),
        }
    }

    /// A number of 16 bits in hexadecimal.
    pub fn address(&mut self) -> Result<u16, Fail> {
        Ok(u16::from_str_radix(self.word()?, 16)?)
    }

    /// A small number in decimal.
    pub fn small(&mut self) -> Result<u8, Fail> {
        Ok(self.word()?.parse()?)
    }

    /// A number in decimal.
    pub fn count(&mut self) -> Result<u32, Fail> {
        Ok(self.word()?.parse()?)
    }

    /// `yes` or `no`.
    pub fn answer(&mut self) -> Result<bool, Fail> {
        match self.word()? {
            "yes" => Ok(true),
            "no" => Ok(false),
            _ => Err(self.lacks("yes or no")),
        }
    }

    pub fn privilege(&mut self) -> Result<Priv, Fail> {
        match self.word()? {
            "U" => Ok(Priv::U),
            "S" => Ok(Priv::S),
            "M" => Ok(Priv::M),
            _ => Err(self.lacks("privilege")),
        }
    }

    /// A cause by its number in decimal.
    pub fn cause(&mut self) -> Result<Cause, Fail> {
        let number = self.small()?;
        match CAUSES.iter().find(|cause| cause.number() == number) {
            Some(cause) => Ok(*cause),
            None => Err(self.lacks("cause")),
        }
    }

    /// The privilege, SUM and MXR, with the root table at 0x80001000.
    pub fn view(&mut self) -> Result<View, Fail> {
        Ok(View {
            satp: 0x8008_0001,
            privilege: self.privilege()?,
            sum: self.answer()?,
            mxr: self.answer()?,
        })
    }

    pub fn kind(&mut self) -> Result<Kind, Fail> {
        match self.word()? {
            "fetch" => Ok(Kind::Fetch),
            "load" => Ok(Kind::Load),
            "store" => Ok(Kind::Store),
            _ => Err(self.lacks("kind")),
        }
    }

    /// The row has no further word.
    pub fn end(&mut self) -> Result<(), Fail> {
        match self.words.next() {
            None => Ok(()),
            Some(_) => Err(Fail::new(format_args!("a word too many: {}", self.line))),
        }
    }
}
