// Atoms, alone and with `prefer` before them.
ghost use Rattle.std.specs.Prelude.{◌≡◌, length, option_map};
ghost use Rattle.tpl_lang.specs.Words.{key_of};
ghost use Rattle.tpl_lang.specs.PartReading.{among_by, atom_by, constrained_at, equal_of, named_equal, not_taken_at, of_var, related_by, semicolon_at, some_wishes, unequal_of, var_named, var_of, wish_at, wishes_at};
ghost use Rattle.tpl_ast.specs.Leaves.{are_comparable};
ghost use Rattle.tpl_cursor.specs.Internal.Reading.{Gives, Passes, Reads};
ghost use Rattle.tpl_token.specs.Internal.Phrases.{atom_view, wish_view, wishes_view};

use crate::cursor::Cursor;
use crate::stop::Stop;
use std::alloc::Global;
use tpl_ast::Var;
use tpl_lang::{Key, Mark, key_of};
use tpl_token::{AtomText, Token, WishText};

/// The variable that a key names.
fn var_of(key: Key) -> Option<Var>
    ensures { result ≡ var_of key }
{
    match key {
        Key::Op => Some(Var::Op),
        Key::Rs1 => Some(Var::Rs1),
        Key::Rs2 => Some(Var::Rs2),
        Key::Rd => Some(Var::Rd),
        Key::Imm => Some(Var::Imm),
        Key::Csr => Some(Var::Csr),
        Key::Ea => Some(Var::Ea),
        Key::A => Some(Var::A),
        Key::B => Some(Var::B),
        Key::Pa => Some(Var::Pa),
        Key::Target => Some(Var::Target),
        Key::Outcome => Some(Var::Outcome),
        _ => None,
    }
}

/// The variable that a word names.
fn var_named(word: &[u8]) -> Option<Var>
    ensures { result ≡ var_named (key_of word.now) }
{
    match key_of(word) {
        Some(key) => var_of(key),
        None => None,
    }
}

/// Whether two variables may be compared.
fn are_comparable(one: Var, other: Var) -> bool
    ensures { result ≡ are_comparable one other }
{
    matches!(
        (one, other),
        (Var::Rs1, Var::Rs2)
            | (Var::Rs1, Var::Rd)
            | (Var::Rs2, Var::Rs1)
            | (Var::Rs2, Var::Rd)
            | (Var::Rd, Var::Rs1)
            | (Var::Rd, Var::Rs2)
            | (Var::A, Var::B)
    )
}

/// A variable and a name.
fn named_equal(var: Var, word: &[u8]) -> Option<AtomText<'_>>
    ensures { option_map atom_view result ≡ named_equal var word.now }
{
    match var {
        Var::Op | Var::Outcome => None,
        _ => Some(AtomText::IsName(var, word)),
    }
}

/// A variable that equals what a word names.
#[tactic(auto, unfolding(tpl_lang::specs::PartReading::equal_of))]
fn equal_of(var: Var, word: &[u8]) -> Option<AtomText<'_>>
    ensures { option_map atom_view result ≡ equal_of var word.now }
{
    match var_named(word) {
        Some(other) if are_comparable(var, other) => Some(AtomText::Same(var, other)),
        _ => named_equal(var, word),
    }
}

/// A variable that differs from what a word names.
#[tactic(auto, unfolding(tpl_lang::specs::PartReading::unequal_of))]
fn unequal_of<'a>(var: Var, word: &[u8]) -> Option<AtomText<'a>>
    ensures { option_map atom_view result ≡ unequal_of var word.now }
{
    match var_named(word) {
        Some(other) if are_comparable(var, other) => Some(AtomText::Differ(var, other)),
        _ => None,
    }
}

impl<'t, 'a> Cursor<'t, 'a> {
    fn equal(&mut self, var: Var) -> Result<AtomText<'a>, Stop>
        ensures { Reads atom_view result self.new (related_by var Mark.Equal self.old) }
    {
        let word = self.word()?;
        match equal_of(var, word) {
            Some(atom) => Ok(atom),
            None => Err(Stop::Unexpected),
        }
    }

    fn unequal(&mut self, var: Var) -> Result<AtomText<'a>, Stop>
        ensures { Reads atom_view result self.new (related_by var Mark.Unequal self.old) }
    {
        let word = self.word()?;
        match unequal_of(var, word) {
            Some(atom) => Ok(atom),
            None => Err(Stop::Unexpected),
        }
    }

    fn related(&mut self, var: Var, mark: Mark) -> Result<AtomText<'a>, Stop>
        ensures { Reads atom_view result self.new (related_by var mark self.old) }
    {
        match mark {
            Mark::Equal => self.equal(var),
            Mark::Unequal => self.unequal(var),
            _ => Err(Stop::Unexpected),
        }
    }

    fn among(&mut self, alloc: Global, var: Var, key: Option<Key>) -> Result<AtomText<'a>, Stop>
        ensures { Reads atom_view result self.new (among_by var key self.old) }
    {
        match key {
            Some(Key::In) => {
                let domain = self.domain(alloc, var)?;
                Ok(AtomText::Among(var, domain))
            }
            Some(Key::Not) => {
                self.within()?;
                let domain = self.domain(alloc, var)?;
                Ok(AtomText::NotAmong(var, domain))
            }
            _ => Err(Stop::Unexpected),
        }
    }

    /// What is said of a variable.
    #[tactic(auto, unfolding(tpl_lang::specs::PartReading::constrained_at))]
    fn constrained(&mut self, alloc: Global, var: Var) -> Result<AtomText<'a>, Stop>
        ensures { Reads atom_view result self.new (constrained_at var self.old) }
    {
        match self.next()? {
            Token::Word(word) => self.among(alloc, var, key_of(word)),
            Token::Mark(mark) => self.related(var, mark),
            Token::Number(_) => Err(Stop::Unexpected),
        }
    }

    #[tactic(auto, unfolding(tpl_lang::specs::PartReading::not_taken_at))]
    fn not_taken(&mut self) -> Result<AtomText<'a>, Stop>
        ensures { Reads atom_view result self.new (not_taken_at self.old) }
    {
        match self.key()? {
            Key::Taken => Ok(AtomText::NotTaken),
            _ => Err(Stop::Unexpected),
        }
    }

    fn of_var(&mut self, alloc: Global, var: Option<Var>) -> Result<AtomText<'a>, Stop>
        ensures { Reads atom_view result self.new (of_var var self.old) }
    {
        match var {
            Some(var) => self.constrained(alloc, var),
            None => Err(Stop::Unexpected),
        }
    }

    fn atom(&mut self, alloc: Global, key: Key) -> Result<AtomText<'a>, Stop>
        ensures { Reads atom_view result self.new (atom_by key self.old) }
    {
        match key {
            Key::Taken => Ok(AtomText::Taken),
            Key::Shared => Ok(AtomText::Shared),
            Key::Not => self.not_taken(),
            _ => self.of_var(alloc, var_of(key)),
        }
    }

    /// An atom, with an optional `prefer` before it.
    #[tactic(auto, unfolding(tpl_lang::specs::PartReading::wish_at))]
    fn wish(&mut self, alloc: Global) -> Result<WishText<'a>, Stop>
        ensures { Reads wish_view result self.new (wish_at self.old) }
    {
        match self.key()? {
            Key::Prefer => {
                let key = self.key()?;
                let atom = self.atom(alloc, key)?;
                Ok(WishText { prefer: true, atom })
            }
            key => {
                let atom = self.atom(alloc, key)?;
                Ok(WishText {
                    prefer: false,
                    atom,
                })
            }
        }
    }

    #[tactic(auto, unfolding(tpl_lang::specs::PartReading::semicolon_at))]
    fn semicolon(&mut self) -> Result<(), Stop>
        ensures { Passes result self.new (semicolon_at self.old) }
    {
        match self.mark()? {
            Mark::Semicolon => Ok(()),
            _ => Err(Stop::Unexpected),
        }
    }

    /// At least one atom up to the end of the line, with semicolons between them.
    fn some_wishes(&mut self, alloc: Global) -> Result<Vec<WishText<'a>>, Stop>
        ensures { Gives (λ v. wishes_view v.items) result (some_wishes (length self.old) self.old) }
    {
        let mut wishes = Vec::new(alloc);
        for _ in 0..self.len() {
            let wish = self.wish(alloc)?;
            wishes.push(wish)?;
            if self.is_empty() {
                return Ok(wishes);
            }
            self.semicolon()?;
        }
        Err(Stop::Unexpected)
    }

    /// Atoms up to the end of the line, with semicolons between them.
    #[tactic(auto, unfolding(tpl_lang::specs::PartReading::wishes_at))]
    pub fn wishes(&mut self, alloc: Global) -> Result<Vec<WishText<'a>>, Stop>
        ensures { Gives (λ v. wishes_view v.items) result (wishes_at self.old) }
    {
        if self.is_empty() {
            Ok(Vec::new(alloc))
        } else {
            self.some_wishes(alloc)
        }
    }
}
