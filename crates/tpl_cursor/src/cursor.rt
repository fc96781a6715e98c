// The parts of a statement that stand before the tokens that are left.
ghost use Rattle.std.specs.Prelude.{◌≡◌, ◌↔◌, [], IsTrue, length};
ghost use Rattle.tpl_lang.specs.Reading.{numbers_at, outcome_word_at, pc_at, priv_at};
ghost use Rattle.tpl_lang.specs.PartReading.{colon_at, domain_at, element_at, elements_at, end_at, first_at, align_at, is_at, key_at, mark_at, name_at, names_at, list_of, outcome_at, outcome_part_at, outcomes_at, word_part_at, number_at, open_at, set_at, within_at, word_at};
ghost use Rattle.tpl_cursor.specs.Internal.Reading.{Gives, Passes, Reads};
ghost use Rattle.tpl_token.specs.Internal.Phrases.{domain_view, set_view, words_view};
ghost use Rattle.tpl_token.specs.Internal.Views.{view, views};

use crate::stop::Stop;
use std::alloc::Global;
use std::marker::Model;
use tpl_ast::Var;
use tpl_lang::{Element, Key, Mark, Numeral, OutcomeElement, key_of};
use tpl_token::{DomainText, SetText, Token, is_reserved};

/// The tokens of a line that are left. Each reader takes the part that it is named for off their front, or says that
/// none stands there. After an `Err` nothing is said of them.
#[derive(Drop)]
pub struct Cursor<'t, 'a> {
    rest: &'t [Token<'a>],
}

impl<'t, 'a> Model for Cursor<'t, 'a> {
    ghost use Rattle.std.specs.Prelude.{List};
    ghost use Rattle.tpl_lang.specs.Tokens.{Token};
    ghost use Rattle.tpl_token.specs.Internal.Views.{views};

    ghost Value = { List Token };

    ghost view = { λ c. views c.rest.now };
}

impl<'t, 'a> Cursor<'t, 'a> {
    /// All of the tokens.
    pub fn new(tokens: &'t [Token<'a>]) -> Cursor<'t, 'a>
        ensures { result ≡ views tokens.now }
    {
        Cursor { rest: tokens }
    }

    pub(crate) fn len(&self) -> usize
        ensures { result ≡ length self.now }
    {
        self.rest.len()
    }

    pub(crate) fn is_empty(&self) -> bool
        ensures { IsTrue result ↔ (self.now ≡ []) }
    {
        self.rest.is_empty()
    }

    /// The next token.
    pub fn next(&mut self) -> Result<Token<'a>, Stop>
        ensures { Reads view result self.new (first_at self.old) }
    {
        let [first, others @ ..] = self.rest else {
            return Err(Stop::Unexpected);
        };
        let first = *first;
        self.rest = others;
        Ok(first)
    }

    /// The word that stands next.
    #[tactic(auto, unfolding(tpl_lang::specs::PartReading::word_at))]
    pub fn word(&mut self) -> Result<&'a [u8], Stop>
        ensures { Reads (λ w. w.now) result self.new (word_at self.old) }
    {
        match self.next()? {
            Token::Word(word) => Ok(word),
            Token::Number(_) | Token::Mark(_) => Err(Stop::Unexpected),
        }
    }

    /// The number that stands next.
    #[tactic(auto, unfolding(tpl_lang::specs::PartReading::number_at))]
    pub fn number(&mut self) -> Result<Numeral, Stop>
        ensures { Reads (λ n. n) result self.new (number_at self.old) }
    {
        match self.next()? {
            Token::Number(number) => Ok(number),
            Token::Word(_) | Token::Mark(_) => Err(Stop::Unexpected),
        }
    }

    #[tactic(auto, unfolding(tpl_lang::specs::PartReading::mark_at))]
    pub(crate) fn mark(&mut self) -> Result<Mark, Stop>
        ensures { Reads (λ m. m) result self.new (mark_at self.old) }
    {
        match self.next()? {
            Token::Mark(mark) => Ok(mark),
            Token::Word(_) | Token::Number(_) => Err(Stop::Unexpected),
        }
    }

    /// The word of the language that stands next.
    #[tactic(auto, unfolding(tpl_lang::specs::PartReading::key_at))]
    pub fn key(&mut self) -> Result<Key, Stop>
        ensures { Reads (λ k. k) result self.new (key_at self.old) }
    {
        let word = self.word()?;
        match key_of(word) {
            Some(key) => Ok(key),
            None => Err(Stop::Unexpected),
        }
    }

    /// A word that may be declared.
    #[tactic(auto, unfolding(tpl_lang::specs::PartReading::name_at))]
    pub fn name(&mut self) -> Result<&'a [u8], Stop>
        ensures { Reads (λ w. w.now) result self.new (name_at self.old) }
    {
        let word = self.word()?;
        if is_reserved(word) {
            Err(Stop::Unexpected)
        } else {
            Ok(word)
        }
    }

    /// Nothing: no token is left.
    #[tactic(auto, unfolding(tpl_lang::specs::PartReading::end_at))]
    pub fn end(&mut self) -> Result<(), Stop>
        ensures { Gives (λ x. x) result (end_at self.old) }
    {
        if self.rest.is_empty() {
            Ok(())
        } else {
            Err(Stop::Unexpected)
        }
    }

    /// An open brace at the end.
    #[tactic(auto, unfolding(tpl_lang::specs::PartReading::open_at))]
    pub fn open(&mut self) -> Result<(), Stop>
        ensures { Gives (λ x. x) result (open_at self.old) }
    {
        match self.mark()? {
            Mark::Open => self.end(),
            _ => Err(Stop::Unexpected),
        }
    }

    /// The symbol `=`.
    #[tactic(auto, unfolding(tpl_lang::specs::PartReading::is_at))]
    pub fn is(&mut self) -> Result<(), Stop>
        ensures { Passes result self.new (is_at self.old) }
    {
        match self.mark()? {
            Mark::Is => Ok(()),
            _ => Err(Stop::Unexpected),
        }
    }

    /// The symbol `:`.
    #[tactic(auto, unfolding(tpl_lang::specs::PartReading::colon_at))]
    pub fn colon(&mut self) -> Result<(), Stop>
        ensures { Passes result self.new (colon_at self.old) }
    {
        match self.mark()? {
            Mark::Colon => Ok(()),
            _ => Err(Stop::Unexpected),
        }
    }

    /// The word `in`.
    #[tactic(auto, unfolding(tpl_lang::specs::PartReading::within_at))]
    pub fn within(&mut self) -> Result<(), Stop>
        ensures { Passes result self.new (within_at self.old) }
    {
        match self.key()? {
            Key::In => Ok(()),
            _ => Err(Stop::Unexpected),
        }
    }

    /// The word `pc`.
    #[tactic(auto, unfolding(tpl_lang::specs::Reading::pc_at))]
    pub fn pc(&mut self) -> Result<(), Stop>
        ensures { Passes result self.new (pc_at self.old) }
    {
        match self.key()? {
            Key::Pc => Ok(()),
            _ => Err(Stop::Unexpected),
        }
    }

    /// The word `priv`.
    #[tactic(auto, unfolding(tpl_lang::specs::Reading::priv_at))]
    pub fn priv_word(&mut self) -> Result<(), Stop>
        ensures { Passes result self.new (priv_at self.old) }
    {
        match self.key()? {
            Key::Priv => Ok(()),
            _ => Err(Stop::Unexpected),
        }
    }

    /// The word `outcome`.
    #[tactic(auto, unfolding(tpl_lang::specs::Reading::outcome_word_at))]
    pub fn outcome_word(&mut self) -> Result<(), Stop>
        ensures { Passes result self.new (outcome_word_at self.old) }
    {
        match self.key()? {
            Key::Outcome => Ok(()),
            _ => Err(Stop::Unexpected),
        }
    }

    /// An element, and the symbol behind it.
    #[tactic(auto, unfolding(tpl_lang::specs::PartReading::element_at))]
    pub(crate) fn element(&mut self) -> Result<(Element, Mark), Stop>
        ensures { Reads (λ x. x) result self.new (element_at self.old) }
    {
        let low = self.number()?;
        match self.mark()? {
            Mark::Range => {
                let high = self.number()?;
                let behind = self.mark()?;
                Ok((Element::Range(low, high), behind))
            }
            behind => Ok((Element::One(low), behind)),
        }
    }

    /// The elements behind an open brace, and the brace that closes them.
    pub(crate) fn elements(&mut self, alloc: Global) -> Result<Vec<Element>, Stop>
        ensures { Reads (λ v. v.items) result self.new (elements_at (length self.old) self.old) }
    {
        let mut elements = Vec::new(alloc);
        for _ in 0..self.len() {
            let (element, behind) = self.element()?;
            elements.push(element)?;
            match behind {
                Mark::Close => return Ok(elements),
                Mark::Comma => {}
                _ => return Err(Stop::Unexpected),
            }
        }
        Err(Stop::Unexpected)
    }

    /// What stands behind `align`, if that is there.
    #[tactic(auto, unfolding(tpl_lang::specs::PartReading::align_at))]
    pub(crate) fn align(&mut self) -> Result<Option<Numeral>, Stop>
        ensures { Reads (λ x. x) result self.new (align_at self.old) }
    {
        let [Token::Word(word), behind @ ..] = self.rest else {
            return Ok(None);
        };
        if !matches!(key_of(word), Some(Key::Align)) {
            return Ok(None);
        }
        self.rest = behind;
        let number = self.number()?;
        Ok(Some(number))
    }

    /// A set: a name, or elements in braces with what stands behind `align`.
    #[tactic(auto, unfolding(tpl_lang::specs::PartReading::set_at))]
    pub fn set(&mut self, alloc: Global) -> Result<SetText<'a>, Stop>
        ensures { Reads set_view result self.new (set_at self.old) }
    {
        match self.next()? {
            Token::Word(word) => Ok(SetText::Named(word)),
            Token::Mark(Mark::Open) => {
                let elements = self.elements(alloc)?;
                let align = self.align()?;
                Ok(SetText::Listed(elements, align))
            }
            _ => Err(Stop::Unexpected),
        }
    }

    /// A word, and the symbol behind it.
    #[tactic(auto, unfolding(tpl_lang::specs::PartReading::word_part_at))]
    pub(crate) fn word_part(&mut self) -> Result<(&'a [u8], Mark), Stop>
        ensures { Reads (λ p. (p.0.now, p.1)) result self.new (word_part_at self.old) }
    {
        let word = self.word()?;
        let behind = self.mark()?;
        Ok((word, behind))
    }

    /// The words behind an open brace, and the brace that closes them.
    pub(crate) fn words(&mut self, alloc: Global) -> Result<Vec<&'a [u8]>, Stop>
        ensures { Reads (λ v. words_view v.items) result self.new (list_of word_part_at (length self.old) self.old) }
    {
        let mut words = Vec::new(alloc);
        for _ in 0..self.len() {
            let (word, behind) = self.word_part()?;
            words.push(word)?;
            match behind {
                Mark::Close => return Ok(words),
                Mark::Comma => {}
                _ => return Err(Stop::Unexpected),
            }
        }
        Err(Stop::Unexpected)
    }

    #[tactic(auto, unfolding(tpl_lang::specs::PartReading::outcome_at))]
    pub(crate) fn outcome(&mut self) -> Result<OutcomeElement, Stop>
        ensures { Reads (λ o. o) result self.new (outcome_at self.old) }
    {
        match self.next()? {
            Token::Number(number) => Ok(OutcomeElement::Cause(number)),
            Token::Word(word) => match key_of(word) {
                Some(Key::Retire) => Ok(OutcomeElement::Retire),
                _ => Err(Stop::Unexpected),
            },
            Token::Mark(_) => Err(Stop::Unexpected),
        }
    }

    /// An outcome, and the symbol behind it.
    #[tactic(auto, unfolding(tpl_lang::specs::PartReading::outcome_part_at))]
    pub(crate) fn outcome_part(&mut self) -> Result<(OutcomeElement, Mark), Stop>
        ensures { Reads (λ p. p) result self.new (outcome_part_at self.old) }
    {
        let outcome = self.outcome()?;
        let behind = self.mark()?;
        Ok((outcome, behind))
    }

    /// The outcomes behind an open brace, and the brace that closes them.
    pub(crate) fn outcomes_list(&mut self, alloc: Global) -> Result<Vec<OutcomeElement>, Stop>
        ensures { Reads (λ v. v.items) result self.new (list_of outcome_part_at (length self.old) self.old) }
    {
        let mut outcomes = Vec::new(alloc);
        for _ in 0..self.len() {
            let (outcome, behind) = self.outcome_part()?;
            outcomes.push(outcome)?;
            match behind {
                Mark::Close => return Ok(outcomes),
                Mark::Comma => {}
                _ => return Err(Stop::Unexpected),
            }
        }
        Err(Stop::Unexpected)
    }

    /// Names in braces.
    #[tactic(auto, unfolding(tpl_lang::specs::PartReading::names_at))]
    pub(crate) fn names(&mut self, alloc: Global) -> Result<Vec<&'a [u8]>, Stop>
        ensures { Reads (λ v. words_view v.items) result self.new (names_at self.old) }
    {
        match self.mark()? {
            Mark::Open => self.words(alloc),
            _ => Err(Stop::Unexpected),
        }
    }

    /// Outcomes in braces.
    #[tactic(auto, unfolding(tpl_lang::specs::PartReading::outcomes_at))]
    pub fn outcomes(&mut self, alloc: Global) -> Result<Vec<OutcomeElement>, Stop>
        ensures { Reads (λ v. v.items) result self.new (outcomes_at self.old) }
    {
        match self.mark()? {
            Mark::Open => self.outcomes_list(alloc),
            _ => Err(Stop::Unexpected),
        }
    }

    /// What a variable is among.
    pub(crate) fn domain(&mut self, alloc: Global, var: Var) -> Result<DomainText<'a>, Stop>
        ensures { Reads domain_view result self.new (domain_at var self.old) }
    {
        match var {
            Var::Op | Var::Csr => Ok(DomainText::Words(self.names(alloc)?)),
            Var::Outcome => Ok(DomainText::Outcomes(self.outcomes(alloc)?)),
            _ => Ok(DomainText::Numbers(self.set(alloc)?)),
        }
    }

    /// Numbers up to the end of the line, at least one.
    #[tactic(auto, unfolding(tpl_lang::specs::Reading::numbers_at))]
    pub fn numbers(&mut self, alloc: Global) -> Result<Vec<Numeral>, Stop>
        ensures { Gives (λ v. v.items) result (numbers_at self.old) }
    {
        let first = self.number()?;
        let mut numbers = Vec::new(alloc);
        numbers.push(first)?;
        for _ in 0..self.len() {
            let number = self.number()?;
            numbers.push(number)?;
        }
        Ok(numbers)
    }
}
