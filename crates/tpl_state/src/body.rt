// A body while it grows line by line.
ghost use Rattle.std.specs.Prelude.{◌≡◌, ◌<◌, ◌+◌, ◌||◌, nat_lt, ◌∷◌, [], ◌++◌, false, length, true, IfOk, OnOk};
ghost use Rattle.std.specs.List.{list_any};
ghost use Rattle.tpl_ast.specs.Bodies.{EnterChoose, EnterRepeat, EnterSeq, EnterWay, FetchFault, LabelOf, Leaf, Leave, lines_of_body, lines_of_item};
ghost use Rattle.tpl_lang.specs.Known.{Alternative, Choice, Sequence, Times, Whole};
ghost use Rattle.tpl_lang.specs.Statements.{add_length, add_way, opened_as};
ghost use Rattle.tpl_lang.specs.Faults.{body_length, is_choice, is_closable, is_in_choice, is_repeat, takes_items, ways_in};
ghost use Rattle.tpl_state.specs.Internal.Growing.{closed, fits_in, is_body_closable, is_weighted, kind_of, lines_of_block, open_of, ways_of};

use dom_set::Set;
use std::alloc::{AllocError, Global};
use std::marker::Model;
use tpl_ast::{Item, Wish};

/// A block with what stands in it so far.
#[derive(Drop)]
pub enum Block {
    /// The body itself.
    Whole(Vec<Item>),
    Sequence(Vec<Item>),
    Times(u32, Vec<Item>),
    /// Its line, and its closed alternatives with their weights.
    Choice(u32, Vec<(u32, Vec<Item>)>),
    /// An alternative with its weight.
    Alternative(u32, Vec<Item>),
}

/// A block that is open, and its length so far.
#[derive(Drop)]
pub struct OpenBlock {
    block: Block,
    length: u64,
}

/// A body of which the lines up to some line were read. Each alternative stands directly in a choice, and nothing else does.
#[derive(Drop)]
pub struct Growing {
    open: Vec<OpenBlock>,
}

impl Model for Growing {
    ghost use Rattle.std.specs.Prelude.{◌≡◌, [], true};
    ghost use Rattle.tpl_state.specs.Internal.Growing.{Grown, is_nested, lines_of_open, stacked};

    ghost Value = { Grown };

    ghost view = { λ g. record { lines = lines_of_open g.open.items; blocks = stacked g.open.items [] } };

    ghost invariant = { λ g. is_nested (stacked g.open.items []) ≡ true };
}

/// Whether an alternative has a weight above 0.
fn is_any_weighted(ways: &[(u32, Vec<Item>)]) -> bool
    ensures { result ≡ list_any (λ w. nat_lt 0 w.0) ways.now }
{
    for way in ways {
        if way.0 > 0 {
            return true;
        }
    }
    false
}

fn is_any_repeat(blocks: &[OpenBlock]) -> bool
    ensures { result ≡ list_any (λ b. is_repeat (open_of b)) blocks.now }
{
    for one in blocks {
        if one.block.is_repeat() {
            return true;
        }
    }
    false
}

impl Block {
    fn ways(&self) -> usize
        ensures { result ≡ ways_of self.now }
    {
        match self {
            Block::Choice(_, ways) => ways.len(),
            _ => 0,
        }
    }

    fn is_weighted(&self) -> bool
        ensures { result ≡ is_weighted self.now }
    {
        match self {
            Block::Choice(_, ways) => is_any_weighted(ways),
            _ => false,
        }
    }

    fn is_repeat(&self) -> bool
        ensures { result ≡ is_repeat (opened_as (kind_of self.now)) }
    {
        matches!(self, Block::Times(_, _))
    }

    fn is_choice(&self) -> bool
        ensures { result ≡ is_choice (kind_of self.now) }
    {
        matches!(self, Block::Choice(_, _))
    }

    /// Puts an item at the block's end.
    #[tactic(auto, using(crate::proofs::Bodies::body_push))]
    fn push(&mut self, item: Item) -> Result<(), AllocError>
        requires { is_choice (kind_of self.old) ≡ false }
        ensures lines { OnOk result (lines_of_block self.new ≡ lines_of_block self.old ++ lines_of_item item) }
        ensures kind { OnOk result (kind_of self.new ≡ kind_of self.old) }
        ensures ways { OnOk result (ways_of self.new ≡ ways_of self.old) }
        ensures weighted { OnOk result (is_weighted self.new ≡ is_weighted self.old) }
    {
        match self {
            Block::Whole(items) => items.push(item)?,
            Block::Sequence(items) => items.push(item)?,
            Block::Times(_, items) => items.push(item)?,
            Block::Choice(_, _) => {}
            Block::Alternative(_, items) => items.push(item)?,
        }
        Ok(())
    }
}

impl Block {
    /// Puts an alternative at the end of a choice.
    #[tactic(auto, using(crate::proofs::Bodies::alternatives_push, crate::proofs::Bodies::weighted_push))]
    fn push_way(&mut self, weight: u32, items: Vec<Item>) -> Result<(), AllocError>
        requires { is_choice (kind_of self.old) ≡ true }
        ensures lines { OnOk result (lines_of_block self.new ≡ lines_of_block self.old ++ (EnterWay weight ∷ lines_of_body items.items ++ Leave ∷ [])) }
        ensures kind { OnOk result (kind_of self.new ≡ kind_of self.old) }
        ensures ways { OnOk result (ways_of self.new ≡ ways_of self.old + 1) }
        ensures weighted { OnOk result (is_weighted self.new ≡ (is_weighted self.old || nat_lt 0 weight)) }
    {
        match self {
            Block::Choice(_, ways) => ways.push((weight, items))?,
            _ => {}
        }
        Ok(())
    }
}

impl Growing {
    /// No body.
    pub fn new(alloc: Global) -> Growing
        ensures lines { result.lines ≡ [] }
        ensures blocks { result.blocks ≡ [] }
    {
        Growing {
            open: Vec::new(alloc),
        }
    }

    /// A body before its first line.
    pub fn whole(alloc: Global) -> Result<Growing, AllocError>
        ensures lines { IfOk result (λ g. g.lines ≡ []) }
        ensures blocks { IfOk result (λ g. g.blocks ≡ opened_as Whole ∷ []) }
    {
        let mut open = Vec::new(alloc);
        open.push(OpenBlock {
            block: Block::Whole(Vec::new(alloc)),
            length: 0,
        })?;
        Ok(Growing { open })
    }

    /// How many blocks are open.
    #[tactic(auto, using(crate::proofs::Bodies::stacked_length))]
    pub fn depth(&self) -> usize
        ensures { result ≡ length self.now.blocks }
    {
        self.open.len()
    }

    /// Whether an item may stand in the innermost block.
    #[tactic(auto, using(crate::proofs::Bodies::stacked_push))]
    pub fn takes_items(&self) -> bool
        ensures { result ≡ takes_items self.now.blocks }
    {
        match self.open.split_last() {
            None => false,
            Some((open, _)) => !open.block.is_choice(),
        }
    }

    /// Whether the innermost block is a choice.
    #[tactic(auto, using(crate::proofs::Bodies::stacked_push))]
    pub fn is_in_choice(&self) -> bool
        ensures { result ≡ is_in_choice self.now.blocks }
    {
        match self.open.split_last() {
            None => false,
            Some((open, _)) => open.block.is_choice(),
        }
    }

    /// Puts an item into the innermost block.
    #[tactic(auto, using(crate::proofs::Bodies::stacked_push, crate::proofs::Bodies::open_push))]
    fn add(&mut self, item: Item, size: u64) -> Result<(), AllocError>
        requires { takes_items self.old.blocks ≡ true }
        ensures lines { OnOk result (self.new.lines ≡ self.old.lines ++ lines_of_item item) }
        ensures blocks { OnOk result (self.new.blocks ≡ add_length size self.old.blocks) }
    {
        let Some(mut open) = self.open.pop() else {
            return Ok(());
        };
        open.block.push(item)?;
        open.length = open.length.saturating_add(size);
        self.open.push(open)?;
        Ok(())
    }

    /// A leaf with its line and its atoms.
    #[tactic(auto, using(crate::proofs::Bodies::leaf_lines))]
    pub fn leaf(&mut self, line: u32, wishes: Vec<Wish>) -> Result<(), AllocError>
        requires { takes_items self.old.blocks ≡ true }
        ensures lines { OnOk result (self.new.lines ≡ self.old.lines ++ Leaf line wishes.items ∷ []) }
        ensures blocks { OnOk result (self.new.blocks ≡ add_length 1 self.old.blocks) }
    {
        self.add(Item::Leaf { line, wishes }, 1)
    }

    /// A failing fetch with its line and its causes.
    #[tactic(auto, using(crate::proofs::Bodies::fault_lines))]
    pub fn fetch_fault(&mut self, line: u32, causes: Set) -> Result<(), AllocError>
        requires { takes_items self.old.blocks ≡ true }
        ensures lines { OnOk result (self.new.lines ≡ self.old.lines ++ FetchFault line causes ∷ []) }
        ensures blocks { OnOk result (self.new.blocks ≡ add_length 1 self.old.blocks) }
    {
        self.add(Item::FetchFault { line, causes }, 1)
    }

    /// A label, the name with this index.
    #[tactic(auto, using(crate::proofs::Bodies::label_lines))]
    pub fn label(&mut self, name: u32) -> Result<(), AllocError>
        requires { takes_items self.old.blocks ≡ true }
        ensures lines { OnOk result (self.new.lines ≡ self.old.lines ++ LabelOf name ∷ []) }
        ensures blocks { OnOk result (self.new.blocks ≡ add_length 0 self.old.blocks) }
    {
        self.add(Item::Label { name }, 0)
    }

    /// Opens a block in the innermost one.
    #[tactic(auto, using(crate::proofs::Bodies::stacked_push, crate::proofs::Bodies::open_push))]
    fn open(&mut self, block: Block) -> Result<(), AllocError>
        requires { fits_in (kind_of block) self.old.blocks ≡ true }
        ensures lines { OnOk result (self.new.lines ≡ self.old.lines ++ lines_of_block block) }
        ensures blocks { OnOk result (self.new.blocks ≡ open_of (record { block = block; length = 0 }) ∷ self.old.blocks) }
    {
        self.open.push(OpenBlock { block, length: 0 })?;
        Ok(())
    }

    /// Opens a sequence in the innermost block.
    pub fn open_sequence(&mut self, alloc: Global) -> Result<(), AllocError>
        requires { takes_items self.old.blocks ≡ true }
        ensures lines { OnOk result (self.new.lines ≡ self.old.lines ++ EnterSeq ∷ []) }
        ensures blocks { OnOk result (self.new.blocks ≡ opened_as Sequence ∷ self.old.blocks) }
    {
        self.open(Block::Sequence(Vec::new(alloc)))
    }

    /// Opens a repeat in the innermost block.
    pub fn open_repeat(&mut self, alloc: Global, times: u32) -> Result<(), AllocError>
        requires { takes_items self.old.blocks ≡ true }
        ensures lines { OnOk result (self.new.lines ≡ self.old.lines ++ EnterRepeat times ∷ []) }
        ensures blocks { OnOk result (self.new.blocks ≡ opened_as (Times times) ∷ self.old.blocks) }
    {
        self.open(Block::Times(times, Vec::new(alloc)))
    }

    /// Opens the choice of this line in the innermost block.
    pub fn open_choice(&mut self, alloc: Global, line: u32) -> Result<(), AllocError>
        requires { takes_items self.old.blocks ≡ true }
        ensures lines { OnOk result (self.new.lines ≡ self.old.lines ++ EnterChoose line ∷ []) }
        ensures blocks { OnOk result (self.new.blocks ≡ opened_as Choice ∷ self.old.blocks) }
    {
        self.open(Block::Choice(line, Vec::new(alloc)))
    }

    /// Opens an alternative with its weight in the choice that is the innermost block.
    pub fn open_alternative(&mut self, alloc: Global, weight: u32) -> Result<(), AllocError>
        requires { is_in_choice self.old.blocks ≡ true }
        ensures lines { OnOk result (self.new.lines ≡ self.old.lines ++ EnterWay weight ∷ []) }
        ensures blocks { OnOk result (self.new.blocks ≡ opened_as (Alternative weight) ∷ self.old.blocks) }
    {
        self.open(Block::Alternative(weight, Vec::new(alloc)))
    }

    /// Puts a closed alternative into the choice that is the innermost block.
    #[tactic(auto, using(crate::proofs::Bodies::stacked_push, crate::proofs::Bodies::open_push))]
    fn add_way(&mut self, weight: u32, items: Vec<Item>, size: u64) -> Result<(), AllocError>
        requires { is_in_choice self.old.blocks ≡ true }
        ensures lines { OnOk result (self.new.lines ≡ self.old.lines ++ (EnterWay weight ∷ lines_of_body items.items ++ Leave ∷ [])) }
        ensures blocks { OnOk result (self.new.blocks ≡ add_way weight size self.old.blocks) }
    {
        let Some(mut open) = self.open.pop() else {
            return Ok(());
        };
        open.block.push_way(weight, items)?;
        open.length = open.length.max(size);
        self.open.push(open)?;
        Ok(())
    }

    /// Closes the innermost block, which is not the body itself.
    #[tactic(auto, using(crate::proofs::Bodies::stacked_push, crate::proofs::Bodies::open_push, crate::proofs::Bodies::seq_lines, crate::proofs::Bodies::repeat_lines, crate::proofs::Bodies::choose_lines))]
    pub fn leave(&mut self) -> Result<(), AllocError>
        requires inside { is_body_closable self.old.blocks ≡ false }
        requires open { 0 < length self.old.blocks }
        ensures lines { OnOk result (self.new.lines ≡ self.old.lines ++ Leave ∷ []) }
        ensures blocks { OnOk result (self.new.blocks ≡ closed self.old.blocks) }
    {
        let Some(open) = self.open.pop() else {
            unreachable!();
        };
        let size = open.length;
        let block = open.block;
        match block {
            Block::Whole(_) => unreachable!(),
            Block::Sequence(items) => self.add(Item::Seq(items), size)?,
            Block::Times(times, body) => {
                let all = u64::from(times).saturating_mul(size.max(1));
                self.add(Item::Repeat { times, body }, all)?;
            }
            Block::Choice(line, ways) => {
                self.add(Item::Choose { line, ways }, size.saturating_add(1))?;
            }
            Block::Alternative(weight, items) => self.add_way(weight, items, size)?,
        }
        Ok(())
    }

    /// The items of a body of which no block inside is open.
    #[tactic(auto, using(crate::proofs::Bodies::stacked_push))]
    pub fn finish(mut self) -> Vec<Item>
        requires { is_body_closable self.blocks ≡ true }
        ensures { lines_of_body result.items ≡ self.lines }
    {
        let Some(open) = self.open.pop() else {
            unreachable!();
        };
        let block = open.block;
        match block {
            Block::Whole(items) => items,
            Block::Sequence(_) => unreachable!(),
            Block::Times(_, _) => unreachable!(),
            Block::Choice(_, _) => unreachable!(),
            Block::Alternative(_, _) => unreachable!(),
        }
    }

    /// Whether a repeat is open.
    #[tactic(auto, using(crate::proofs::Bodies::repeats))]
    pub fn is_in_repeat(&self) -> bool
        ensures { result ≡ list_any is_repeat self.now.blocks }
    {
        is_any_repeat(&self.open)
    }

    /// Whether the innermost block may be closed: a choice needs an alternative, and a weight.
    #[tactic(auto, using(crate::proofs::Bodies::stacked_push))]
    pub fn is_closable(&self) -> bool
        ensures { result ≡ is_closable self.now.blocks }
    {
        match self.open.split_last() {
            None => true,
            Some((open, _)) => !open.block.is_choice()
                || open.block.ways() > 0 && open.block.is_weighted(),
        }
    }

    /// How many closed alternatives the innermost block has.
    #[tactic(auto, using(crate::proofs::Bodies::stacked_push))]
    pub fn ways(&self) -> usize
        ensures { result ≡ ways_in self.now.blocks }
    {
        match self.open.split_last() {
            None => 0,
            Some((open, _)) => open.block.ways(),
        }
    }

    /// The length of the body, where no block inside it is open.
    #[tactic(auto, using(crate::proofs::Bodies::stacked_push))]
    pub fn length(&self) -> Option<u64>
        ensures { result ≡ body_length self.now.blocks }
    {
        match self.open.split_last() {
            None => None,
            Some((open, _)) => match &open.block {
                Block::Whole(_) => Some(open.length),
                _ => None,
            },
        }
    }
}
