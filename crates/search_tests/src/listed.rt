// A test that is kept as the list of its changes.
ghost use Rattle.std.specs.Prelude.{◌≡◌, ◌++◌, [], ◌∷◌, IfOk};
ghost use Rattle.gen_search.specs.Laws.{HasOneAnswer, HasSomeAnswer, StillAllows};
ghost use Rattle.search_tests.specs.Listed.{earlier_of, fits_nothing, is_among, line_of, rules_of, whole_of};

use gen_search::{OutOfMemory, PartialTest, Turn};
use std::alloc::{AllocError, Global};
use tpl_ast::{Item, Items};

/// A change of a listed test.
#[derive(Clone, Copy, Debug, PartialEq, Eq)]
pub enum Change {
    /// A leaf that was taken, by its line, with its draws.
    Leaf {
        hart: usize,
        line: u32,
        draws: [u32; 16],
    },
    Label {
        hart: usize,
        name: u32,
    },
    /// The alternative that a choice takes.
    Way(u32),
}

/// What a listed test is seen as.
#[derive(Drop)]
pub struct ListedWhole {
    pub dead: Items<u32>,
    pub odd: Items<u32>,
    pub large: Items<u32>,
    pub changes: Items<Change>,
}

/// A test as the list of its changes. Leaves on some lines are dead: nothing fits them, or their problems are too large.
#[derive(Drop)]
pub struct ListedTest {
    /// The lines of leaves that nothing fits.
    pub dead: Vec<u32>,
    /// The lines of leaves that nothing fits where their first draw is odd.
    pub odd: Vec<u32>,
    /// The lines of leaves whose problems are too large.
    pub large: Vec<u32>,
    pub changes: Vec<Change>,
    /// How many leaf turns were made on it.
    pub turns: u64,
}

impl ListedTest {
    pub fn new(alloc: Global) -> Self {
        ListedTest {
            dead: Vec::new(alloc),
            odd: Vec::new(alloc),
            large: Vec::new(alloc),
            changes: Vec::new(alloc),
            turns: 0,
        }
    }
}

fn keep(changes: &mut Vec<Change>, change: Change) -> Result<(), AllocError>
    ensures { IfOk result (λ _. changes.new.items ≡ changes.old.items ++ (change ∷ [])) }
{
    changes.push(change)?;
    Ok(())
}

fn is_among(lines: &[u32], line: u32) -> bool
    ensures { result ≡ is_among lines.now line }
{
    lines.iter().any(|n| *n == line)
}

fn fits_nothing(dead: &[u32], odd: &[u32], line: u32, draws: &[u32; 16]) -> bool
    ensures { result ≡ fits_nothing dead.now odd.now line draws.now }
{
    is_among(dead, line) || is_among(odd, line) && draws[0] % 2 == 1
}

fn line_of(item: &Item) -> u32
    ensures { result ≡ line_of item.now }
{
    match item {
        Item::Leaf { line, wishes: _ } => *line,
        Item::FetchFault { line, causes: _ } => *line,
        Item::Seq(_) => 0,
        Item::Repeat { times: _, body: _ } => 0,
        Item::Choose { line: _, ways: _ } => 0,
        Item::Label { name: _ } => 0,
    }
}

impl PartialTest for ListedTest {
    type Whole = ListedWhole;

    ghost whole = { λ s. whole_of s.dead.items s.odd.items s.large.items s.changes.items };

    ghost earlier = { λ s. earlier_of s.dead.items s.odd.items s.large.items s.changes.items };

    ghost turned = { λ s. s.turns };

    ghost rules = { rules_of };

    ghost can_take = { λ whole hart item. Unit {0} };

    fn mark(&self) -> usize {
        self.changes.as_slice().len()
    }

    fn rollback(&mut self, mark: usize) {
        self.changes.truncate(mark);
    }

    fn turn(&mut self, hart: usize, leaf: &Item, draws: &[u32; 16]) -> Result<Turn, OutOfMemory> {
        // No test lives to see so many turns.
        if self.turns == u64::MAX {
            return Err(OutOfMemory);
        }
        self.turns += 1;
        let line = line_of(leaf);
        if fits_nothing(&self.dead, &self.odd, line, draws) {
            return Ok(Turn::NoneFits);
        }
        if is_among(&self.large, line) {
            return Ok(Turn::Spent);
        }
        let draws = *draws;
        keep(&mut self.changes, Change::Leaf { hart, line, draws })?;
        Ok(Turn::Taken)
    }

    fn bind_label(&mut self, hart: usize, name: u32) -> Result<(), OutOfMemory> {
        keep(&mut self.changes, Change::Label { hart, name })?;
        Ok(())
    }

    fn take_choice(&mut self, way: u32) -> Result<(), OutOfMemory> {
        keep(&mut self.changes, Change::Way(way))?;
        Ok(())
    }
}

/// Does nothing. Its contract says that each leaf turn of a listed test has one answer, so that a search on one has one
/// result.
pub fn listed_law()
    ensures still { StillAllows (λ whole hart item. Unit {0}) rules_of }
    ensures one_answer { HasOneAnswer (λ whole hart item. Unit {0}) rules_of }
    ensures some_answer { HasSomeAnswer (λ whole hart item. Unit {0}) rules_of }
{}
