// A test of a template as the search works on it.
ghost use Rattle.std.specs.Prelude.{◌≡◌, ◌<◌, ◌≤◌, length, IfOk, [], map};
ghost use Rattle.part_state.specs.Beginning.{IsBegun};
ghost use Rattle.part_state.specs.Meaning.{IsTest};
ghost use Rattle.part_state.specs.State.{data_of, here};
ghost use Rattle.tpl_lang.specs.Parsing.{Parses};
ghost use Rattle.gen_turn.specs.Rules.{can_be_taken, draft_rules, shown};

use crate::binding::bind_name;
use crate::leaf::{turn_fault, turn_leaf};
use gen_search::{OutOfMemory, PartialTest, Turn};
use part_state::Part;
use std::alloc::Global;
use std::marker::Model;
use tpl_ast::{Item, Template};

/// What a draft is seen as: its template, the budget of each problem, and the test so far.
#[derive(Drop)]
pub struct DraftWhole<'t> {
    template: &'t Template,
    nodes: u64,
    part: Part,
}

impl<'t> Model for DraftWhole<'t> {
    ghost use Rattle.gen_turn.specs.Rules.{Shown, shown};
    ghost use Rattle.std.specs.Coded.{codes};
    ghost use Rattle.tpl_ast.specs.contracts.template.Item as item;

    ghost coded = { Prim.hlevel (codes, item.the_row.coded) };

    ghost Value = { Shown };

    ghost view = { λ w. shown w.template.now w.nodes w.part.now };
}

/// A test that is being made for a template.
#[derive(Drop)]
pub struct Draft<'t> {
    alloc: Global,
    template: &'t Template,
    /// The budget of each problem, the most combinations that a search for its answer may have to look at.
    nodes: u64,
    part: Part,
    /// How many leaf turns were made.
    turns: u64,
}

impl<'t> Draft<'t> {
    /// A test that begins as a template says, with nothing done.
    pub fn new(alloc: Global, template: &'t Template, nodes: u64) -> Result<Self, OutOfMemory>
        requires { Parses template.now.text template.now }
        ensures template { IfOk result (λ d. d.template.now ≡ template.now) }
        ensures nodes { IfOk result (λ d. d.nodes ≡ nodes) }
        ensures begun { IfOk result (λ d. IsBegun template.now (here d.part)) }
        ensures test { IfOk result (λ d. IsTest (here d.part)) }
        ensures told { IfOk result (λ d. d.part.now ≡ data_of (here d.part)) }
        ensures earlier { IfOk result (λ d. d.part.earlier ≡ []) }
        ensures turns { IfOk result (λ d. d.turns ≡ 0) }
    {
        match Part::new(alloc, template) {
            Ok(part) => {
                part.is_test();
                part.is_told();
                Ok(Draft {
                    alloc,
                    template,
                    nodes,
                    part,
                    turns: 0,
                })
            }
            Err(_) => Err(OutOfMemory),
        }
    }

    /// How many leaf turns were made.
    pub fn turns(&self) -> u64
        ensures { result ≡ self.now.turns }
    {
        self.turns
    }

    /// The test as it stands.
    pub fn into_part(self) -> Part
        ensures { result ≡ self.entry.part }
    {
        self.part
    }
}

impl<'t> PartialTest for Draft<'t> {
    type Whole = DraftWhole<'t>;

    ghost whole = { λ d. shown d.template.now d.nodes d.part.now };

    ghost earlier = { λ d. map (shown d.template.now d.nodes) d.part.earlier };

    ghost turned = { λ d. d.turns };

    ghost rules = { draft_rules };

    ghost can_take = { can_be_taken };

    fn mark(&self) -> usize {
        self.part.mark()
    }

    fn rollback(&mut self, mark: usize) {
        self.part.rollback(mark);
    }

    fn turn(&mut self, hart: usize, leaf: &Item, draws: &[u32; 16]) -> Result<Turn, OutOfMemory> {
        // No test lives to see so many turns.
        if self.turns == u64::MAX {
            return Err(OutOfMemory);
        }
        self.turns += 1;
        match leaf {
            Item::Leaf { line: _, wishes } => match turn_leaf(
                self.alloc,
                &mut self.part,
                self.template,
                self.nodes,
                hart as u8,
                wishes,
                draws,
            ) {
                Ok(turn) => {
                    self.part.is_told();
                    Ok(turn)
                }
                Err(_) => Err(OutOfMemory),
            },
            Item::FetchFault { line: _, causes } => match turn_fault(
                self.alloc,
                &mut self.part,
                self.template,
                self.nodes,
                hart as u8,
                causes,
                draws,
            ) {
                Ok(turn) => {
                    self.part.is_told();
                    Ok(turn)
                }
                Err(_) => Err(OutOfMemory),
            },
            // Nothing else is a leaf.
            Item::Label { name: _ } => unreachable!(),
            Item::Seq(_) => unreachable!(),
            Item::Repeat { times: _, body: _ } => unreachable!(),
            Item::Choose { line: _, ways: _ } => unreachable!(),
        }
    }

    fn bind_label(&mut self, hart: usize, name: u32) -> Result<(), OutOfMemory> {
        let pc = self.part.hart(hart as u8).pc;
        match bind_name(&mut self.part, name, Some(pc)) {
            Ok(()) => {
                self.part.is_told();
                Ok(())
            }
            Err(_) => Err(OutOfMemory),
        }
    }

    fn take_choice(&mut self, way: u32) -> Result<(), OutOfMemory> {
        match self.part.take_choice(way) {
            Ok(()) => {
                self.part.is_told();
                Ok(())
            }
            Err(_) => Err(OutOfMemory),
        }
    }
}
