// Where a walk through bodies stands.
ghost use Rattle.std.specs.Prelude.{◌≡◌, ◌≤◌, ◌<◌, ◌+◌, ◌*◌, ◌^◌, [], ◌∷◌, ◌++◌, length, IfOk, MatchOption};
ghost use Rattle.gen_search.specs.Search.{all_items, copies, of_hart};
ghost use Rattle.gen_search.specs.Steps.{steps_of, steps_of_body};
ghost use Rattle.gen_search.specs.Places.{laid, steps_left};

use std::alloc::{AllocError, Global};
use tpl_ast::{HartDecl, Item};

/// Items that are left of a body, and how often the whole body comes behind them.
#[derive(Clone, Copy)]
pub struct Block<'t> {
    pub items: &'t [Item],
    pub again: u32,
    pub body: &'t [Item],
}

/// A place in the bodies of harts. Blocks that are gone through stand inside one another, the innermost last.
#[derive(Drop)]
pub struct Place<'t> {
    /// The hart whose body it is in, from 0.
    pub hart: usize,
    pub blocks: Vec<Block<'t>>,
    /// The harts that come after this one.
    pub later: &'t [HartDecl],
}

impl<'t> Place<'t> {
    /// The place before the first item of all.
    pub fn first(alloc: Global, harts: &'t [HartDecl]) -> Result<Self, AllocError>
        requires { length harts.now < 2 ^ 32 }
        ensures laid { IfOk result (λ p. laid p ≡ all_items 0 harts.now) }
        ensures counted { IfOk result (λ p. p.hart + length p.later.now < 2 ^ 32) }
    {
        let mut blocks = Vec::new(alloc);
        match harts {
            [] => Ok(Place {
                hart: 0,
                blocks,
                later: harts,
            }),
            [first, later @ ..] => {
                blocks.push(Block {
                    items: &first.body,
                    again: 0,
                    body: &first.body,
                })?;
                Ok(Place {
                    hart: 0,
                    blocks,
                    later,
                })
            }
        }
    }

    /// Takes the next item off what is left; None where nothing is left.
    pub fn next_item(&mut self) -> Result<Option<&'t Item>, AllocError>
        requires { self.old.hart + length self.old.later.now < 2 ^ 32 }
        ensures counted { IfOk result (λ _. self.new.hart + length self.new.later.now < 2 ^ 32) }
        ensures item { IfOk result (λ o. MatchOption o (laid self.old ≡ []) (λ i. laid self.old ≡ (self.new.hart, i.now) ∷ laid self.new)) }
        ensures fewer { IfOk result (λ o. MatchOption o (steps_left self.new ≤ steps_left self.old) (λ i. steps_of i.now + steps_left self.new ≤ steps_left self.old)) }
    {
        loop {
            match self.blocks.pop() {
                Some(block) => match block.items {
                    [item, items @ ..] => {
                        self.blocks.push(Block {
                            items,
                            again: block.again,
                            body: block.body,
                        })?;
                        return Ok(Some(item));
                    }
                    [] => {
                        if block.again > 0 {
                            self.blocks.push(Block {
                                items: block.body,
                                again: block.again - 1,
                                body: block.body,
                            })?;
                        }
                    }
                },
                None => match self.later {
                    [hart, later @ ..] => {
                        self.later = later;
                        self.hart += 1;
                        self.blocks.push(Block {
                            items: &hart.body,
                            again: 0,
                            body: &hart.body,
                        })?;
                    }
                    [] => return Ok(None),
                },
            }
        }
    }

    /// Enters a body that comes so many times.
    pub fn enter(&mut self, times: u32, body: &'t [Item]) -> Result<(), AllocError>
        ensures laid { IfOk result (λ _. laid self.new ≡ copies times (of_hart self.old.hart body.now) ++ laid self.old) }
        ensures steps { IfOk result (λ _. steps_left self.new ≡ 1 + times * (1 + steps_of_body body.now) + steps_left self.old) }
        ensures hart { self.new.hart ≡ self.old.hart }
        ensures later { self.new.later ≡ self.old.later }
    {
        self.blocks.push(Block {
            items: &[],
            again: times,
            body,
        })?;
        Ok(())
    }

    /// The same place as a second value.
    pub fn copy(&self, alloc: Global) -> Result<Self, AllocError>
        ensures hart { IfOk result (λ p. p.hart ≡ self.now.hart) }
        ensures later { IfOk result (λ p. p.later ≡ self.now.later) }
        ensures blocks { IfOk result (λ p. p.blocks.items ≡ self.now.blocks.items) }
    {
        Ok(Place {
            hart: self.hart,
            blocks: self.blocks.to_vec(alloc)?,
            later: self.later,
        })
    }
}
