// Whether bodies can be searched.
ghost use Rattle.std.specs.Prelude.{◌≡◌, map, true};
ghost use Rattle.tpl_ast.specs.Choices.{all_true, are_ways_fit, can_pick, is_fit};
ghost use Rattle.gen_search.specs.Fit.{CanSearch};
ghost use Rattle.gen_search.specs.Ready.{BodiesAreReady};

use tpl_ast::{HartDecl, Item};

/// Whether an alternative can be picked.
fn can_pick(ways: &[(u32, Vec<Item>)]) -> bool
    ensures { result ≡ true → can_pick ways.now ≡ true }
{
    let mut sum: u64 = 0;
    for way in ways {
        match sum.checked_add(u64::from(way.0)) {
            None => return false,
            Some(more) => sum = more,
        }
    }
    sum > 0 && ways.len() < 4_294_967_296
}

/// Whether an alternative can be picked wherever a choice stands in a body.
#[cycle(fits)]
pub fn is_body_fit(items: &[Item]) -> bool
    ensures { result ≡ true → all_true (map is_fit items.now) ≡ true }
{
    for item in items {
        if !is_item_fit(item) {
            return false;
        }
    }
    true
}

#[cycle(fits)]
fn are_all_fit(ways: &[(u32, Vec<Item>)]) -> bool
    ensures { result ≡ true → are_ways_fit ways.now ≡ true }
{
    for way in ways {
        if !is_body_fit(&way.1) {
            return false;
        }
    }
    true
}

#[cycle(fits)]
fn is_item_fit(item: &Item) -> bool
    ensures { result ≡ true → is_fit item.now ≡ true }
{
    match item {
        Item::Leaf { line: _, wishes: _ } => true,
        Item::FetchFault { line: _, causes: _ } => true,
        Item::Seq(body) => is_body_fit(body),
        Item::Repeat { times: _, body } => is_body_fit(body),
        Item::Choose { line: _, ways } => can_pick(ways) && are_all_fit(ways),
        Item::Label { name: _ } => true,
    }
}

/// Whether the bodies of harts can be searched. A listed test takes all their leaves and labels.
#[tactic(auto, using(crate::proofs::Found::always_ready))]
pub fn can_search(harts: &[HartDecl]) -> bool
    ensures fit { result ≡ true → CanSearch harts.now }
    ensures ready { BodiesAreReady (λ hart item. Unit {0}) harts.now }
{
    for hart in harts {
        if !is_body_fit(&hart.body) {
            return false;
        }
    }
    true
}
