// How many records a body has.
ghost use Rattle.std.specs.Prelude.{◌≡◌};
ghost use Rattle.tpl_ast.specs.Lengths.{length_of_body, length_of_item, longest_body, saturated};

use crate::template::Item;

/// How many records a body has at most, saturating: a leaf is 1, a label 0, a sequence the sum, a repeat its
/// times by its body, which counts as 1 at least, and a choice 1 and its longest alternative.
#[cycle(lengths)]
pub fn length(items: &[Item]) -> u64
    ensures { result ≡ saturated (length_of_body items.now) }
{
    let mut sum: u64 = 0;
    for item in items {
        sum = sum.saturating_add(length_of_item(item));
    }
    sum
}

#[cycle(lengths)]
fn longest(ways: &[(u32, Vec<Item>)]) -> u64
    ensures { result ≡ saturated (longest_body ways.now) }
{
    let mut most: u64 = 0;
    for way in ways {
        most = most.max(length(&way.1));
    }
    most
}

#[cycle(lengths)]
fn length_of_item(item: &Item) -> u64
    ensures { result ≡ saturated (length_of_item item.now) }
{
    match item {
        Item::Leaf { line: _, wishes: _ } => 1,
        Item::FetchFault { line: _, causes: _ } => 1,
        Item::Seq(body) => length(body),
        Item::Repeat { times, body } => u64::from(*times).saturating_mul(length(body).max(1)),
        Item::Choose { line: _, ways } => longest(ways).saturating_add(1),
        Item::Label { name: _ } => 0,
    }
}
