// Searches, row by row. The draws are those of another program, written after the published code of the generator.
use crate::listed::{ListedTest, listed_law};
use crate::rows::assert_row;
use gen_search::{draw_laws, search_laws};
use std::alloc::{AllocError, Global};
use std::test::Fail;

/// The second leaf is always dead, so the search begins again with each pair.
const DEAD_LOADS: &str = "\
seed 1
turns 4
none 7
|
do op in {lw}; rd in {2}; rs1 in {1}; imm in {0}; a in {0x80000800}
do op in {lw}; rd in {2}; rs1 in {1}; a in {0x80000804}
|
gave_up 4 2 0 7
";

/// A label and a repeat of three times two leaves.
const LOOP: &str = "\
seed 1
turns 6
|
label 0
repeat 3 {
do op in {addi}; rd in {5}; rs1 in {5}; imm in {1}
do op in {bne}; rs1 in {5}; rs2 in {0}; taken; target == top
}
|
done 6
label 0 0
leaf 0 8 e2393051
leaf 0 9 17d5e3e1
leaf 0 8 dfb24c65
leaf 0 9 54caa63d
leaf 0 8 beee3d10
leaf 0 9 a81e43e7
";

/// The second alternative has no weight.
const ALTERNATIVES: &str = "\
choose {
1: {
do op in {lw}; rd in {2}; rs1 in {1}; imm in {0}; a in {0x80000800}
do op in {lw}; rd in {2}; rs1 in {1}; a in {0x80000804}
}
0: {
do op in {addi}; rd in {6}; rs1 in {0}; imm in {1}
}
}
";

/// It is tried where the first is dead.
const ENOUGH_TURNS: (&str, &str) = (
    "seed 1\nturns 3\nnone 9\n",
    "done 3\nway 1\nleaf 0 12 19a59898\n",
);

/// The same with one leaf turn less.
const ONE_TURN_TOO_FEW: (&str, &str) = ("seed 1\nturns 2\nnone 9\n", "gave_up 2 1 0 9\n");

/// A row of a search through the alternatives, by what it is given and what comes of it.
fn of_alternatives(alloc: Global, ends: (&str, &str)) -> Result<String, AllocError> {
    let (lines, want) = ends;
    format!(in alloc; "{lines}|\n{ALTERNATIVES}|\n{want}")
}

/// Both alternatives are dead.
const DEAD_ALTERNATIVES: &str = "\
seed 1
turns 4
none 8
none 11
|
choose {
1: {
do op in {addi}; rs1 in {0}; a in {1}
}
0: {
do op in {addi}; rs1 in {0}; a in {2}
}
}
|
gave_up 4 4 0 11
";

/// Walks of 8,192 leaves, of which the last one is dead.
const LONG: &str = "\
seed 1
turns 65536
none 9
|
repeat 8191 {
do
}
do
|
gave_up 65536 8 0 9
";

/// The first 16 words of the generator, and the only leaf turn.
const FIRST_DRAWS: &str = "\
seed 1
turns 1
|
do
|
done 1
leaf 0 6 e2393051 01112f35 d3509d35 0b932f4a 8aa46776 8c532036 a0cd21d8 b8e6a8d0 dd26e863 8c7d6ffa 6062cb30 4390ef80 accf7d24 4bd1ffd2 06110eec 40fe6ee8
";

/// The draw of a choice with one alternative lies between those of leaves.
const LATER_DRAWS: &str = "\
seed 18446744073709551615
turns 2
|
do
choose {
1: {
}
}
fault outcome in {1}
|
done 2
leaf 0 6 00000000 e4c14788 379c6516 5c4ab3bb 601d23e0 1c382b8c d1faab16 67680a2d 92014a6e 628ae389 a794034d 5cc38cd9 fc913a3b 81c851dc 90c820e4 60dfa703
way 0
leaf 0 11 38ea1699 51f04d1b c4ef01a1 321eec02 4c37a737 6bfd1aa8 71a28325 4656d6e9 17509653 830bd521 6d35e3aa 4ab85020 21c1da2c 6a6057a2 f3a90dc1 a1cbdcd9
";

/// No leaf, and no leaf turn.
const NOTHING: &str = "\
seed 1
turns 0
|
repeat 0 {
do
}
seq {
}
repeat 5 {
seq {
}
}
label 0
|
done 0
label 0 0
";

/// A leaf, and no leaf turn.
const NO_TURN: &str = "\
seed 1
turns 0
|
do
|
gave_up 0 0 0 0
";

/// A problem that is too large.
const LARGE: &str = "\
seed 1
turns 5
spent 10
|
label 0
repeat 3 {
do
seq {
do
}
}
repeat 0 {
do
}
seq {
}
|
gave_up 5 0 2 10
";

/// Twelve choices by their weights.
const PICKS: &str = "\
seed 7
turns 0
|
repeat 12 {
choose {
1: {
}
2: {
}
0: {
}
4: {
}
}
}
|
done 0
way 3
way 0
way 1
way 3
way 1
way 1
way 3
way 3
way 1
way 3
way 1
way 0
";

/// Harts one after another, dead leaves by chance, and walks from the beginning.
const TWO_HARTS: &str = "\
seed 12
turns 300
odd 8
odd 12
odd 15
odd 19
odd 26
odd 28
odd 37
spent 34
|
choose {
3: {
do
}
0: {
label 0
do
}
5: {
do
choose {
1: {
label 1
do
}
2: {
}
}
}
}
do
hart
do
choose {
1: {
label 2
}
1: {
do
}
}
do
|
done 15
way 2
leaf 0 15 4f55da6e
way 0
label 0 1
leaf 0 19 2d795be8
leaf 0 26 8c53bd9e
leaf 1 28 e5b9b80e
way 0
label 1 2
leaf 1 37 87bb4714
";

/// Two alternatives of a leaf that is always taken.
const TWO_ALTERNATIVES: &str = "\
choose {
1: {
do op in {addi}; rd in {5}; rs1 in {0}; imm in {7}
}
1: {
do op in {addi}; rd in {5}; rs1 in {0}; imm in {7}
}
}
";

#[test]
fn a_search_begins_again(rt: HostRuntime) -> Result<(), Fail> {
    assert_row(&rt, rt.alloc(), DEAD_LOADS);
    Ok(())
}

#[test]
fn a_loop_is_laid_out(rt: HostRuntime) -> Result<(), Fail> {
    assert_row(&rt, rt.alloc(), LOOP);
    Ok(())
}

#[test]
fn a_second_alternative_is_tried(rt: HostRuntime) -> Result<(), Fail> {
    let row = of_alternatives(rt.alloc(), ENOUGH_TURNS)?;
    assert_row(&rt, rt.alloc(), row.as_str());
    Ok(())
}

#[test]
fn a_search_gives_up_where_a_turn_is_needed(rt: HostRuntime) -> Result<(), Fail> {
    let row = of_alternatives(rt.alloc(), ONE_TURN_TOO_FEW)?;
    assert_row(&rt, rt.alloc(), row.as_str());
    Ok(())
}

#[test]
fn dead_alternatives_are_counted(rt: HostRuntime) -> Result<(), Fail> {
    assert_row(&rt, rt.alloc(), DEAD_ALTERNATIVES);
    Ok(())
}

#[test]
fn long_walks_end(rt: HostRuntime) -> Result<(), Fail> {
    assert_row(&rt, rt.alloc(), LONG);
    Ok(())
}

#[test]
fn the_first_draws_are_those_of_the_seed(rt: HostRuntime) -> Result<(), Fail> {
    assert_row(&rt, rt.alloc(), FIRST_DRAWS);
    Ok(())
}

#[test]
fn draws_go_on(rt: HostRuntime) -> Result<(), Fail> {
    assert_row(&rt, rt.alloc(), LATER_DRAWS);
    Ok(())
}

#[test]
fn bodies_without_leaves_need_no_turn(rt: HostRuntime) -> Result<(), Fail> {
    assert_row(&rt, rt.alloc(), NOTHING);
    Ok(())
}

#[test]
fn a_leaf_needs_a_turn(rt: HostRuntime) -> Result<(), Fail> {
    assert_row(&rt, rt.alloc(), NO_TURN);
    Ok(())
}

#[test]
fn large_problems_are_counted(rt: HostRuntime) -> Result<(), Fail> {
    assert_row(&rt, rt.alloc(), LARGE);
    Ok(())
}

#[test]
fn weights_decide(rt: HostRuntime) -> Result<(), Fail> {
    assert_row(&rt, rt.alloc(), PICKS);
    Ok(())
}

#[test]
fn harts_follow_one_another(rt: HostRuntime) -> Result<(), Fail> {
    assert_row(&rt, rt.alloc(), TWO_HARTS);
    Ok(())
}

/// Ten choices, each of two alternatives, and then a leaf that is always dead: all 1,024 ways are tried.
fn ten_choices(alloc: Global) -> Result<String, AllocError> {
    let mut row = String::new(alloc);
    row.push_str("seed 1\nturns 3070\nnone 86\n|\n")?;
    for _ in 0..10 {
        row.push_str(TWO_ALTERNATIVES)?;
    }
    row.push_str("do op in {addi}; rs1 in {0}; a in {1}\n|\ngave_up 3070 1024 0 86\n")?;
    Ok(row)
}

#[test]
fn all_ways_are_tried(rt: HostRuntime) -> Result<(), Fail> {
    let row = ten_choices(rt.alloc())?;
    assert_row(&rt, rt.alloc(), row.as_str());
    Ok(())
}

#[test]
fn laws_hold_of_a_listed_test(_rt: HostRuntime) -> Result<(), Fail> {
    listed_law();
    search_laws::<ListedTest>();
    draw_laws();
    Ok(())
}
