// Rows: bodies that are searched, and what comes of it.
//
// A row has three parts with `|` between them. The first has lines `seed N`, `turns N`, and, for each line whose leaves
// are dead, `none LINE`, `odd LINE` (where their first draw is odd) or `spent LINE`. The second has the bodies. The third has
// what comes of the search: `done TURNS`, and then the changes of the test in order, `leaf HART LINE DRAW..` with the
// first of its draws in hexadecimal, `label HART NAME` or `way N`; or `gave_up TURNS NONE SPENT LINE`. TURNS are the leaf
// turns that were made.
use crate::bodies::harts_in;
use crate::fits::can_search;
use crate::listed::{Change, ListedTest};
use gen_search::{Answer, search};
use std::alloc::Global;
use std::process::Abort;
use std::str::SplitWhitespace;

/// The words of a line, one after another. A line that can't be read ends the test.
#[derive(Drop)]
struct Row<'a> {
    line: &'a str,
    words: SplitWhitespace<'a>,
}

impl<'a> Row<'a> {
    fn of(line: &'a str) -> Row<'a> {
        Row {
            line,
            words: line.split_whitespace(),
        }
    }

    fn word(&mut self, rt: &impl Abort) -> &'a str {
        self.words.next().expect(rt, self.line)
    }

    fn number(&mut self, rt: &impl Abort) -> u64 {
        u64::from_str_radix(self.word(rt), 10).expect(rt, self.line)
    }

    fn count(&mut self, rt: &impl Abort) -> u32 {
        u32::from_str_radix(self.word(rt), 10).expect(rt, self.line)
    }
}

/// What a search is given.
#[derive(Drop)]
struct Given {
    seed: u64,
    turns: u64,
    test: ListedTest,
}

fn push(rt: &impl Abort, lines: &mut Vec<u32>, line: u32) {
    match lines.push(line) {
        Ok(()) => (),
        Err(_) => panic!(rt; "memory"),
    }
}

fn give(rt: &impl Abort, given: &mut Given, line: &str) {
    let mut row = Row::of(line);
    match row.word(rt) {
        "seed" => given.seed = row.number(rt),
        "turns" => given.turns = row.number(rt),
        "none" => push(rt, &mut given.test.dead, row.count(rt)),
        "odd" => push(rt, &mut given.test.odd, row.count(rt)),
        "spent" => push(rt, &mut given.test.large, row.count(rt)),
        _ => panic!(rt; "{line}"),
    }
}

fn given_in(rt: &impl Abort, alloc: Global, lines: &str) -> Given {
    let mut given = Given {
        seed: 0,
        turns: 0,
        test: ListedTest::new(alloc),
    };
    for line in lines.trim().lines() {
        give(rt, &mut given, line);
    }
    given
}

fn searched(rt: &impl Abort, alloc: Global, given: &mut Given, body: &str) -> Answer {
    let bodies = harts_in(rt, alloc, body);
    let harts = bodies.as_slice();
    let fit = can_search(harts);
    assert!(rt; fit);
    assert!(rt; harts.len() < 5);
    match search(alloc, &mut given.test, harts, given.seed, given.turns) {
        Ok(answer) => answer,
        Err(_) => panic!(rt; "memory"),
    }
}

/// The first draws of a leaf are those of a line.
fn are_draws(rt: &impl Abort, draws: &[u32; 16], row: &mut Row<'_>) -> bool {
    for draw in draws {
        match row.words.next() {
            None => return true,
            Some(word) => {
                if u32::from_str_radix(word, 16).expect(rt, row.line) != *draw {
                    return false;
                }
            }
        }
    }
    true
}

fn is_leaf(rt: &impl Abort, change: &Change, row: &mut Row<'_>) -> bool {
    let Change::Leaf { hart, line, draws } = change else {
        return false;
    };
    *hart == row.count(rt) as usize && *line == row.count(rt) && are_draws(rt, draws, row)
}

fn is_label(rt: &impl Abort, change: &Change, row: &mut Row<'_>) -> bool {
    let hart = row.count(rt) as usize;
    let name = row.count(rt);
    *change == Change::Label { hart, name }
}

fn is_change(rt: &impl Abort, change: &Change, line: &str) -> bool {
    let mut row = Row::of(line);
    match row.word(rt) {
        "leaf" => is_leaf(rt, change, &mut row),
        "label" => is_label(rt, change, &mut row),
        "way" => *change == Change::Way(row.count(rt)),
        _ => panic!(rt; "{line}"),
    }
}

/// The changes are those of the lines, and no others.
fn assert_changes(rt: &impl Abort, changes: &[Change], lines: &str) {
    let mut left = changes;
    for line in lines.lines() {
        let [change, rest @ ..] = left else {
            panic!(rt; "{line}")
        };
        let is_so = is_change(rt, change, line);
        assert!(rt; is_so, "{line}");
        left = rest;
    }
    assert!(rt; left.is_empty());
}

fn answer_in(rt: &impl Abort, row: &mut Row<'_>) -> Answer {
    Answer::GaveUp {
        none_fits: row.number(rt),
        spent: row.number(rt),
        last_line: row.count(rt),
    }
}

fn assert_told(rt: &impl Abort, given: &Given, answer: Answer, want: &str) {
    let (line, changes) = want.split_once('\n').expect(rt, want);
    let mut row = Row::of(line);
    let is_done = row.word(rt) == "done";
    let turns = row.number(rt);
    assert_eq!(rt; given.test.turns, turns);
    if is_done {
        assert_eq!(rt; answer, Answer::Done);
        assert_changes(rt, given.test.changes.as_slice(), changes);
    } else {
        let wanted = answer_in(rt, &mut row);
        assert_eq!(rt; answer, wanted);
    }
}

pub fn assert_row(rt: &impl Abort, alloc: Global, row: &str) {
    let (lines, rest) = row.split_once('|').expect(rt, row);
    let (body, want) = rest.split_once('|').expect(rt, row);
    let mut given = given_in(rt, alloc, lines);
    let answer = searched(rt, alloc, &mut given, body);
    assert_told(rt, &given, answer, want.trim_start());
}
