// A template that has every statement, with one of its lines replaced.
// Each row has the line and the kind that are told, a line's number in the template, and what stands in that line's
// place, where a bar stands for a line feed.
use crate::told::{assert_told, push_lines};
use std::alloc::Global;
use std::process::Abort;
use std::test::Fail;
use test_texts::EVERY;

/// Adds the lines with one of them, counted from 1, replaced by others, with bars for line feeds.
fn push_replaced(text: &mut String, n: usize, by: &str) -> Result<(), Fail> {
    for (i, line) in EVERY.split('\n').enumerate() {
        if i > 0 {
            text.push('\n')?;
        }
        if i + 1 == n {
            push_lines(text, by)?;
        } else {
            text.push_str(line)?;
        }
    }
    Ok(())
}

/// What is told where the row's end, a line's number and what stands in its place, is done.
pub fn compare(
    rt: &impl Abort,
    alloc: Global,
    end: &str,
    want: &str,
    row: &str,
) -> Result<(), Fail> {
    let (n, by) = end.split_once(' ').ok_or("a line's number")?;
    let mut text = String::new(alloc);
    push_replaced(&mut text, n.parse()?, by)?;
    assert_told(rt, alloc, &text, want, row)
}

/// The same for each row.
pub fn compare_all(rt: &impl Abort, alloc: Global, rows: &str) -> Result<(), Fail> {
    for row in rows.split('\n') {
        let (want, end) = row.split_once(" => ").ok_or("what is told")?;
        compare(rt, alloc, end, want, row)?;
    }
    Ok(())
}
