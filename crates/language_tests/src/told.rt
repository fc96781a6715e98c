// What the parser tells of texts.
use std::alloc::Global;
use std::fmt::Write;
use std::process::Abort;
use std::test::Fail;
use tpl_parse::{ParseError, parse};

/// The line and the number of the kind of a text's fault, or `ok`.
fn told(alloc: Global, text: &str) -> Result<String, Fail> {
    let mut out = String::new(alloc);
    match parse(alloc, text.as_bytes()) {
        Ok(_) => out.push_str("ok")?,
        Err(ParseError::OutOfMemory) => out.push_str("out of memory")?,
        Err(ParseError::Fault(fault)) => {
            let (line, kind) = (fault.line, fault.kind as u8);
            write!(out, "{line} {kind}")?;
        }
    }
    Ok(out)
}

/// Of the text of a row, this is told.
pub fn assert_told(
    rt: &impl Abort,
    alloc: Global,
    text: &str,
    want: &str,
    row: &str,
) -> Result<(), Fail> {
    assert_eq!(rt; told(alloc, text)?.as_str(), want, "at {row}");
    Ok(())
}

/// Lines with bars for line feeds.
pub fn push_lines(text: &mut String, lines: &str) -> Result<(), Fail> {
    for c in lines.chars() {
        text.push(if c == '|' { '\n' } else { c })?;
    }
    Ok(())
}

/// Each row has the line and the kind that are told, or `ok`, and a text, where a bar stands for a line feed.
pub fn compare_texts(rt: &impl Abort, alloc: Global, rows: &str) -> Result<(), Fail> {
    for row in rows.split('\n') {
        let (want, lines) = row.split_once(" => ").ok_or("what is told")?;
        let mut text = String::new(alloc);
        push_lines(&mut text, lines)?;
        assert_told(rt, alloc, &text, want, row)?;
    }
    Ok(())
}
