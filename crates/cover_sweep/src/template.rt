// The demo template.
ghost use Rattle.std.specs.Prelude.{◌≡◌, ◌≤◌, ◌++◌, OnOk, IfOk, string_bytes};
ghost use Rattle.cover_sweep.specs.Template.{demo_template};

use crate::OutOfMemory;
use std::alloc::{AllocError, Global};
use std::fmt::Write;

/// The lines before the one that says how often.
const FIRST_LINES: &str = "ram 0x80000000 0x80020000
pool 0x80000000 0x80001000 0x80010000
hart 0 {
start pc 0x80000000 priv m
reg x31 = 0x80010800
body {
";

/// What is repeated, and the ends of all blocks.
const LAST_LINES: &str = "choose {
3: {
do op in {add, sub, xor, or, and, sltu, sra, addi, slli}; rd in {0..30}
}
2: {
do op in {lw, lhu, lb}; rs1 in {31}; rd in {0..30}
}
2: {
do op in {sw, sh, sb}; rs1 in {31}
}
1: {
do op in {mul, mulhu, div, remu}; rd in {0..30}
}
}
}
}
}
";

fn push_template(text: &mut String, n: u32) -> Result<(), AllocError>
    ensures { OnOk result (string_bytes text.new ≡ string_bytes text.old ++ demo_template n) }
{
    text.push_str(FIRST_LINES)?;
    writeln!(text, "repeat {n} {{")?;
    text.push_str(LAST_LINES)?;
    Ok(())
}

/// The text of the demo template of a number, which lays one step out so many times.
pub fn make(alloc: Global, n: u32) -> Result<Vec<u8>, OutOfMemory>
    requires { n ≤ 2000 }
    ensures { IfOk result (λ text. text.items ≡ demo_template n) }
{
    let mut text = String::new(alloc);
    push_template(&mut text, n)?;
    Ok(text.into_bytes())
}
