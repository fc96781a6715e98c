// Rows of addresses that lead to physical addresses, of which some may lie outside RAM.
ghost use Rattle.std.specs.Prelude.{◌≡◌, ℕ, ◌+◌, ◌-◌, ◌*◌, ◌/◌, ◌%◌, ◌^◌, ◌<◌, ◌≤◌, ◌++◌, ◌&&◌, Option, OnOk, IfOk};
ghost use Rattle.dom_set.specs.Elements.{is_in};
ghost use Rattle.rv_mem.specs.Ram.{in_ram};
ghost use Rattle.row_parts.specs.Internal.Blocks.{turned};
ghost use Rattle.row_parts.specs.Reached.{AddsAll, AddsChosen, AddsReached};

use crate::blocks::{Choice, Cover, chosen, mask_of, power};
use crate::ram_part::RamPart;
use crate::row::{News, Row, RowEnd, copy_of, push_row, push_some};
use dom_set::{OutOfMemory, Set};
use rv_mem::Ram;
use std::alloc::Global;
use sv_walk::Kind;

/// A row of these addresses.
pub fn row_of(alloc: Global, ea: Set, news: &News, end: RowEnd) -> Result<Row, OutOfMemory>
    ensures ea { IfOk result (λ r. r.ea ≡ ea) }
    ensures root { IfOk result (λ r. r.root ≡ news.now.root) }
    ensures leaf { IfOk result (λ r. r.leaf ≡ news.now.leaf) }
    ensures apart { IfOk result (λ r. r.apart ≡ news.now.apart) }
    ensures end { IfOk result (λ r. r.end ≡ end) }
{
    let root = copy_of(alloc, &news.root)?;
    let leaf = copy_of(alloc, &news.leaf)?;
    Ok(Row {
        ea,
        root,
        leaf,
        apart: news.apart,
        end,
    })
}

/// Appends a row of all addresses of a set.
pub fn push_all(
    alloc: Global,
    rows: &mut Vec<Row>,
    set: &Set,
    news: &News,
    end: RowEnd,
) -> Result<(), OutOfMemory>
    ensures { OnOk result (AddsAll rows.old.items rows.new.items set.now news.now end) }
{
    let ea = set.copy(alloc)?;
    let row = row_of(alloc, ea, news, end)?;
    push_some(rows, row)?;
    Ok(())
}

/// Appends a row of addresses, unless there is none.
fn push_part(
    alloc: Global,
    rows: &mut Vec<Row>,
    ea: Set,
    news: &News,
    end: RowEnd,
) -> Result<(), OutOfMemory>
    ensures { OnOk result (AddsAll rows.old.items rows.new.items ea news.now end) }
{
    let row = row_of(alloc, ea, news, end)?;
    push_row(rows, row)?;
    Ok(())
}

/// Appends a row of those addresses of a set that lead into the part of a frame that is in RAM, or into the other one, unless
/// there is none. The lowest bits of each, `width` of them, are the offset from the frame's address.
fn push_chosen(
    alloc: Global,
    rows: &mut Vec<Row>,
    set: &Set,
    news: &News,
    part: &RamPart,
    width: u32,
    end: RowEnd,
) -> Result<(), OutOfMemory>
    requires width { width ≤ 32 }
    requires grain { 2 ≤ width }
    ensures { OnOk result (AddsChosen rows.old.items rows.new.items set.now (λ x. turned part.now.wanted (in_ram part.now.ram.now ((part.now.frame * 4096 + x % 2 ^ width) / 4))) news.now end) }
{
    let ea = chosen(alloc, set, part, width)?;
    push_part(alloc, rows, ea, news, end)?;
    Ok(())
}

/// Appends the rows of addresses whose lowest bits, so many, are the offset from the address of a frame.
pub fn push_reached(
    alloc: Global,
    rows: &mut Vec<Row>,
    ram: &Ram,
    kind: Kind,
    set: &Set,
    news: &News,
    frame: u32,
    width: u32,
) -> Result<(), OutOfMemory>
    requires width { width ≤ 32 }
    requires grain { 2 ≤ width }
    requires frame { frame < 2 ^ 22 }
    requires aligned { frame * 4096 % 2 ^ width ≡ 0 }
    ensures { OnOk result (AddsReached (in_ram ram.now) kind rows.old.items rows.new.items set.now news.now frame width) }
{
    let fault = RowEnd::Fault(kind.access_cause());
    if frame >= 0x10_0000 {
        push_all(alloc, rows, set, news, fault)?;
        return Ok(());
    }
    let _words = power(width);
    let inside = RamPart {
        ram,
        frame,
        wanted: true,
    };
    let base = frame * 4096;
    let mask = mask_of(width);
    match inside.judge(0, width) {
        Cover::All => {
            push_all(alloc, rows, set, news, RowEnd::Pa { base, mask })?;
            Ok(())
        }
        Cover::Nothing => {
            push_all(alloc, rows, set, news, fault)?;
            Ok(())
        }
        Cover::Some => {
            push_chosen(
                alloc,
                rows,
                set,
                news,
                &inside,
                width,
                RowEnd::Pa { base, mask },
            )?;
            let outside = RamPart {
                ram,
                frame,
                wanted: false,
            };
            push_chosen(alloc, rows, set, news, &outside, width, fault)?;
            Ok(())
        }
    }
}
