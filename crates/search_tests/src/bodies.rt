// Bodies of harts from lines of the template language: `do ..`, `fault ..`, `label N`, `seq {`, `repeat N {`, `choose {`,
// `WEIGHT: {` and `}`, and `hart`, from which on the lines are those of the next hart. The first line is line 6. Leaves wish
// nothing, whatever their line says, and a label is given by its number.
use dom_set::Set;
use rv_csr::Priv;
use std::alloc::Global;
use std::process::Abort;
use tpl_ast::{HartDecl, HartState, Item, Items};

#[derive(Clone, Copy)]
enum Kind {
    Body,
    Seq,
    Repeat(u32),
    Choose(u32),
    Way(u32),
}

/// A block that hasn't ended, with what stands in it so far.
#[derive(Drop)]
struct Block {
    kind: Kind,
    items: Vec<Item>,
    ways: Vec<(u32, Vec<Item>)>,
}

/// What was read so far.
#[derive(Drop)]
struct Reader {
    alloc: Global,
    harts: Vec<HartDecl>,
    /// The blocks that haven't ended, the innermost last.
    blocks: Vec<Block>,
}

/// What needed memory found it.
fn done<T: Drop, E: Drop>(rt: &impl Abort, value: Result<T, E>) -> T {
    match value {
        Ok(value) => value,
        Err(_) => panic!(rt; "memory"),
    }
}

fn number_in(rt: &impl Abort, word: &str) -> u32 {
    u32::from_str_radix(word, 10).expect(rt, word)
}

fn start_of(alloc: Global) -> HartState {
    HartState {
        pc: 0x8000_0000,
        privilege: Priv::M,
        mstatus: 0,
        medeleg: 0,
        satp: 0,
        places: Items::new(alloc),
    }
}

impl Reader {
    fn begin(&mut self, rt: &impl Abort, kind: Kind) {
        let block = Block {
            kind,
            items: Vec::new(self.alloc),
            ways: Vec::new(self.alloc),
        };
        done(rt, self.blocks.push(block));
    }

    fn take(&mut self, rt: &impl Abort) -> Block {
        self.blocks.pop().expect(rt, "a block")
    }

    fn add(&mut self, rt: &impl Abort, item: Item) {
        let mut block = self.take(rt);
        done(rt, block.items.push(item));
        done(rt, self.blocks.push(block));
    }

    fn add_way(&mut self, rt: &impl Abort, weight: u32, items: Vec<Item>) {
        let mut block = self.take(rt);
        done(rt, block.ways.push((weight, items)));
        done(rt, self.blocks.push(block));
    }

    /// Ends the innermost block.
    fn end(&mut self, rt: &impl Abort) {
        let Block { kind, items, ways } = self.take(rt);
        match kind {
            Kind::Body => {
                let start = start_of(self.alloc);
                done(rt, self.harts.push(HartDecl { start, body: items }));
            }
            Kind::Seq => self.add(rt, Item::Seq(items)),
            Kind::Repeat(times) => self.add(rt, Item::Repeat { times, body: items }),
            Kind::Choose(line) => self.add(rt, Item::Choose { line, ways }),
            Kind::Way(weight) => self.add_way(rt, weight, items),
        }
    }

    fn read(&mut self, rt: &impl Abort, line: u32, text: &str) {
        let mut words = text.split_whitespace();
        let first = words.next().expect(rt, text);
        let second = words.next();
        match first {
            "do" => {
                let wishes = Vec::new(self.alloc);
                self.add(rt, Item::Leaf { line, wishes });
            }
            "fault" => {
                let causes = Set::new(self.alloc);
                self.add(rt, Item::FetchFault { line, causes });
            }
            "label" => {
                let name = number_in(rt, second.expect(rt, text));
                self.add(rt, Item::Label { name });
            }
            "seq" => self.begin(rt, Kind::Seq),
            "repeat" => self.begin(rt, Kind::Repeat(number_in(rt, second.expect(rt, text)))),
            "choose" => self.begin(rt, Kind::Choose(line)),
            "}" => self.end(rt),
            "hart" => {
                self.end(rt);
                self.begin(rt, Kind::Body);
            }
            _ => {
                let weight = number_in(rt, first.trim_end_matches(':'));
                self.begin(rt, Kind::Way(weight));
            }
        }
    }
}

/// The harts whose bodies are these lines.
pub fn harts_in(rt: &impl Abort, alloc: Global, lines: &str) -> Vec<HartDecl> {
    let mut reader = Reader {
        alloc,
        harts: Vec::new(alloc),
        blocks: Vec::new(alloc),
    };
    reader.begin(rt, Kind::Body);
    let mut line: u32 = 6;
    for text in lines.trim().lines() {
        reader.read(rt, line, text);
        line = line.saturating_add(1);
    }
    reader.end(rt);
    reader.harts
}
