// Lists, words and lengths of bodies.
use rv_csr::Register;
use rv_isa::Op;
use std::alloc::{AllocError, Global};
use std::process::Abort;
use std::test::Fail;
use tpl_ast::{Item, Items, length, size_law};
use tpl_lang::{Key, csr_of, key_of, language_laws, op_number, op_of};

#[test]
fn a_list_keeps_its_items(rt: HostRuntime) -> Result<(), Fail> {
    let alloc = rt.alloc();
    let mut items = Items::new(alloc);
    assert!(rt; items.is_empty());
    items.push(7)?;
    assert_eq!(rt; items.len(), 1);
    assert!(rt; !items.is_empty());
    let mut again = Items::from_vec(items.into_vec());
    again.push(8)?;
    let copy = Items::from_slice(alloc, again.as_slice())?;
    assert_eq!(rt; copy.as_slice(), [7, 8].as_slice());
    Ok(())
}

// Each row has a word, and what it names.

const WORDS: &str = "\
ram Some(Ram)
m Some(Machine)
s Some(Supervisor)
u Some(User)
shared Some(Shared)
share None
 None";

const OPERATIONS: &str = "\
lui Some(Lui)
sfence_vma Some(SfenceVma)
illegal Some(Illegal)
sfence None
ram None";

const REGISTERS: &str = "\
sstatus Some(Sstatus)
mepc Some(Lazy(Mepc))
mhartid Some(Mhartid)
mie None";

#[test]
fn words_name_what_they_spell(rt: HostRuntime) -> Result<(), Fail> {
    for row in WORDS.split('\n') {
        let (word, want) = row.split_once(' ').ok_or("a word")?;
        let key: Option<Key> = key_of(word.as_bytes());
        let got = format!(in rt.alloc(); "{key:?}")?;
        assert_eq!(rt; got.as_str(), want, "at {row}");
    }
    Ok(())
}

#[test]
fn words_name_operations(rt: HostRuntime) -> Result<(), Fail> {
    for row in OPERATIONS.split('\n') {
        let (word, want) = row.split_once(' ').ok_or("a word")?;
        let op: Option<Op> = op_of(word.as_bytes());
        let got = format!(in rt.alloc(); "{op:?}")?;
        assert_eq!(rt; got.as_str(), want, "at {row}");
    }
    Ok(())
}

#[test]
fn words_name_registers(rt: HostRuntime) -> Result<(), Fail> {
    for row in REGISTERS.split('\n') {
        let (word, want) = row.split_once(' ').ok_or("a word")?;
        let register: Option<Register> = csr_of(word.as_bytes());
        let got = format!(in rt.alloc(); "{register:?}")?;
        assert_eq!(rt; got.as_str(), want, "at {row}");
    }
    Ok(())
}

#[test]
fn operations_have_their_numbers(rt: HostRuntime) {
    assert_eq!(rt; op_number(b"lui"), 0);
    assert_eq!(rt; op_number(b"illegal"), 57);
    language_laws();
    size_law();
}

/// A leaf on line 1 without atoms.
fn leaf(alloc: Global) -> Item {
    Item::Leaf {
        line: 1,
        wishes: Vec::new(alloc),
    }
}

fn single<T: Drop>(alloc: Global, item: T) -> Result<Vec<T>, AllocError> {
    let mut items = Vec::new(alloc);
    items.push(item)?;
    Ok(items)
}

fn repeat(alloc: Global, times: u32, item: Item) -> Result<Item, AllocError> {
    Ok(Item::Repeat {
        times,
        body: single(alloc, item)?,
    })
}

/// The length of a body of one item.
fn length_of(alloc: Global, item: Item) -> Result<u64, AllocError> {
    Ok(length(&single(alloc, item)?))
}

/// A choice of a sequence twice and of nothing.
fn choice(alloc: Global) -> Result<Item, AllocError> {
    let twice = repeat(alloc, 2, Item::Seq(single(alloc, leaf(alloc))?))?;
    let mut ways = single(alloc, (1, single(alloc, twice)?))?;
    ways.push((0, Vec::new(alloc)))?;
    Ok(Item::Choose { line: 2, ways })
}

#[test]
fn short_bodies_have_their_lengths(rt: HostRuntime) -> Result<(), Fail> {
    let alloc = rt.alloc();
    assert_eq!(rt; length(&[]), 0);
    assert_eq!(rt; length(&[leaf(alloc), Item::Label { name: 0 }]), 1);
    let empty = Item::Repeat {
        times: 3,
        body: Vec::new(alloc),
    };
    assert_eq!(rt; length_of(alloc, empty)?, 3);
    Ok(())
}

#[test]
fn a_choice_has_its_length(rt: HostRuntime) -> Result<(), Fail> {
    let alloc = rt.alloc();
    assert_eq!(rt; length(&[choice(alloc)?, leaf(alloc)]), 4);
    Ok(())
}

#[test]
fn the_greatest_length_is_told(rt: HostRuntime) -> Result<(), Fail> {
    let alloc = rt.alloc();
    let mut most = leaf(alloc);
    for _ in 0..3 {
        most = repeat(alloc, u32::MAX, most)?;
    }
    assert_eq!(rt; length_of(alloc, most)?, u64::MAX);
    Ok(())
}
