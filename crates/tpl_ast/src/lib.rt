//! Templates as data: what a template says of memory, names and harts, the bodies of harts with their items, leaves and
//! atoms, the limits of the language and of the file, how many records a body has, and what it is expanded to.
#![tactic(auto)]

mod items;
mod laws;
mod lengths;
mod limits;
mod template;

pub use items::Items;
pub use laws::{expansion_law, length_laws, size_law};
pub use lengths::length;
pub use limits::{
    LAST_END, MAX_ACCESSES, MAX_ATOMS, MAX_BLOCKS, MAX_CHOICES, MAX_DROPPED, MAX_ELEMENTS,
    MAX_FILE, MAX_FLAGS, MAX_HARTS, MAX_MEMORY, MAX_NAME, MAX_NAMES, MAX_POOL, MAX_RECORDS,
    MAX_REGIONS, MAX_SETS, MAX_STEPS, MAX_TABLES, MAX_TEXT, MAX_TIMES, MAX_WAYS, MAX_WEIGHT,
    MAX_WORDS, TEXT_ROOM,
};
pub use template::{Atom, HartDecl, HartState, Item, NameDecl, Region, Template, Var, Wish};
