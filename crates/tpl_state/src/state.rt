// What the lines so far have said.
ghost use Rattle.std.specs.Prelude.{◌≡◌, ◌≤◌, length, true};
ghost use Rattle.tpl_ast.specs.Limits.{most_names};
ghost use Rattle.tpl_state.specs.Internal.Ordered.{is_ascending};

use crate::body::Growing;
use crate::names::Names;
use crate::place::Place;
use crate::sets::Sets;
use dom_set::Set;
use rv_csr::Priv;
use tpl_ast::{HartDecl, Region};

/// What the lines so far have said.
#[derive(Drop)]
pub struct State {
    /// What may come next.
    pub place: Place,
    /// The regions of memory.
    pub ram: Vec<Region>,
    /// The addresses of the frames of the pool.
    pub pool: Vec<u32>,
    /// The addresses of the frames for page tables.
    pub tables: Vec<u32>,
    /// The flag bytes of page table entries.
    pub flags: Vec<u8>,
    /// The addresses that vectors may have, where they are given.
    pub vectors: Option<Set>,
    /// The sets that are declared.
    pub sets: Sets,
    /// The names and labels that are declared.
    pub names: Names,
    /// The started words by ascending address.
    pub words: Vec<(u32, u32)>,
    /// The harts that are ended.
    pub harts: Vec<HartDecl>,
    /// The length of all harts that are ended, in records, or 2^64 - 1 if it is more.
    pub total: u64,
    /// The pc of the hart that is open.
    pub pc: u32,
    /// Its privilege.
    pub privilege: Priv,
    /// Its CSRs and registers, by ascending key.
    pub given: Vec<(u32, u32)>,
    /// Its body.
    pub body: Growing,
    ghost few: { length names ≤ most_names },
    ghost words_ascend: { is_ascending words.items ≡ true },
    ghost given_ascends: { is_ascending given.items ≡ true },
}
