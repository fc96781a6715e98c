// What rows are made from beside memory's words.
ghost use Rattle.std.specs.Prelude.{◌≡◌, ◌==◌, ℕ, ◌≤◌, IfOk};
ghost use Rattle.addr_rows.specs.Combinations.{is_table, root_frame};
ghost use Rattle.addr_rows.specs.Scenes.{setting_of, setting_with, AreKept};

use crate::second_entries::SecondEntries;
use dom_set::OutOfMemory;
use row_parts::{Forms, Group, grouped};
use rv_mem::Ram;
use std::alloc::Global;
use sv_walk::{Kind, View};

/// What rows are made from beside memory's words.
#[derive(Drop)]
pub struct Scene {
    pub ram: Ram,
    pub view: View,
    pub kind: Kind,
    /// The frames in which new entries may stand.
    pub tables: Vec<u32>,
    /// What new root entries may be.
    pub firsts: Vec<u32>,
    /// What new second entries may be, by where they lead.
    pub seconds: Vec<Group>,
}

impl Scene {
    /// What rows are made from, in memory of its own.
    pub fn new(
        alloc: Global,
        ram: &Ram,
        v: View,
        kind: Kind,
        forms: &Forms,
    ) -> Result<Scene, OutOfMemory>
        ensures setting { IfOk result (λ s. setting_of s ≡ setting_with ram.now v kind forms.now) }
        ensures kept { IfOk result AreKept }
    {
        let tables = Vec::from_slice(alloc, &forms.tables)?;
        let firsts = forms.firsts(alloc)?;
        let values = forms.seconds(alloc)?;
        let choice = SecondEntries { ram, view: v, kind };
        let seconds = grouped(alloc, &choice, values)?;
        let regions = Vec::from_slice(alloc, ram.as_slice())?;
        Ok(Scene {
            ram: Ram::new(regions),
            view: v,
            kind,
            tables,
            firsts,
            seconds,
        })
    }

    /// Whether new entries may stand in a frame.
    pub fn is_table(&self, frame: u32) -> bool
        ensures { result ≡ is_table self.now.tables.items frame }
    {
        self.tables.iter().any(|t| *t / 4096 == frame)
    }

    /// The frame of the root table.
    pub fn root_frame(&self) -> u32
        ensures { result ≡ root_frame self.now.view }
    {
        self.view.satp % 0x40_0000
    }
}
