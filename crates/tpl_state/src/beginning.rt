// What is known before the first line.
ghost use Rattle.std.specs.Prelude.{◌≡◌};
ghost use Rattle.tpl_lang.specs.Known.{nothing};
ghost use Rattle.tpl_state.specs.Internal.State.{known};

use crate::body::Growing;
use crate::names::Names;
use crate::place::Place;
use crate::sets::Sets;
use crate::state::State;
use rv_csr::Priv;
use std::alloc::Global;

impl State {
    /// Before the first line.
    pub fn new(alloc: Global) -> State
        ensures { known result ≡ nothing }
    {
        State {
            place: Place::Head,
            ram: Vec::new(alloc),
            pool: Vec::new(alloc),
            tables: Vec::new(alloc),
            flags: Vec::new(alloc),
            vectors: None,
            sets: Sets::new(alloc),
            names: Names::new(alloc),
            words: Vec::new(alloc),
            harts: Vec::new(alloc),
            total: 0,
            pc: 0,
            privilege: Priv::M,
            given: Vec::new(alloc),
            body: Growing::new(alloc),
        }
    }
}
