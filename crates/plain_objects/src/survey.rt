//! What names objects in a state, and which objects are reached.

ghost use Rattle.std.specs.Prelude.{◌≡◌, ◌≤◌, IfOk, length};
ghost use Rattle.kernel_types.specs.Names.{naming};
ghost use Rattle.kernel_types.specs.Reach.{reached_by};

use crate::name_counts::count_naming;
use crate::names::{Naming, list_names};
use crate::reach::mark_reached;
use kernel_values::{CoreState, NoMemory};
use std::marker::Model;

/// The entries of a state that name objects, and marks of the objects that they reach. The lists are
/// written within the room that they were made with, which takes no memory.
#[derive(Debug, Drop)]
pub struct Survey {
    names: Vec<Naming>,
    marked: Vec<u64>,
    more: Vec<u64>,
}

impl Model for Survey {
    ghost use Rattle.std.specs.Prelude.{min, vec_capacity};
    ghost use Rattle.plain_objects.specs.Surveys.{Surveyed};

    ghost Value = { Surveyed };

    ghost view = { λ s. record {
      names = s.names.items;
      marked = s.marked.items;
      room = min (vec_capacity s.names) (min (vec_capacity s.marked) (vec_capacity s.more));
    } };
}

impl Survey {
    /// The entries of a state, with room for as many marks.
    pub fn of(core: &CoreState) -> Result<Survey, NoMemory>
        ensures names { IfOk result (λ survey. survey.names ≡ naming core.now) }
        ensures room { IfOk result (λ survey. length (naming core.now) ≤ survey.room) }
    {
        let alloc = core.apps.allocator();
        let count = count_naming(core)?;
        let mut names = Vec::with_capacity(alloc, count)?;
        let marked = Vec::with_capacity(alloc, count)?;
        let more = Vec::with_capacity(alloc, count)?;
        list_names(&mut names, core);
        Ok(Survey {
            names,
            marked,
            more,
        })
    }

    /// The entries that name objects.
    pub fn names(&self) -> &[Naming]
        ensures { result.now ≡ self.now.names }
    {
        self.names.as_slice()
    }

    /// The numbers of the marked objects.
    pub fn marked(&self) -> &[u64]
        ensures { result.now ≡ self.now.marked }
    {
        self.marked.as_slice()
    }

    /// Lists the entries of another state, of which there are no more than there is room for.
    pub fn list(&mut self, core: &CoreState)
        requires { length (naming core.now) ≤ self.old.room }
        ensures names { self.new.names ≡ naming core.now }
        ensures room { self.new.room ≡ self.old.room }
    {
        list_names(&mut self.names, core);
    }

    /// Marks what the entries reach.
    pub fn mark(&mut self)
        requires { length self.old.names ≤ self.old.room }
        ensures names { self.new.names ≡ self.old.names }
        ensures marks { self.new.marked ≡ reached_by self.old.names }
        ensures room { self.new.room ≡ self.old.room }
    {
        mark_reached(self.names.as_slice(), &mut self.marked, &mut self.more);
    }
}
