//! What is spare of runs that nobody has any more, in whose room later ones are put: that is sooner done than asking for memory again.

ghost use Rattle.std.specs.Prelude.{◌≡◌, []};

use crate::kept_move::{Brief, KeptMove, Place};
use pd_run::{Marks, SpareSteps};
use std::alloc::Global;
use std::mem;

/// The lists of a span that no run has any more.
#[derive(Drop)]
pub struct SpareLists {
    pub moves: Vec<KeptMove>,
    pub marks: Vec<Marks>,
    pub links: Vec<Place>,
    pub briefs: Vec<Brief>,
}

impl SpareLists {
    /// Lists that have no room yet.
    pub fn new(alloc: Global) -> SpareLists
        ensures moves { result.moves.items ≡ [] }
        ensures marks { result.marks.items ≡ [] }
        ensures links { result.links.items ≡ [] }
        ensures briefs { result.briefs.items ≡ [] }
    {
        SpareLists {
            moves: Vec::new(alloc),
            marks: Vec::new(alloc),
            links: Vec::new(alloc),
            briefs: Vec::new(alloc),
        }
    }
}

/// Steps and lists that are spare.
#[derive(Drop)]
pub struct Spare {
    pub steps: SpareSteps,
    pub lists: Vec<SpareLists>,
}

impl Spare {
    /// None yet.
    pub fn new(alloc: Global) -> Spare
        ensures steps { result.steps ≡ 0 }
        ensures lists { result.lists.items ≡ [] }
    {
        Spare {
            steps: SpareSteps::new(alloc),
            lists: Vec::new(alloc),
        }
    }

    /// All lists that are spare, which are none here from now on.
    pub fn take_lists(&mut self, alloc: Global) -> Vec<SpareLists>
        ensures all { result ≡ self.old.lists }
        ensures none { self.new.lists.items ≡ [] }
        ensures steps { self.new.steps ≡ self.old.steps }
    {
        mem::replace(&mut self.lists, Vec::new(alloc))
    }
}
