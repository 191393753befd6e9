//! Where texts are saved, and read.

ghost use Rattle.std.specs.Prelude.{IfOk};
ghost use Rattle.pd_desk.specs.Shelf.{Ended, Holds, Shelved};

use std::alloc::Global;

/// Why a text isn't put on a shelf, or taken from it.
#[derive(Clone, Copy, Debug, PartialEq, Eq)]
pub enum ShelfFault {
    /// Something stands there under its name, and is to stay.
    Stands,
    /// It can't be put there, or read.
    Failed,
}

/// Where texts are put, each under a name.
pub trait Shelf {
    // what is known of it
    ghost known: { Self → Shelved };

    /// Puts a whole text under a name: where nothing stands there, or in the place of what does.
    ///
    /// # Errors
    /// It isn't put there, and what stands there stays.
    fn put(&mut self, name: &[u8], text: &[u8], is_over: bool) -> Result<(), ShelfFault>
        ensures { Ended (known self.old) (known self.new) name.now text.now is_over result };

    /// The whole text that stands there under a name.
    ///
    /// # Errors
    /// `Failed` where it can't be read, for want of memory too.
    fn get(&self, alloc: Global, name: &[u8]) -> Result<Vec<u8>, ShelfFault>
        ensures { IfOk result (λ text. Holds (known self.now).kept name.now text.items) };
}
