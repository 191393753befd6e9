//! What is said of the codes of a line.

ghost use Rattle.std.specs.Prelude.{◌≡◌};
ghost use Rattle.pd_log.specs.Forms.{mark_of};

/// What became of a packet on the line.
#[derive(Clone, Copy, Debug, PartialEq, Eq)]
pub enum Mark {
    /// Nothing is said.
    Whole,
    /// It reached nobody.
    Lost,
    /// One of its codes is changed.
    Damaged,
}

/// The mark that a part is.
pub(crate) fn mark_of(part: &[u8]) -> Option<Mark>
    ensures { result ≡ mark_of part.now }
{
    if part == b"lost".as_slice() {
        return Some(Mark::Lost);
    }
    if part == b"damaged".as_slice() {
        return Some(Mark::Damaged);
    }
    None
}
