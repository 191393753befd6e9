//! What a caller chooses, from numbers.

ghost use Rattle.std.specs.Prelude.{◌≡◌};
ghost use Rattle.pd_page.specs.Choices.{port_of};

/// The port that is chosen: 0 stands for all of them.
pub(crate) fn port_of(number: u32) -> Option<usize>
    ensures { result ≡ port_of number }
{
    if number == 0 {
        None
    } else {
        Some(number as usize)
    }
}
