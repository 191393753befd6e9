//! What holds of slips, and of the sentences. The laws run nothing.

ghost use Rattle.std.specs.Prelude.{◌≡◌, ℕ, List, true};
ghost use Rattle.pd_hints.specs.ReasonLaws.{EachHasAReason};
ghost use Rattle.pd_hints.specs.Slips.{IsSlip, is_slip};

/// Where a word is told to be a slip of another, one letter is another one, left out or too many, or two neighbours are swapped.
pub fn slips_are_slips()
    ensures { (word other : List ℕ) → is_slip word other ≡ true → IsSlip word other }
{}

/// The number of each refusal, of a file or a line, and of each fault of a session has a sentence.
pub fn each_has_a_reason()
    ensures { EachHasAReason }
{}
