//! What holds of the offers and answers that the definitions give.

ghost use Rattle.pd_ledger.specs.Laws.{AnswersAreAllowed, FreeHoldsFit, OffersAreGreatest, OffersAreSome};

/// What a ledger answers is allowed by the power that is free.
pub fn answers_are_allowed()
    ensures { AnswersAreAllowed }
{}

/// An offered current is the greatest multiple of 10 mA that its supply, the cable and the free power allow.
pub fn offers_are_greatest()
    ensures { OffersAreGreatest }
{}

/// Half a watt is enough to offer 10 mA or more on each supply.
pub fn offers_are_some()
    ensures { OffersAreSome }
{}

/// A hold that grows to no more than is free leaves all holds within the budget.
pub fn free_holds_fit()
    ensures { FreeHoldsFit }
{}
