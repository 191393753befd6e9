//! What holds of runs with losses by lot, and of what many of them come to. It runs nothing.

ghost use Rattle.pd_noise.specs.Laws.{LossesAreInThePlan, NoisyRunsAreOne, SpreadsAreOfTheNumbers};

/// The plan of a run with losses by lot is that of the scenario with these losses put in, one after the other.
pub fn losses_are_in_the_plan()
    ensures { LossesAreInThePlan }
{}

/// What is lost in a run is a function of the scenario, what may be lost, and the seed with the run's number.
pub fn noisy_runs_are_one()
    ensures { NoisyRunsAreOne }
{}

/// Each of the four order statistics is one of the numbers, and they rise.
pub fn spreads_are_of_the_numbers()
    ensures { SpreadsAreOfTheNumbers }
{}
