//! The rows of the plug's state table.

ghost use Rattle.std.specs.Prelude.{◌≡◌, ◌≤◌, length};
ghost use Rattle.pd_plug.specs.Table.{row_of, deeds_of_row};
ghost use Rattle.pd_plug.specs.Facts.{told};

use crate::kinds::{Deed, Facts};
use crate::{State, Stimulus};
use pd_timers::Timer;

/// The column of states: some, or all but Off.
macro_rules! states {
    (all_but(Off)) => { State::Ready | State::GetIdentity | State::SendIdentity };
    ($($state:ident)|+) => { $(State::$state)|+ };
}

/// What a row does, by its columns of the next state and of acts.
macro_rules! deeds {
    (stay [$($deed:expr),*]) => { &[$($deed),*] };
    (to ($to:ident) [$($deed:expr),*]) => { &[Deed::Enter(State::$to), $($deed),*] };
}

/// The first row that fits, tried in order: what it does, and nothing where none fits.
macro_rules! rows {
    ($state:ident, $stimulus:ident, $facts:ident; each $($any:ident)|+;
    $($number:ident: $($s:ident $(($($but:ident)|+))?)|+, $c:pat $(if $guard:ident)?
        => $next:ident $(($to:ident))? [$($deed:expr),*];)*) => {
        match ($state, $stimulus) {
            $((states!($($s $(($($but)|+))?)|+), $c) $(if $facts.$guard)? => deeds!($next $(($to))? [$($deed),*]),)*
            $((State::$any, _) => &[],)+
        }
    };
}

/// The names of the rows, in order.
#[cfg(test)]
macro_rules! names {
    (each $($any:ident)|+;
    $($number:ident: $($s:ident $(($($but:ident)|+))?)|+, $c:pat $(if $guard:ident)?
        => $next:ident $(($to:ident))? [$($deed:expr),*];)*) => {
        [$(stringify!($number)),*]
    };
}

/// The table, handed to a macro that reads it.
macro_rules! table {
    ($read:ident $($before:tt)*) => {
        $read! {
            $($before)*
            each Off | Ready | GetIdentity | SendIdentity;
            // Off
            C1: Off, Stimulus::Attach(_) if without_plug => stay [];
            C2: Off, Stimulus::Attach(_) => to(Ready) [];
            // all states but Off: PE_CBL_Ready, PE_CBL_Get_Identity and PE_CBL_Send_Identity
            C3: all_but(Off), Stimulus::DiscoverIdentity if silent => stay [];
            C4: all_but(Off), Stimulus::DiscoverIdentity => to(GetIdentity) [Deed::StartDelay];
            // PE_CBL_Get_Identity
            C5: GetIdentity, Stimulus::Ended(Timer::Delay) => to(SendIdentity) [Deed::SendIdentity];
            // PE_CBL_Send_Identity
            C6: SendIdentity, Stimulus::Sent | Stimulus::Failed => to(Ready) [];
            // all states but Off
            C7: all_but(Off), Stimulus::HardReset => to(Ready) [];
        }
    };
}

/// What the first row that fits does.
#[tactic(auto, unfolding(crate::specs::Table::row_of))]
pub(crate) fn choose(state: State, stimulus: Stimulus, facts: Facts) -> &'static [Deed]
    ensures deeds { result.now ≡ deeds_of_row (row_of (told facts) state stimulus) }
    ensures few { length result.now ≤ 6 }
{
    table!(rows state, stimulus, facts;)
}

/// Each row's number is its place.
#[cfg(test)]
#[test]
fn rows_are_numbered(rt: HostRuntime) {
    for (place, name) in table!(names).iter().enumerate() {
        let number = place.wrapping_add(1);
        assert_eq!(rt;
            *name,
            format!(in rt.alloc(); "C{number}")
                .expect(&rt, "memory for a name")
                .as_str()
        );
    }
}
