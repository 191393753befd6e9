//! Where over a time a contract is first another than is wanted.

ghost use Rattle.std.specs.Prelude.{◌≡◌};
ghost use Rattle.pd_expect.specs.OverTime.{IsFirstBreak, is_wanted};

use crate::Wanted;
use crate::contract::contract_at;
use crate::near::{Sign, nearest};
use pd_objects::Contract;
use pd_run::Runner;

/// An instant, in microseconds, at whose end a contract is another than is wanted, and the contract that stands there, if one does.
#[derive(Clone, Copy, Debug)]
pub struct Break {
    pub at: u64,
    pub stands: Option<Contract>,
}

impl Wanted {
    /// Whether what stands is as wanted.
    fn is_so(self, stands: Option<Contract>) -> bool
        ensures { result ≡ is_wanted self stands }
    {
        match (self, stands) {
            (Wanted::Nothing, stands) => stands.is_none(),
            (Wanted::Such { .. }, None) => false,
            (
                Wanted::Such {
                    voltage,
                    current,
                    least,
                },
                Some(contract),
            ) => {
                let (mv, ma) = (u64::from(contract.mv), u64::from(contract.ma));
                voltage.has(mv) && current.has(ma) && least <= mv * ma
            }
        }
    }
}

/// The first instant from one to another at whose end the contract of a port isn't as wanted, if there is one.
pub(crate) fn first_break<const N: usize, T: Runner<N>>(
    run: &T,
    port: u64,
    wanted: Wanted,
    from: u64,
    to: u64,
) -> Option<Break>
    ensures { IsFirstBreak port wanted (T.entries run.now) from to result }
{
    let mut at = from;
    while at <= to {
        let stands = contract_at(run, port, at);
        if !wanted.is_so(stands) {
            return Some(Break { at, stands });
        }
        match nearest(run, &Sign::Change { port }, 0, at).after {
            Some(next) => at = next,
            None => return None,
        }
    }
    None
}
