//! The shared budget of ports whose moves are known.

ghost use Rattle.std.specs.Prelude.{◌≡◌, ◌-◌, ◌≤◌, ◌↔◌, ◌++◌, ◌∷◌, [], List, IfOk, IsTrue, length, option_map};
ghost use Rattle.pd_ledger.specs.Offer.{answer_of};
ghost use Rattle.pd_run.specs.Held.{AreHeld, HoldsOn};
ghost use Rattle.pd_run.specs.Run.{Move, IsAnswered};
ghost use Rattle.pd_run.specs.UpTo.{AreAfter};

use crate::live::holds_of;
use crate::{Plan, SharedPort};
use pd_ledger::Ledger;
use pd_objects::{Answer, Query};
use pd_port::Entry;
use std::alloc::{AllocError, Global};
use std::marker::Model;

/// What N ports, 1 to 8, hold of the shared budget, where their moves are known and it is asked only whether these are answered
/// alike. Ports are numbered from 1.
#[derive(Drop)]
pub struct SharedBudget<const N: usize> {
    ledger: Ledger<N>,
}

impl<const N: usize> Model for SharedBudget<N> {
    ghost use Rattle.pd_ledger.specs.Account.{Account};

    ghost Value = { Account };

    ghost view = { λ s. s.ledger };
}

impl<const N: usize> SharedBudget<N> {
    /// What these ports hold.
    ///
    /// # Errors
    /// There is no memory.
    pub fn of_ports(
        alloc: Global,
        plan: &Plan<N>,
        ports: &[SharedPort],
    ) -> Result<SharedBudget<N>, AllocError>
        requires { length ports.now ≡ N }
        ensures { IfOk result (λ shared. (past : List Move) → AreAfter plan.now past ports.now → AreHeld plan.now past shared) }
    {
        let budget = plan.budget();
        let floors = plan.floors(alloc)?;
        let holds = holds_of(alloc, ports, floors.as_slice())?;
        Ok(SharedBudget {
            ledger: Ledger::with_holds(budget, floors.as_slice(), holds.as_slice()),
        })
    }

    /// Whether a port's move, which left this entry and after which the port holds so much, in microwatts, has the answer that
    /// the shared budget gives at its time. If it has, the port holds this from now on.
    pub fn answers(
        &mut self,
        plan: &Plan<N>,
        port: usize,
        entry: &Entry,
        answer: &Option<Answer>,
        left: u64,
    ) -> bool
        requires { (past : List Move) × (m : Move) × HoldsOn plan.now past self.old m port entry.now answer.now left }
        ensures answered { (past : List Move) (m : Move) → HoldsOn plan.now past self.old m port entry.now answer.now left
            → (IsTrue result ↔ IsAnswered plan.now past m) }
        ensures held { IsTrue result → (past : List Move) (m : Move)
            → HoldsOn plan.now past self.old m port entry.now answer.now left → AreHeld plan.now (past ++ m ∷ []) self.new }
    {
        let budget = plan.force(entry.due.time);
        self.ledger.set_budget(budget);
        let given = gives(&self.ledger, port, &entry.query, answer);
        if given {
            self.ledger.set_hold(port, left);
        }
        given
    }
}

// Whether the ledger answers this to a query, and there is no answer where there is no query.
pub(crate) fn gives<const N: usize>(
    ledger: &Ledger<N>,
    port: usize,
    query: &Option<Query>,
    answer: &Option<Answer>,
) -> bool
    requires first { 1 ≤ port }
    requires last { port ≤ N }
    ensures { IsTrue result ↔ (answer.now ≡ option_map (answer_of ledger.now (port - 1)) query.now) }
{
    match (query, answer) {
        (None, None) => true,
        (Some(query), Some(answer)) => ledger.answers(port, query, answer),
        _ => false,
    }
}
