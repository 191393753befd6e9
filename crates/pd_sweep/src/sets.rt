//! Packets that are lost in one run.

ghost use Rattle.std.specs.Prelude.{◌≡◌, ℕ, ◌≤◌, ◌<◌, ◌++◌, IfOk, OnOk, length, map, reverse};
ghost use Rattle.std.specs.List.{AllByRecursion};
ghost use Rattle.pd_scenario.specs.Plan.{script_of};
ghost use Rattle.pd_sweep.specs.declared.sets.Packets.TheVariants.{One};
ghost use Rattle.pd_sweep.specs.Sets.{AreOfRun, count_of, first_of, further, is_behind, last_of, losing, members, with_one};

use crate::{Campaign, Target, chosen, lost};
use pd_run::{Plan, Runner};
use std::alloc::{AllocError, Global};

/// Packets that are lost in one run: one, or up to three in the order in which they start.
#[derive(Clone, Copy, Debug)]
pub enum Packets {
    One(Target),
    Two(Target, Target),
    Three(Target, Target, Target),
}

impl Packets {
    /// The first of them.
    pub fn first(&self) -> Target
        ensures { result ≡ first_of self.now }
    {
        match self {
            Packets::One(first) | Packets::Two(first, _) | Packets::Three(first, _, _) => *first,
        }
    }

    /// The last of them.
    pub fn last(&self) -> Target
        ensures { result ≡ last_of self.now }
    {
        match self {
            Packets::One(last) | Packets::Two(_, last) | Packets::Three(_, _, last) => *last,
        }
    }

    /// How many they are.
    pub fn count(&self) -> u8
        ensures { result ≡ count_of self.now }
    {
        match self {
            Packets::One(_) => 1,
            Packets::Two(..) => 2,
            Packets::Three(..) => 3,
        }
    }

    /// Them and one that starts behind them, where there are fewer than three.
    fn with_one(&self, target: Target) -> Packets
        ensures { result ≡ with_one self.now target }
    {
        match self {
            Packets::One(first) => Packets::Two(*first, target),
            Packets::Two(first, second) => Packets::Three(*first, *second, target),
            Packets::Three(..) => *self,
        }
    }
}

/// Whether a packet starts behind another.
fn is_behind(target: &Target, other: &Target) -> bool
    ensures { result ≡ is_behind target.now other.now }
{
    target.at < other.at || (target.at == other.at && target.port < other.port)
}

/// The sets that have one packet more than some: of the packets that are chosen of the run in which these are lost, for which the runner
/// stands, and behind them.
pub(crate) fn further<const N: usize, T: Runner<N>>(
    alloc: Global,
    run: &T,
    campaign: &Campaign,
    packets: &Packets,
) -> Result<Vec<Packets>, AllocError>
    requires known { AreOfRun N packets.now }
    ensures sets { IfOk result (λ v. v.items ≡ further campaign.now packets.now (T.entries run.now)) }
    ensures known { IfOk result (λ v. AllByRecursion (AreOfRun N) v.items) }
{
    let targets = chosen(alloc, run, &campaign.choice)?;
    let last = packets.last();
    let mut sets = Vec::new(alloc);
    for target in targets.as_slice() {
        if is_behind(&last, target) {
            sets.push(packets.with_one(*target))?;
        }
    }
    Ok(sets)
}

/// Packets, each alone.
pub(crate) fn alone(alloc: Global, targets: &[Target]) -> Result<Vec<Packets>, AllocError>
    ensures { IfOk result (λ v. v.items ≡ map One targets.now) }
{
    let mut sets = Vec::new(alloc);
    for target in targets {
        sets.push(Packets::One(*target))?;
    }
    Ok(sets)
}

/// Sets wait that are to be tried before those that wait already. They wait with the first of them last.
pub(crate) fn wait(waiting: &mut Vec<Packets>, sets: Vec<Packets>) -> Result<(), AllocError>
    ensures { OnOk result (reverse waiting.new.items ≡ sets.items ++ reverse waiting.old.items) }
{
    let mut sets = sets;
    sets.reverse();
    waiting.extend_from_slice(&sets)
}

/// The plan in which packets are lost.
///
/// # Errors
/// There is no memory.
pub(crate) fn losing<const N: usize>(
    alloc: Global,
    plan: &Plan<N>,
    campaign: &Campaign,
    packets: &Packets,
) -> Result<Plan<N>, AllocError>
    requires known { AreOfRun N packets.now }
    requires few { (p : ℕ) → p < N → (p < length plan.now.scripts) × (length (script_of plan.now p) ≤ 4096) }
    ensures { IfOk result (λ changed. changed ≡ losing plan.now campaign.now (members packets.now)) }
{
    let (loss, behind) = (campaign.loss, u64::from(campaign.behind));
    match packets {
        Packets::One(first) => lost(alloc, plan, loss, behind, first),
        Packets::Two(first, second) => {
            let one = lost(alloc, plan, loss, behind, first)?;
            lost(alloc, &one, loss, behind, second)
        }
        Packets::Three(first, second, third) => {
            let one = lost(alloc, plan, loss, behind, first)?;
            let two = lost(alloc, &one, loss, behind, second)?;
            lost(alloc, &two, loss, behind, third)
        }
    }
}
