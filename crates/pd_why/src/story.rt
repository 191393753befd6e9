//! What is told of a port over a run.

ghost use Rattle.std.specs.Prelude.{◌≡◌, ℕ, ◌+◌, ◌<◌, ◌≤◌, ◌∷◌, ◌++◌, List, [], IfOk, OnOk, length, map};
ghost use Rattle.pd_objects.specs.Supply.{SupplyData};
ghost use Rattle.pd_why.specs.Facts.{contract_facts, detach_facts, fits_facts, hold_fact, later_facts, offer_facts, offers_in};
ghost use Rattle.pd_why.specs.Facts.{share_facts, supply_facts, wrong_facts};
ghost use Rattle.pd_why.specs.Story.{is_within};

use crate::bound::Bounds;
use crate::cable::how_known;
use crate::fact::Fact;
use crate::holder::Holder;
use crate::known::{Known, known_after, nothing, pulls_out};
use crate::look::{Look, Share};
use crate::question::Question;
use crate::request::push_started;
use pd_line::Fault;
use pd_objects::{Answer, Query, Supply};
use pd_port::{ContractChange, Entry};
use pd_source::State;
use std::alloc::{AllocError, Global};
use std::marker::Model;

/// What is told so far, what is known of the port, whether the last offer is one that is told, and the source's state at the time
/// that is asked for.
#[derive(Drop)]
pub(crate) struct Story {
    facts: Vec<Fact>,
    known: Known,
    telling: bool,
    state: State,
}

impl Model for Story {
    ghost use Rattle.pd_why.specs.Story.{StoryData};

    ghost Value = { StoryData };

    ghost view = { λ s. record { facts = s.facts.items; known = s.known; telling = s.telling; state = s.state } };
}

/// Writes what the other ports hold.
fn push_holds(facts: &mut Vec<Fact>, holders: &[Holder]) -> Result<(), AllocError>
    ensures { OnOk result (facts.new.items ≡ facts.old.items ++ map hold_fact holders.now) }
{
    for holder in holders {
        facts.push(Fact::Hold {
            port: holder.port,
            hold: holder.hold,
            maker: holder.maker,
        })?;
    }
    Ok(())
}

/// Writes how the budget is shared, and what is free to the port.
fn push_share(facts: &mut Vec<Fact>, look: &Look, share: &Share) -> Result<(), AllocError>
    ensures { OnOk result (facts.new.items ≡ facts.old.items ++ share_facts look.now share.now) }
{
    facts.push(Fact::Offer {
        at: look.entry.at,
        port: look.port,
        budget: share.budget,
    })?;
    push_holds(facts, share.others.as_slice())?;
    facts.push(Fact::Free {
        port: look.port,
        free: share.free,
        floor: look.floor,
    })?;
    Ok(())
}

/// Writes what bounds the supplies of an offer, from a position on.
fn push_supplies(
    facts: &mut Vec<Fact>,
    free: u64,
    limit_ma: u32,
    position: usize,
    supplies: &[Supply],
    currents: &[u32],
) -> Result<(), AllocError>
    requires { position + length supplies.now < 256 }
    ensures { OnOk result (facts.new.items ≡ facts.old.items ++ supply_facts free limit_ma position supplies.now currents.now) }
{
    let [supply, supplies @ ..] = supplies else {
        return Ok(());
    };
    let [ma, currents @ ..] = currents else {
        return Ok(());
    };
    facts.push(Fact::Supply {
        position,
        bounds: Bounds::new(free, limit_ma, supply, *ma),
    })?;
    push_supplies(facts, free, limit_ma, position + 1, supplies, currents)
}

/// Writes what bounds an offer.
fn push_offer(
    facts: &mut Vec<Fact>,
    look: &Look,
    known: &Known,
    supplies: &[Supply],
    limit_ma: u32,
    currents: &[u32],
    share: &Share,
) -> Result<(), AllocError>
    requires { length supplies.now ≤ 7 }
    ensures { OnOk result (facts.new.items ≡ facts.old.items
        ++ offer_facts look.now known.now supplies.now limit_ma currents.now share.now) }
{
    push_share(facts, look, share)?;
    facts.push(Fact::Cable {
        ma: limit_ma,
        known: how_known(look.tries, known.cable),
        tries: look.tries,
    })?;
    push_supplies(facts, share.free, limit_ma, 1, supplies, currents)
}

/// Writes whether the power of a request fits.
fn push_fits(facts: &mut Vec<Fact>, look: &Look) -> Result<(), AllocError>
    ensures { OnOk result (facts.new.items ≡ facts.old.items
        ++ fits_facts look.now.entry.at look.now.entry.query look.now.answer look.now.share) }
{
    let Some(Query::Fits { power }) = &look.entry.query else {
        return Ok(());
    };
    let Some(Answer::Fits(fits)) = &look.answer else {
        return Ok(());
    };
    let Some(share) = &look.share else {
        return Ok(());
    };
    facts.push(Fact::Fits {
        at: look.entry.at,
        power: *power,
        fits: *fits,
        free: share.free,
    })?;
    Ok(())
}

/// Writes what went wrong in a negotiation.
fn push_wrong(facts: &mut Vec<Fact>, at: u64, faults: &[Fault]) -> Result<(), AllocError>
    ensures { OnOk result (facts.new.items ≡ facts.old.items ++ wrong_facts at faults.now) }
{
    let [fault, faults @ ..] = faults else {
        return Ok(());
    };
    match fault {
        Fault::Ignored { id: _ } | Fault::Mismatch | Fault::CableUnread => {}
        _ => facts.push(Fact::Wrong { at, fault: *fault })?,
    }
    push_wrong(facts, at, faults)
}

/// Writes what became of the contract.
fn push_change(
    facts: &mut Vec<Fact>,
    at: u64,
    change: &Option<ContractChange>,
) -> Result<(), AllocError>
    ensures { OnOk result (facts.new.items ≡ facts.old.items ++ contract_facts at change.now) }
{
    let Some(change) = change else {
        return Ok(());
    };
    facts.push(Fact::Contract {
        at,
        change: *change,
    })?;
    Ok(())
}

/// Writes that the cable is pulled out, where it is.
fn push_detach(facts: &mut Vec<Fact>, entry: &Entry) -> Result<(), AllocError>
    ensures { OnOk result (facts.new.items ≡ facts.old.items ++ detach_facts entry.now) }
{
    if pulls_out(entry) {
        facts.push(Fact::Detached { at: entry.at })?;
    }
    Ok(())
}

/// Writes what comes of an offer.
fn push_later(facts: &mut Vec<Fact>, look: &Look, known: &Known) -> Result<(), AllocError>
    ensures { OnOk result (facts.new.items ≡ facts.old.items ++ later_facts look.now known.now) }
{
    let entry = &look.entry;
    push_fits(facts, look)?;
    push_wrong(facts, entry.at, entry.faults.as_slice())?;
    push_change(facts, entry.at, &entry.contract)?;
    push_detach(facts, entry)?;
    push_started(facts, entry.at, look.again, &known.wish, &entry.start)
}

/// Whether a time is no later than the one that is asked for, if one is.
fn is_within(to: Option<u64>, at: u64) -> bool
    ensures { result ≡ is_within to at }
{
    match to {
        None => true,
        Some(to) => at <= to,
    }
}

fn offers_in(state: State) -> bool
    ensures { result ≡ offers_in state }
{
    matches!(state, State::SendCapabilities)
}

impl Story {
    ghost use Rattle.pd_why.specs.Story.{heard, no_story, step, told, with_known, with_later, with_move, with_offer};

    /// Nothing is told.
    pub(crate) fn new(alloc: Global) -> Story
        ensures { result ≡ no_story }
    {
        Story {
            facts: Vec::new(alloc),
            known: nothing(),
            telling: false,
            state: State::Off,
        }
    }

    /// With what is known after one more move.
    fn notice(self, question: &Question, look: &Look) -> Story
        ensures { result ≡ with_known question.now look.now self }
    {
        Story {
            facts: self.facts,
            known: known_after(look, self.known),
            telling: self.telling,
            state: if is_within(question.to, look.entry.at) {
                look.after
            } else {
                self.state
            },
        }
    }

    /// One more offer.
    fn tell_offer(
        &mut self,
        question: &Question,
        look: &Look,
        supplies: &[Supply],
        limit_ma: u32,
        currents: &[u32],
        share: &Share,
    ) -> Result<(), AllocError>
        requires { length supplies.now ≤ 7 }
        ensures { OnOk result (self.new ≡ with_offer question.now look.now self.old
            (offer_facts look.now self.old.known supplies.now limit_ma currents.now share.now)) }
    {
        if !is_within(question.to, look.entry.at) {
            self.telling = false;
            return Ok(());
        }
        if question.to.is_none() {
            self.facts.clear();
        }
        self.telling = true;
        push_offer(
            &mut self.facts,
            look,
            &self.known,
            supplies,
            limit_ma,
            currents,
            share,
        )
    }

    /// One more move that makes no offer.
    fn tell_later(&mut self, look: &Look) -> Result<(), AllocError>
        ensures { OnOk result (self.new ≡ with_later look.now self.old) }
    {
        if !self.telling {
            return Ok(());
        }
        push_later(&mut self.facts, look, &self.known)
    }

    /// One more move, of which all is known.
    fn tell(&mut self, question: &Question, look: &Look) -> Result<(), AllocError>
        ensures { OnOk result (self.new
            ≡ with_move question.now look.now look.now.entry.query look.now.answer look.now.share self.old) }
    {
        match (&look.entry.query, &look.answer, &look.share) {
            (Some(Query::Offer { supplies, limit_ma }), Some(Answer::Offer(currents)), Some(share))
                if offers_in(look.after) => self.tell_offer(
                question,
                look,
                supplies.as_slice(),
                *limit_ma,
                currents.as_slice(),
                share,
            ),
            _ => self.tell_later(look),
        }
    }

    /// One more move of the port.
    #[tactic(auto, unfolding(crate::specs::Story::step))]
    fn with(self, question: &Question, look: &Look) -> Result<Story, AllocError>
        ensures { IfOk result (λ story. story ≡ step question.now look.now self) }
    {
        let mut story = self.notice(question, look);
        story.tell(question, look)?;
        Ok(story)
    }

    /// One more move, of the port or of another.
    ///
    /// # Errors
    /// There is no memory.
    pub(crate) fn hear(self, question: &Question, look: &Look) -> Result<Story, AllocError>
        ensures { IfOk result (λ story. story ≡ heard question.now look.now self) }
    {
        if look.port == question.port {
            return self.with(question, look);
        }
        Ok(self)
    }

    /// All that is told: where no offer is, that.
    ///
    /// # Errors
    /// There is no memory.
    pub(crate) fn end(self, question: &Question) -> Result<Vec<Fact>, AllocError>
        ensures { IfOk result (λ facts. facts.items ≡ told question.now self) }
    {
        let mut facts = self.facts;
        if facts.is_empty() {
            facts.push(Fact::NoOffer {
                port: question.port,
                to: question.to,
                state: self.state,
            })?;
        }
        Ok(facts)
    }
}
