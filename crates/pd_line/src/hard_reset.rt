//! N5: what the end of a Hard Reset does to a port. `t` is the time of the step, in microseconds.

ghost use Rattle.std.specs.Prelude.{◌≡◌, ℕ, ◌+◌, ◌≤◌, length};

use crate::port_parts::Waiting;
use crate::port_step::PortStep;
use pd_header::Side;
use pd_source::Sent;
use pd_symbols::Channel;
use pd_timers::LAST_TIME;

impl PortStep {
    ghost use Rattle.pd_line.specs.Noise.{most_besides};
    ghost use Rattle.pd_line.specs.Lines.{waiting_dropped, layers_reset, hears_reset, all_hear_reset, hard_reset_ends};

    /// Drops all that waits.
    #[tactic(auto, unfolding(crate::specs::Lines::waiting_dropped))]
    fn drop_waiting(&mut self)
        ensures after { self.new ≡ waiting_dropped self.old }
        ensures faults { self.new.faults ≡ self.old.faults }
    {
        self.wait(Side::Source, Waiting::Nothing);
        self.wait(Side::Sink, Waiting::Nothing);
        self.wait(Side::Plug, Waiting::Nothing);
    }

    /// Resets all layers.
    #[tactic(auto, unfolding(crate::specs::Lines::layers_reset))]
    fn reset_layers(&mut self)
        ensures after { self.new ≡ layers_reset self.old }
        ensures faults { self.new.faults ≡ self.old.faults }
    {
        self.reset_on(Side::Source, Channel::Sop);
        self.reset_on(Side::Sink, Channel::Sop);
        self.reset_on(Side::Source, Channel::SopPrime);
        self.reset_on(Side::Plug, Channel::SopPrime);
    }

    /// A side that hears, and isn't the sender, gets a Hard Reset.
    #[tactic(auto, unfolding(crate::specs::Lines::hears_reset))]
    fn hear_reset(&mut self, sender: Side, side: Side, t: u64)
        requires time { t ≤ LAST_TIME }
        requires room { length self.old.faults.items + most_besides sender side ≤ 4 }
        ensures after { self.new ≡ hears_reset sender side t self.old }
        ensures faults { length self.new.faults.items ≤ length self.old.faults.items + most_besides sender side }
    {
        if side != sender && self.hears(side) {
            self.tell_reset(side, t);
        }
    }

    /// A Hard Reset has ended, for the engines: the sender's, and then each other that hears, in the order source, sink, plug.
    #[tactic(auto, using(crate::proofs::Noise::three_at_most), unfolding(crate::specs::Lines::all_hear_reset))]
    fn all_hear_reset(&mut self, sender: Side, t: u64)
        requires time { t ≤ LAST_TIME }
        requires room { length self.old.faults.items ≡ 0 }
        ensures after { self.new ≡ all_hear_reset sender t self.old }
        ensures faults { length self.new.faults.items ≤ length self.old.faults.items + 4 }
    {
        self.tell_sent(sender, Sent::Other, t);
        self.hear_reset(sender, Side::Source, t);
        self.hear_reset(sender, Side::Sink, t);
        self.hear_reset(sender, Side::Plug, t);
    }

    /// N5: a Hard Reset has ended. All that waits is dropped, all layers are reset, and the engines are told.
    #[tactic(auto, unfolding(crate::specs::Lines::hard_reset_ends))]
    pub(crate) fn hard_reset_ends(&mut self, sender: Side, t: u64)
        requires time { t ≤ LAST_TIME }
        requires room { length self.old.faults.items ≡ 0 }
        ensures after { self.new ≡ hard_reset_ends sender t self.old }
        ensures faults { length self.new.faults.items ≤ length self.old.faults.items + 4 }
    {
        self.drop_waiting();
        self.reset_layers();
        self.all_hear_reset(sender, t);
    }
}
