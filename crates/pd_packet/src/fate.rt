//! What becomes of a packet on the line.

ghost use Rattle.std.specs.Prelude.{◌≡◌, ◌↔◌, IsTrue};
ghost use Rattle.pd_packet.specs.Damage.{DamageData, IsDamage};

use std::marker::Model;

/// One code of a packet is replaced: the place that is hit, 0 to 68, which counts round the packet's codes after the
/// first four, and the bits of the code that turn, 1 to 31.
#[derive(Clone, Copy, Debug)]
pub struct Damage {
    place: u8,
    mask: u8,
}

impl Model for Damage {
    ghost Value = { DamageData };

    ghost view = { λ d. record { place = d.place; mask = d.mask } };

    ghost invariant = { λ d. IsDamage (record { place = d.place; mask = d.mask }) };

    ghost inverse = { λ v. record { place = v.place; mask = v.mask } };
}

impl Damage {
    /// Damage at a place by a mask.
    pub fn new(place: u8, mask: u8) -> Damage
        requires { IsDamage (record { place = place; mask = mask }) }
        ensures { result ≡ record { place = place; mask = mask } }
    {
        Damage { place, mask }
    }

    /// The place that is hit.
    pub fn place(&self) -> u8
        ensures value { result ≡ self.now.place }
        ensures is_damage { IsDamage self.now }
    {
        // Read for the proof alone, which then knows its range.
        let _mask = self.mask;
        self.place
    }

    /// The bits that turn.
    pub fn mask(&self) -> u8
        ensures value { result ≡ self.now.mask }
        ensures is_damage { IsDamage self.now }
    {
        // Read for the proof alone, which then knows its range.
        let _place = self.place;
        self.mask
    }

    /// Whether both hit the same place by the same mask.
    pub fn same(&self, other: &Damage) -> bool
        ensures { IsTrue result ↔ (self.now ≡ other.now) }
    {
        self.place == other.place && self.mask == other.mask
    }
}

/// What becomes of a packet on the line.
#[derive(Clone, Copy, Debug, Default)]
pub enum Fate {
    /// It arrives as it was sent.
    #[default]
    Undisturbed,
    /// It reaches nobody.
    Lost,
    /// One of its codes is another.
    Damaged(Damage),
}

impl Fate {
    /// Whether both are the same fate, with the same damage.
    pub fn same(&self, other: &Fate) -> bool
        ensures { IsTrue result ↔ (self.now ≡ other.now) }
    {
        match (self, other) {
            (Fate::Undisturbed, Fate::Undisturbed) => true,
            (Fate::Lost, Fate::Lost) => true,
            (Fate::Damaged(damage), Fate::Damaged(other)) => damage.same(other),
            _ => false,
        }
    }
}
