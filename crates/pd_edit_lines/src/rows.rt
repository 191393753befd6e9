//! How a line goes on: what may stand behind its first words, and how it goes on behind that.

ghost use Rattle.std.specs.Prelude.{◌≡◌, ◌≤◌, length};
ghost use Rattle.pd_edit_lines.specs.Table.{may_end, rows};

use crate::Slot;

/// What stands at the beginning of a line, as far as it matters for what may follow. `Whole` is a line to which nothing
/// can be added.
#[derive(Clone, Copy, Debug, PartialEq, Eq)]
pub enum Front {
    Start,
    InsertId,
    InsertAt,
    InsertPort,
    MoveId,
    ChangeId,
    Kind,
    AttachCable,
    AttachSink,
    DamagePlace,
    DamageMask,
    CableName,
    CablePlug,
    CableRating,
    SinkName,
    SinkMax,
    SinkDemand,
    SinkMode,
    SinkRevision,
    CapsPort,
    FirstMv,
    FirstMa,
    SecondMv,
    SecondMa,
    ThirdMv,
    ThirdMa,
    FourthMv,
    FourthMa,
    FifthMv,
    FifthMa,
    SixthMv,
    SixthMa,
    SeventhMv,
    SeventhMa,
    FloorPort,
    Shown,
    LastId,
    LastAt,
    LastMw,
    LastPort,
    Whole,
}

impl Front {
    /// Whether a line may end behind such a beginning.
    pub fn may_end(self) -> bool
        ensures { result ≡ may_end self }
    {
        matches!(
            self,
            Front::Whole
                | Front::SinkRevision
                | Front::SecondMv
                | Front::ThirdMv
                | Front::FourthMv
                | Front::FifthMv
                | Front::SixthMv
                | Front::SeventhMv
        )
    }
}

/// What may follow, and what stands at the beginning then.
#[derive(Clone, Copy, Debug, PartialEq, Eq)]
pub struct Row {
    pub slot: Slot,
    pub to: Front,
}

/// The rows of a table, as the arms of a `match`.
macro_rules! table {
    ($front:expr; $($from:ident: $($slot:ident => $to:ident),*;)*) => {
        match $front {
            $(Front::$from => &[$(Row { slot: Slot::$slot, to: Front::$to }),*],)*
        }
    };
}

/// What may follow the beginning of a line.
pub(crate) fn rows(front: Front) -> &'static [Row]
    ensures { result.now ≡ rows front }
{
    table! {
        front;
        Start: Insert => InsertId, Remove => LastId, Move => MoveId, Change => ChangeId, Cable => CableName, Sink => SinkName, Caps => CapsPort, Floor => FloorPort, Budget => LastMw, End => LastAt, Show => Shown;
        InsertId: Id => InsertAt;
        InsertAt: At => InsertPort;
        InsertPort: Port => Kind, Budget => LastMw;
        MoveId: Id => LastAt;
        ChangeId: Id => Kind;
        Kind: Attach => AttachCable, Detach => Whole, Demand => LastMw, Lose => Whole, Damage => DamagePlace, GetSource => Whole, GetSink => Whole;
        AttachCable: CableName => AttachSink;
        AttachSink: SinkName => Whole;
        DamagePlace: Place => DamageMask;
        DamageMask: Mask => Whole;
        CableName: Name => CablePlug;
        CablePlug: Plug => CableRating, Drop => Whole;
        CableRating: Rating => Whole;
        SinkName: Name => SinkMax;
        SinkMax: Max => SinkDemand, Drop => Whole;
        SinkDemand: Wanted => SinkMode;
        SinkMode: Mode => SinkRevision;
        SinkRevision: Rev2 => Whole, Rev3 => Whole;
        CapsPort: Port => FirstMv;
        FirstMv: Mv => FirstMa;
        FirstMa: Ma => SecondMv;
        SecondMv: Mv => SecondMa;
        SecondMa: Ma => ThirdMv;
        ThirdMv: Mv => ThirdMa;
        ThirdMa: Ma => FourthMv;
        FourthMv: Mv => FourthMa;
        FourthMa: Ma => FifthMv;
        FifthMv: Mv => FifthMa;
        FifthMa: Ma => SixthMv;
        SixthMv: Mv => SixthMa;
        SixthMa: Ma => SeventhMv;
        SeventhMv: Mv => SeventhMa;
        SeventhMa: Ma => Whole;
        FloorPort: Port => LastMw;
        Shown: Transcript => LastPort, Contracts => Whole, Faults => Whole, Margins => Whole;
        LastId: Id => Whole;
        LastAt: At => Whole;
        LastMw: Mw => Whole;
        LastPort: Port => Whole;
        Whole: ;
    }
}
