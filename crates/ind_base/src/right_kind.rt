//! Kinds of rights: what a holding permits, and how pieces of it are passed on.

ghost use Rattle.std.specs.Prelude.{◌≡◌, ◌↔◌, ◌+◌, ◌<◌, ◌≤◌, ℕ, Bool, true, Err, OnOk, OnErr};
ghost use Rattle.ind_base.specs.declared.right_kind.GiveError.TheVariants.{Lacks, Memory};

use crate::refusal::NoMemory;

/// Why a piece isn't given.
#[derive(Clone, Copy, Debug, PartialEq, Eq)]
pub enum GiveError {
    /// Less than the piece is held; so much of it is.
    Lacks { have: u64 },
    Memory,
}

/// A holding of one right. What is given of it and accepted elsewhere keeps the sum of what is held.
pub trait RightKind: Sized {
    /// How much of the right an operation needs.
    type Ask;

    /// A part of the right that is passed on.
    type Piece;

    /// Whether the holding permits what is asked.
    ghost permits: { Self → Self.Ask → Bool };

    /// How much a holding counts, at each point where it is of points.
    ghost counted: { Self → ℕ → ℕ };

    /// How much a piece counts.
    ghost counted_of: { Self.Piece → ℕ → ℕ };

    /// How much of a piece is held.
    ghost held_of: { Self → Self.Piece → ℕ };

    /// How much a piece is.
    ghost size: { Self.Piece → ℕ };

    /// Whether a piece may be given.
    ghost may_give: { Self → Self.Piece → Type 0 };

    /// Whether a piece may be accepted.
    ghost may_accept: { Self → Self.Piece → Type 0 };

    /// What a holding becomes where a piece is given.
    ghost given: { Self → Self.Piece → Self → Type 0 };

    /// What a holding becomes where a piece is accepted.
    ghost accepted: { Self → Self.Piece → Self → Type 0 };

    /// What a holding becomes where what is asked is spent.
    ghost spent: { Self → Self.Ask → Self };

    /// For how many pieces there is room.
    ghost room: { Self → ℕ };

    /// Whether the holding permits what is asked.
    fn can(&self, ask: &Self::Ask) -> bool
        ensures { result ≡ permits self.now ask.now };

    /// Takes a piece out of the holding. `Lacks` where less than the piece is held.
    fn give(&mut self, piece: &Self::Piece) -> Result<(), GiveError>
        requires { may_give self.old piece.now }
        ensures moved { OnOk result ((x : ℕ) → counted self.old x ≡ counted self.new x + counted_of piece.now x) }
        ensures ok { OnOk result (given self.old piece.now self.new) }
        ensures err { OnErr result (self.new ≡ self.old) }
        ensures lacks { (have : ℕ) → (result ≡ Err (Lacks have)) ↔ (have ≡ held_of self.old piece.now) × (have < size piece.now) }
        ensures memory { result ≡ Err Memory → room self.old ≡ 0 }
        ensures room { room self.old ≤ room self.new + 1 };

    /// Adds a piece that another holding gave.
    fn accept(&mut self, piece: &Self::Piece) -> Result<(), NoMemory>
        requires { may_accept self.old piece.now }
        ensures moved { OnOk result ((x : ℕ) → counted self.new x ≡ counted self.old x + counted_of piece.now x) }
        ensures ok { OnOk result (accepted self.old piece.now self.new) }
        ensures err { OnErr result (self.new ≡ self.old) }
        ensures memory { OnErr result (room self.old ≡ 0) }
        ensures room { room self.old ≤ room self.new + 1 };

    /// Does what was asked with the holding, which permits it.
    fn spend(&mut self, ask: &Self::Ask)
        requires { permits self.old ask.now ≡ true }
        ensures { self.new ≡ spent self.old ask.now };
}
