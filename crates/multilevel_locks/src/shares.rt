//! Shares of a lock, in a mode.

ghost use Rattle.std.specs.Prelude.{◌≡◌, ◌+◌, ◌≤◌};
ghost use Rattle.multilevel_locks.specs.Shares as shares;

use ind_base::{GiveError, NoMemory, RightKind};
use spec_model::{Level, Mode};

/// How many of all shares of a lock are held, and in which mode.
#[derive(Clone, Copy)]
pub struct Shares {
    pub shares: u32,
    pub mode: Mode,
    pub all: u32,
}

/// Some shares in their mode.
#[derive(Clone, Copy)]
pub struct SharesPiece {
    pub shares: u32,
    pub mode: Mode,
}

/// Whether a share in this mode permits the level.
pub fn mode_permits(mode: Mode, level: Level) -> bool
    ensures { result ≡ shares.mode_permits mode level }
{
    match (mode, level) {
        (Mode::Forbid, Level::Forbid) => true,
        (Mode::Allow, Level::Allow) => true,
        _ => false,
    }
}

/// The mode that acting at a level sets; exclusive leaves it.
fn mode_set(mode: Mode, level: Level) -> Mode
    ensures { result ≡ shares.mode_set mode level }
{
    match level {
        Level::Forbid => Mode::Forbid,
        Level::Allow => Mode::Allow,
        Level::Exclusive => mode,
    }
}

impl RightKind for Shares {
    ghost use Rattle.std.specs.Prelude.{if◌then◌else◌, ◌==◌};
    ghost use Rattle.multilevel_locks.specs.Holdings as holdings;

    type Ask = Level;

    type Piece = SharesPiece;

    ghost permits = { λ s level. shares.permits s.all s.shares s.mode level };

    ghost counted = { λ s x. s.shares };

    ghost counted_of = { λ p x. p.shares };

    ghost held_of = { λ s p. s.shares };

    ghost size = { λ p. p.shares };

    ghost may_give = { λ s p. p.mode ≡ s.mode };

    ghost may_accept = { λ s p. holdings.Joins s p };

    ghost given = { λ s p new. holdings.IsLess s p new };

    ghost accepted = { λ s p new. holdings.IsMore s p new };

    ghost spent = { λ s level. holdings.acted s level };

    ghost room = { λ s. 1 };

    fn can(&self, level: &Level) -> bool {
        self.shares == self.all || (self.shares > 0 && mode_permits(self.mode, *level))
    }

    fn give(&mut self, piece: &SharesPiece) -> Result<(), GiveError> {
        if self.shares < piece.shares {
            return Err(GiveError::Lacks {
                have: u64::from(self.shares),
            });
        }
        self.shares -= piece.shares;
        Ok(())
    }

    fn accept(&mut self, piece: &SharesPiece) -> Result<(), NoMemory> {
        if self.shares == 0 {
            self.mode = piece.mode;
        }
        self.shares += piece.shares;
        Ok(())
    }

    fn spend(&mut self, level: &Level) {
        if self.shares == self.all {
            self.mode = mode_set(self.mode, *level);
        }
    }
}
