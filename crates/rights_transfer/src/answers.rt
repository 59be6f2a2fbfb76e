//! What is given to one who asks.

ghost use Rattle.std.specs.Prelude.{◌≡◌, ◌<◌, ◌+◌, ◌/◌, ◌^◌, min};
ghost use Rattle.run_model.specs.Levels as levels;
ghost use Rattle.run_model.specs.Wants as wanted;
ghost use Rattle.rights_transfer.specs.Given.{given_piece};

use multilevel_locks::mode_permits;
use spec_model::{Held, Level, Mode, Piece, Want, WantAsk};

/// What is given to one who asks.
#[derive(Clone, Copy)]
pub enum Give {
    Nothing,
    Piece(Piece),
}

/// How many of a right that is held are given to one who asks for so many: at most half, rounded up.
fn count_for(asked: u64, have: u64) -> u64
    ensures { result ≡ min asked ((have + 1) / 2) }
{
    have.div_ceil(2).min(asked)
}

/// How many shares are given to one who asks for a level: all of them where their mode doesn't
/// permit it, else one of two or more.
fn shares_for(shares: u32, mode: Mode, level: Level) -> u32
    ensures { result ≡ wanted.shares_for shares mode level }
{
    if !mode_permits(mode, level) {
        shares
    } else if shares > 1 {
        1
    } else {
        0
    }
}

/// What is given of what is held to one who asks. Nothing is given of none.
pub fn answer(held: &Held, want: &Want) -> Give
    ensures { given_piece result ≡ wanted.piece_for held.now want.now.ask }
{
    match (held, want.ask) {
        (Held::Count(have), WantAsk::Count(asked)) => match count_for(asked, *have) {
            0 => Give::Nothing,
            count => Give::Piece(Piece::Count(count)),
        },
        (Held::Shares { shares, mode }, WantAsk::Level(level)) => {
            match shares_for(*shares, *mode, level) {
                0 => Give::Nothing,
                shares => Give::Piece(Piece::Shares {
                    shares,
                    mode: *mode,
                }),
            }
        }
        (Held::Points { run: Some(run), .. }, WantAsk::Points(_)) => {
            Give::Piece(Piece::Points(*run))
        }
        _ => Give::Nothing,
    }
}
