//! Pieces that a replica gives and accepts.

ghost use Rattle.std.specs.Prelude.{◌≡◌, ◌<◌, ◌+◌, ◌^◌, nat_le, ◌++◌, ◌∷◌, [], ℕ, Bool, true, Some, List as Sequence};
ghost use Rattle.spec_model.specs.Fits.{IsWellFormed};
ghost use Rattle.spec_model.specs.declared.log.Body.TheVariants as body;
ghost use Rattle.spec_model.specs.declared.log.LogItem.{LogItem as LogItemOf};
ghost use Rattle.spec_model.specs.declared.right.Right.{Right as RightOf};
ghost use Rattle.run_model.specs.Allowed as allowed;
ghost use Rattle.run_model.specs.Fitting.{PieceFits};
ghost use Rattle.run_model.specs.Logs.{Logs as AllLogs, item_at};
ghost use Rattle.run_model.specs.Passing as passing;

use crate::step::Step;
use crate::table::Table;
use ind_base::Span;
use spec_model::{Held, Mode, Piece, Right, Setup};

fn same_mode(a: Mode, b: Mode) -> bool
    ensures { result ≡ passing.same_mode a b }
{
    match (a, b) {
        (Mode::Forbid, Mode::Forbid) => true,
        (Mode::Allow, Mode::Allow) => true,
        _ => false,
    }
}

/// The most that are held of a right that is counted, where some of it are accepted.
const MOST: u64 = 4611686018427387904;

/// Whether so many and so many more are at most the most.
fn fits_count(have: u64, n: u64) -> bool
    ensures { result ≡ nat_le (have + n) (2 ^ 62) }
{
    have <= MOST && n <= MOST - have
}

/// Whether a piece joins what is held, where so many are all shares.
fn joins(all: u32, held: &Held, piece: &Piece) -> bool
    ensures { result ≡ passing.can_accept all held.now piece.now }
{
    match (held, piece) {
        (Held::Count(have), Piece::Count(n)) => fits_count(*have, *n),
        (
            Held::Shares { shares, mode },
            Piece::Shares {
                shares: more,
                mode: given,
            },
        ) => {
            u64::from(*shares) + u64::from(*more) <= u64::from(all)
                && (*shares == 0 || same_mode(*given, *mode))
        }
        (Held::Points { run, .. }, Piece::Points(_)) => run.is_none(),
        _ => false,
    }
}

/// The points of a piece.
fn span_given(piece: &Piece) -> Span
    ensures { result ≡ allowed.span_given piece.now }
{
    match piece {
        Piece::Points(span) => *span,
        _ => Span { lo: 1, hi: 0 },
    }
}

impl Table {
    ghost use Rattle.rights_table.specs.Tables.{IsEntered, IsTable, KeepsEntries, held_in, replicas_of};

    /// Whether a piece of a right can be accepted.
    pub fn can_accept(&self, setup: &Setup, right: &Right, piece: &Piece) -> bool
        requires well_formed { IsWellFormed setup.now.spec }
        requires some { 0 < setup.now.replicas }
        requires replicas { replicas_of self.now ≡ setup.now.replicas }
        ensures { result ≡ passing.can_accept setup.now.replicas (held_in setup.now self.now right.now (allowed.span_given piece.now)) piece.now }
    {
        let held = self.held_of(setup, right, &span_given(piece));
        joins(setup.replicas, &held, piece)
    }

    /// Gives a piece away that is held: what is held with an Out of it more in the own log.
    pub fn give(&mut self, setup: &Setup, right: &Right, piece: &Piece)
        requires entered { IsEntered self.old right.now }
        requires held { allowed.IsHeldPiece (held_in setup.now self.old right.now (allowed.span_given piece.now)) piece.now }
        ensures out { (logs : AllLogs) (me : ℕ) (own : Sequence LogItemOf) (among : RightOf → Bool) (x : LogItemOf) (to : ℕ) → x.body ≡ body.Out to right.now piece.now → IsTable setup.now logs me own among self.old → IsTable setup.now logs me (own ++ x ∷ []) among self.new }
        ensures kept { KeepsEntries self.old self.new }
        ensures no_more { KeepsEntries self.new self.old }
    {
        self.change(right, &Step::Give(*piece));
    }

    /// Accepts a piece that another replica gave: what is held with an Accept of it more in the own
    /// log.
    pub fn accept(&mut self, setup: &Setup, right: &Right, piece: &Piece)
        requires entered { IsEntered self.old right.now }
        requires well_formed { IsWellFormed setup.now.spec }
        requires replicas { replicas_of self.old ≡ setup.now.replicas }
        requires piece { PieceFits setup.now right.now piece.now }
        requires joins { passing.can_accept setup.now.replicas (held_in setup.now self.old right.now (allowed.span_given piece.now)) piece.now ≡ true }
        ensures accepted { (logs : AllLogs) (me : ℕ) (own : Sequence LogItemOf) (among : RightOf → Bool) (x out : LogItemOf) (from at to : ℕ) → x.body ≡ body.Accept from at → item_at logs from at ≡ Some out → out.body ≡ body.Out to right.now piece.now → IsTable setup.now logs me own among self.old → IsTable setup.now logs me (own ++ x ∷ []) among self.new }
        ensures kept { KeepsEntries self.old self.new }
        ensures no_more { KeepsEntries self.new self.old }
    {
        self.change(right, &Step::Accept(*piece));
    }
}
