//! What a replica would hold, without a change to its table.

ghost use Rattle.std.specs.Prelude.{◌≡◌, ◌<◌, ◌^◌, [], ◌∷◌, ◌++◌, ℕ, true, List as Sequence, Some, OnOk};
ghost use Rattle.spec_model.specs.declared.log.Body.TheVariants as body;
ghost use Rattle.spec_model.specs.declared.log.LogItem.{LogItem as LogItemOf};
ghost use Rattle.spec_model.specs.declared.right.Right.{Right as RightOf};
ghost use Rattle.run_model.specs.Allowed.{IsHeldPiece, span_given};
ghost use Rattle.run_model.specs.Fitting.{NeedFits, PieceFits, RightFits, SetupFits};
ghost use Rattle.run_model.specs.Holding.{held_of, held_right};
ghost use Rattle.run_model.specs.Logs.{Logs as AllLogs, item_at};
ghost use Rattle.run_model.specs.Passing as passing;
ghost use Rattle.rights_table.specs.Whole.{HasAll};

use crate::table::Table;
use ind_base::NoMemory;
use indexmap::IndexMap;
use spec_model::{Held, Need, Piece, Right, Setup};
use std::alloc::Global;

/// The rights that were touched, over a table that stays as it is.
#[derive(Drop)]
pub struct Overlay<'a> {
    pub(crate) touched: Table,
    pub(crate) under: &'a Table,
}

/// A number of 32 bits, so that all shares of a right are few.
fn few_replicas(replicas: u32)
    ensures { replicas < 2 ^ 32 }
{}

impl Overlay<'_> {
    ghost use Rattle.rights_table.specs.Overlays.{IsOverlay, IsTouched};

    /// Nothing is touched. It takes no memory.
    pub fn begin<'a>(alloc: Global, setup: &Setup, table: &'a Table) -> Overlay<'a>
        ensures { (logs : AllLogs) (me : ℕ) (own : Sequence LogItemOf) → HasAll setup.now logs me own table.now → IsOverlay setup.now logs me own result }
    {
        // Without an entry it tells of no right.
        Overlay {
            touched: Table {
                me: table.me,
                replicas: table.replicas,
                entries: IndexMap::new(alloc),
            },
            under: table,
        }
    }

    /// Touches a right, for which room is made. All that is told stays.
    pub fn touch(&mut self, setup: &Setup, right: &Right) -> Result<(), NoMemory>
        requires setup { SetupFits setup.now }
        requires right { RightFits setup.now right.now }
        requires is { (logs : AllLogs) × (me : ℕ) × (own : Sequence LogItemOf) × IsOverlay setup.now logs me own self.old }
        ensures same { (logs : AllLogs) (me : ℕ) (own : Sequence LogItemOf) → IsOverlay setup.now logs me own self.old → IsOverlay setup.now logs me own self.new }
        ensures touched { OnOk result (IsTouched self.new right.now) }
        ensures kept { (r : RightOf) → IsTouched self.old r → IsTouched self.new r }
    {
        self.touched.take_over(setup, self.under, right)
    }

    /// What would be held of a need's right.
    pub fn held(&self, setup: &Setup, need: &Need) -> Held
        requires setup { SetupFits setup.now }
        requires need { NeedFits setup.now need.now }
        requires is { (logs : AllLogs) × (me : ℕ) × (own : Sequence LogItemOf) × IsOverlay setup.now logs me own self.now }
        ensures { (logs : AllLogs) (me : ℕ) (own : Sequence LogItemOf) → IsOverlay setup.now logs me own self.now → result ≡ held_of setup.now logs me own need.now }
    {
        if self.touched.has(&need.right) {
            self.touched.held(setup, need)
        } else {
            self.under.held(setup, need)
        }
    }

    /// Whether a piece of a right could be accepted.
    pub fn can_accept(&self, setup: &Setup, right: &Right, piece: &Piece) -> bool
        requires setup { SetupFits setup.now }
        requires right { RightFits setup.now right.now }
        requires is { (logs : AllLogs) × (me : ℕ) × (own : Sequence LogItemOf) × IsOverlay setup.now logs me own self.now }
        ensures { (logs : AllLogs) (me : ℕ) (own : Sequence LogItemOf) → IsOverlay setup.now logs me own self.now → result ≡ passing.can_accept setup.now.replicas (held_right setup.now logs me own right.now (span_given piece.now)) piece.now }
    {
        if self.touched.has(right) {
            self.touched.can_accept(setup, right, piece)
        } else {
            self.under.can_accept(setup, right, piece)
        }
    }

    /// Accepts a piece of a touched right that another replica gave.
    pub fn accept(&mut self, setup: &Setup, right: &Right, piece: &Piece)
        requires setup { SetupFits setup.now }
        requires right { RightFits setup.now right.now }
        requires piece { PieceFits setup.now right.now piece.now }
        requires touched { IsTouched self.old right.now }
        requires joins { (logs : AllLogs) × (me : ℕ) × (own : Sequence LogItemOf) × IsOverlay setup.now logs me own self.old × (passing.can_accept setup.now.replicas (held_right setup.now logs me own right.now (span_given piece.now)) piece.now ≡ true) }
        ensures accepted { (logs : AllLogs) (me : ℕ) (own : Sequence LogItemOf) (x out : LogItemOf) (from at to : ℕ) → x.body ≡ body.Accept from at → item_at logs from at ≡ Some out → out.body ≡ body.Out to right.now piece.now → IsOverlay setup.now logs me own self.old → IsOverlay setup.now logs me (own ++ x ∷ []) self.new }
        ensures kept { (r : RightOf) → IsTouched self.old r → IsTouched self.new r }
    {
        few_replicas(setup.replicas);
        self.touched.accept(setup, right, piece);
    }

    /// Gives a piece of a touched right away.
    pub fn give(&mut self, setup: &Setup, right: &Right, piece: &Piece)
        requires setup { SetupFits setup.now }
        requires right { RightFits setup.now right.now }
        requires touched { IsTouched self.old right.now }
        requires held { (logs : AllLogs) × (me : ℕ) × (own : Sequence LogItemOf) × IsOverlay setup.now logs me own self.old × IsHeldPiece (held_right setup.now logs me own right.now (span_given piece.now)) piece.now }
        ensures out { (logs : AllLogs) (me : ℕ) (own : Sequence LogItemOf) (x : LogItemOf) (to : ℕ) → x.body ≡ body.Out to right.now piece.now → IsOverlay setup.now logs me own self.old → IsOverlay setup.now logs me (own ++ x ∷ []) self.new }
        ensures kept { (r : RightOf) → IsTouched self.old r → IsTouched self.new r }
    {
        self.touched.give(setup, right, piece);
    }
}
