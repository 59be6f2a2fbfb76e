//! Giving to one who wants.

ghost use Rattle.std.specs.Prelude.{ℕ, [], ◌∷◌, List as Sequence, All, OnOk};
ghost use Rattle.spec_model.specs.declared.log.LogItem.{LogItem as LogItemOf};
ghost use Rattle.run_model.specs.Fitting.{SetupFits, WantFits};
ghost use Rattle.message_laws.specs.Views.{View};

use crate::draft::Draft;
use ind_base::NoMemory;
use rights_transfer::{Give, answer, need_of};
use spec_model::{Body, Piece, Setup, Want};

impl Draft<'_> {
    ghost use Rattle.rights_table.specs.Overlays.{IsTouched};
    ghost use Rattle.message_drafts.specs.Drafts.{HasAnswered, IsDraft, IsWanted};

    /// Gives a piece of what is held.
    fn give(&mut self, setup: &Setup, to: u32, want: &Want, piece: Piece) -> Result<(), NoMemory>
        requires setup { SetupFits setup.now }
        requires fits { WantFits setup.now want.now }
        requires touched { IsTouched self.old.held want.now.right }
        requires wanted { (v : View) × (from : ℕ) × (before : Sequence LogItemOf) × IsDraft setup.now v from before self.old × IsWanted setup.now v from before want.now self.old piece }
        ensures { OnOk result ((v : View) (from : ℕ) (before : Sequence LogItemOf) → IsDraft setup.now v from before self.old → IsWanted setup.now v from before want.now self.old piece → HasAnswered setup.now v from before to (want.now ∷ []) self.old self.new) }
    {
        self.held.give(setup, &want.right, &piece);
        let _so_far = self.bodies.as_slice();
        self.bodies.push(Body::Out {
            to,
            right: want.right,
            piece,
        })?;
        Ok(())
    }

    /// Gives a part of what would be held to one who wants it.
    fn answer_want(&mut self, setup: &Setup, to: u32, want: &Want) -> Result<(), NoMemory>
        requires setup { SetupFits setup.now }
        requires fits { WantFits setup.now want.now }
        requires draft { (v : View) × (from : ℕ) × (before : Sequence LogItemOf) × IsDraft setup.now v from before self.old }
        ensures { OnOk result ((v : View) (from : ℕ) (before : Sequence LogItemOf) → IsDraft setup.now v from before self.old → HasAnswered setup.now v from before to (want.now ∷ []) self.old self.new) }
    {
        let held = self.held.held(setup, &need_of(want));
        match answer(&held, want) {
            Give::Nothing => Ok(()),
            Give::Piece(piece) => {
                self.held.touch(setup, &want.right)?;
                self.give(setup, to, want, piece)
            }
        }
    }

    /// Gives to one who wants, want by want, of what would still be held.
    pub(crate) fn answer_all(
        &mut self,
        setup: &Setup,
        to: u32,
        wants: &[Want],
    ) -> Result<(), NoMemory>
        requires setup { SetupFits setup.now }
        requires fits { All (WantFits setup.now) wants.now }
        requires draft { (v : View) × (from : ℕ) × (before : Sequence LogItemOf) × IsDraft setup.now v from before self.old }
        ensures { OnOk result ((v : View) (from : ℕ) (before : Sequence LogItemOf) → IsDraft setup.now v from before self.old → HasAnswered setup.now v from before to wants.now self.old self.new) }
    {
        for want in wants {
            self.answer_want(setup, to, want)?;
        }
        Ok(())
    }
}
