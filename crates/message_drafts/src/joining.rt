//! Accepting what is given.

ghost use Rattle.std.specs.Prelude.{◌≡◌, ℕ, ◌≤◌, List as Sequence, All, IfOk, length};
ghost use Rattle.spec_model.specs.declared.log.Body.TheVariants as body;
ghost use Rattle.spec_model.specs.declared.log.LogItem.{LogItem as LogItemOf};
ghost use Rattle.run_model.specs.Fitting.{ItemFits, SetupFits};
ghost use Rattle.message_laws.specs.Views.{View};

use crate::draft::Draft;
use ind_base::NoMemory;
use spec_model::{Body, LogItem, Piece, Right, Setup};

impl Draft<'_> {
    ghost use Rattle.message_drafts.specs.Drafts.{HasAccepted, HasJoined, IsNext, Joins, MayJoin};

    /// Accepts what an item gives to this replica, if it can be accepted; says whether.
    fn join(
        &mut self,
        setup: &Setup,
        item: &LogItem,
        right: &Right,
        piece: &Piece,
    ) -> Result<bool, NoMemory>
        requires setup { SetupFits setup.now }
        requires fits { ItemFits setup.now item.now }
        requires next { (v : View) × (from : ℕ) × (before : Sequence LogItemOf) × IsNext v from before item.now × (item.now.body ≡ body.Out v.me right.now piece.now) × HasAccepted setup.now v from before self.old }
        ensures { IfOk result (λ joined. (v : View) (from : ℕ) (before : Sequence LogItemOf) → IsNext v from before item.now → item.now.body ≡ body.Out v.me right.now piece.now → HasAccepted setup.now v from before self.old → Joins setup.now v from before item.now joined self.new) }
    {
        if !self.held.can_accept(setup, right, piece) {
            return Ok(false);
        }
        self.held.touch(setup, right)?;
        self.held.accept(setup, right, piece);
        let _so_far = self.bodies.as_slice();
        self.bodies.push(Body::Accept {
            from: item.origin,
            index: item.index,
        })?;
        Ok(true)
    }

    /// Accepts what an item gives, if it gives something to this replica; says whether it can be
    /// applied.
    fn join_item(&mut self, setup: &Setup, me: u32, item: &LogItem) -> Result<bool, NoMemory>
        requires setup { SetupFits setup.now }
        requires fits { ItemFits setup.now item.now }
        requires next { (v : View) × (from : ℕ) × (before : Sequence LogItemOf) × (v.me ≡ me) × IsNext v from before item.now × HasAccepted setup.now v from before self.old }
        ensures { IfOk result (λ joined. (v : View) (from : ℕ) (before : Sequence LogItemOf) → v.me ≡ me → IsNext v from before item.now → HasAccepted setup.now v from before self.old → Joins setup.now v from before item.now joined self.new) }
    {
        match item.body {
            Body::Out { to, right, piece } => {
                if to == me {
                    self.join(setup, item, &right, &piece)
                } else {
                    Ok(true)
                }
            }
            Body::Act(_) => Ok(true),
            Body::Accept { .. } => Ok(true),
        }
    }

    /// Accepts what these items give, one after the other, up to one that can't be accepted; says
    /// how many can be applied.
    pub(crate) fn join_all(
        &mut self,
        setup: &Setup,
        me: u32,
        items: &[LogItem],
    ) -> Result<usize, NoMemory>
        requires setup { SetupFits setup.now }
        requires fits { All (ItemFits setup.now) items.now }
        requires may { (v : View) × (from : ℕ) × MayJoin setup.now v me from items.now self.old }
        ensures within { IfOk result (λ count. count ≤ length items.now) }
        ensures joined { IfOk result (λ count. (v : View) (from : ℕ) → MayJoin setup.now v me from items.now self.old → HasJoined setup.now v from items.now count self.new) }
    {
        for (at, item) in items.iter().enumerate() {
            if !self.join_item(setup, me, item)? {
                return Ok(at);
            }
        }
        Ok(items.len())
    }
}
