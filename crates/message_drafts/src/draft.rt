//! What a take would log.

ghost use Rattle.std.specs.Prelude.{ℕ, [], List as Sequence};
ghost use Rattle.message_laws.specs.Views.{View};
ghost use Rattle.message_drafts.specs.Drafts.{HasAccepted};
ghost use Rattle.message_drafts.specs.Taking.{Sees};

use ind_base::List;
use rights_table::{Overlay, Table, tables_learn};
use spec_model::{Body, Setup};
use std::alloc::Global;

/// What the items would be that the replica then logs of its own, and what it would hold by then.
#[derive(Drop)]
pub(crate) struct Draft<'a> {
    pub(crate) held: Overlay<'a>,
    pub(crate) bodies: List<Body>,
}

impl Draft<'_> {
    /// Nothing is drafted.
    pub(crate) fn begin<'a>(alloc: Global, setup: &Setup, table: &'a Table) -> Draft<'a>
        ensures { (v : View) (me from : ℕ) (cut : Sequence ℕ) → Sees setup.now v me cut table.now → HasAccepted setup.now v from [] result }
    {
        tables_learn();
        Draft {
            held: Overlay::begin(alloc, setup, table),
            bodies: List::new(alloc),
        }
    }
}
