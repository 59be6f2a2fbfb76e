//! What a replica holds of its storage.

ghost use Rattle.std.specs.Prelude.{◌≡◌};
ghost use Rattle.batch_storage.specs.Held.{held_where};

use crate::storage::Found;
use rights_journal::Keeps;

/// A journal, or its disk where the replica is down.
#[derive(Drop)]
pub enum Held<J, D> {
    Journal(J),
    Disk(D),
}

/// Keeps a journal, or its disk alone where the journal isn't the one that was sought.
pub fn hold<J: Keeps>(journal: J, found: Found) -> Held<J, J::D>
    ensures { result ≡ held_where J.disk_of journal found }
{
    match found {
        Found::Broken => Held::Disk(journal.into_disk()),
        Found::Without | Found::With => Held::Journal(journal),
    }
}
