//! Passes that are joined, link by link.

ghost use Rattle.std.specs.Prelude.{◌≡◌, ◌<◌, IfOk, [], length};
ghost use Rattle.std.specs.List.{AllByRecursion};
ghost use Rattle.replica_wires.specs.Beginning.{gets_at, puts_at};
ghost use Rattle.replica_wires.specs.Letters.{all_addressed};
ghost use Rattle.replica_wires.specs.Settling.{TakesOut};

use crate::letter::{Letter, message_of};
use crate::passes::Passes;
use ind_base::{List, NoMemory};
use replica_links::{GetPass, PutPass};
use run_model::Message;
use std::alloc::Global;

/// Both passes of a link.
#[derive(Drop)]
pub(crate) struct Both {
    pub(crate) put: PutPass<Letter>,
    pub(crate) get: GetPass<Letter>,
}

/// The messages that letters are on the link from one replica to another.
pub(crate) fn messages_of(
    alloc: Global,
    from: u32,
    to: u32,
    letters: List<Letter>,
) -> Result<List<Message>, NoMemory>
    ensures { IfOk result (λ messages. messages ≡ all_addressed from to letters) }
{
    let mut messages = Vec::new(alloc);
    for letter in letters.into_vec() {
        messages.push(message_of(from, to, letter))?;
    }
    Ok(List::from_vec(messages))
}

/// Takes the passes of the next link to a replica out of all passes.
pub(crate) fn take_out(all: &mut Vec<Passes>, from: u32, me: u32) -> Both
    requires within { (from < length all.old.items) × (me < length all.old.items) }
    requires some { (0 < length (puts_at all.old.items from)) × (0 < length (gets_at all.old.items me)) }
    ensures { TakesOut from me result all.old.items all.new.items }
{
    let put = all[from as usize].puts.remove(0);
    let get = all[me as usize].gets.remove(0);
    Both { put, get }
}
