//! Links between all replicas.

ghost use Rattle.std.specs.Prelude.{◌≡◌, ◌≤◌, ◌<◌, ◌*◌, ◌+◌, ◌++◌, All, IfOk, length};
ghost use Rattle.std.specs.List.{AllByRecursion};

use crate::begun::Begun;
use crate::letter::Letter;
use crate::passes::Passes;
use crate::settling::{Both, messages_of, take_out};
use ind_base::{List, NoMemory};
use replica_links::Link;
use run_model::Message;
use std::alloc::Global;
use std::sync::Wait;

/// One link for each ordered pair of replicas. That of a replica to itself is never used.
#[derive(Drop)]
pub struct Web {
    replicas: u32,
    links: Vec<Link<Letter>>,
    ghost few: { replicas ≤ 8 },
    ghost sized: { length links.items ≡ replicas * replicas },
}

impl Web {
    ghost use Rattle.replica_links.specs.Passes.{put_of, taken_of};
    ghost use Rattle.replica_wires.specs.Letters.{all_addressed};
    ghost use Rattle.replica_wires.specs.Passing.{AreLeft, AreSettled, AreUnused, HaveTheirs};
    ghost use Rattle.replica_wires.specs.Settling.{IsSettling};
    ghost use Rattle.replica_links.specs.Passes.{IsGetOf, IsPutOf};
    ghost use Rattle.replica_links.specs.declared.link.Link.{Link as LinkOf};
    ghost use Rattle.replica_wires.specs.declared.letter.Letter.{Letter as LetterOf};
    ghost use Rattle.replica_wires.specs.Webs.{HasLink, HasRooms, replicas_of};

    /// Links between so many replicas, with each replica's passes, in order. The rooms stand row by
    /// row: that of the link from one replica to another at the first's number times `replicas` plus
    /// the second's.
    pub fn begin(
        alloc: Global,
        replicas: u32,
        rooms: &[u32],
    ) -> Result<(Web, List<Passes>), NoMemory>
        requires few { replicas ≤ 8 }
        requires rooms { length rooms.now ≡ replicas * replicas }
        requires some_room { All (λ room. 0 < room) rooms.now }
        ensures replicas { IfOk result (λ made. replicas_of made.0 ≡ replicas) }
        ensures rooms { IfOk result (λ made. HasRooms rooms.now made.0) }
        ensures own { IfOk result (λ made. HaveTheirs made.0 made.1) }
        ensures fresh { IfOk result (λ made. AllByRecursion AreUnused made.1) }
    {
        let mut begun = Begun::new(alloc, replicas)?;
        for from in 0..replicas {
            begun.add_row(alloc, replicas, from, rooms)?;
        }
        let Begun { links, all } = begun;
        Ok((Web { replicas, links }, List::from_vec(all)))
    }

    /// The link from one replica to another.
    pub(crate) fn link(&self, from: u32, to: u32) -> &Link<Letter>
        requires from { from < replicas_of self.now }
        requires to { to < replicas_of self.now }
        ensures { HasLink self.now from to result.now }
    {
        &self.links[(from * self.replicas + to) as usize]
    }

    /// Joins all passes, and takes out what is left: for each replica a list for each replica that it
    /// is from, in their order. Where memory doesn't suffice the passes are spent.
    pub fn settle<R: Wait>(
        &self,
        rt: &R,
        alloc: Global,
        passes: List<Passes>,
    ) -> Result<List<List<List<Message>>>, NoMemory>
        requires own { HaveTheirs self.now passes }
        ensures { IfOk result (AreSettled self.now passes) }
    {
        let mut all = passes.into_vec();
        let mut left = List::new(alloc);
        for me in 0..self.replicas {
            let mut lists = List::new(alloc);
            for from in 0..self.replicas {
                let both = take_out(&mut all, from, me);
                lists.push(self.settle_link(rt, alloc, from, me, both)?)?;
            }
            left.push(lists)?;
        }
        Ok(left)
    }

    /// What is left on the link from one replica to another, for which it needs both passes.
    fn settle_link<R: Wait>(
        &self,
        rt: &R,
        alloc: Global,
        from: u32,
        to: u32,
        both: Both,
    ) -> Result<List<Message>, NoMemory>
        requires within { (from < replicas_of self.now) × (to < replicas_of self.now) }
        requires own { (link : LinkOf LetterOf) → HasLink self.now from to link → IsPutOf link both.put × IsGetOf link both.get }
        ensures left { IfOk result (λ left. all_addressed from to (put_of both.put) ≡ all_addressed from to (taken_of both.get) ++ left) }
        ensures senders { IfOk result (AllByRecursion (λ message. message.from ≡ from)) }
    {
        let Both { put, get } = both;
        let letters = self.link(from, to).settle(rt, alloc, put, get)?;
        messages_of(alloc, from, to, letters)
    }
}
