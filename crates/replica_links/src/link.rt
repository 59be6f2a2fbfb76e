ghost use Rattle.std.specs.Prelude.{◌≡◌, ◌<◌, ◌≤◌, ◌+◌, [], ◌∷◌, ◌++◌, length, IfOk, IfErr, IfSome, IfNone, OnOk, OnErr, OnSome};
ghost use mathlib.Core.List.{IsPrefix};

use crate::moves::{
    Compare, CountIdle, HearPut, HearTaken, PutLast, TakeFirst, TakeLeft, Tell, TwoEnds,
};
use crate::pass::{GetPass, PutPass, Queue};
use ind_base::{List, NoMemory};
use std::alloc::Global;
use std::sync::Wait;

/// The link held as many messages as it has room for.
#[derive(Debug, Drop)]
pub struct Full<M> {
    /// The message that wasn't put.
    pub message: M,
}

/// A link: messages are put at one end and taken at the other, first in first out.
#[derive(Drop)]
pub struct Link<M: Drop> {
    pub(crate) queue: Queue<M>,
}

/// A link with its two passes.
#[derive(Drop)]
pub struct Made<M: Drop> {
    pub link: Link<M>,
    /// The one pass that puts.
    pub put: PutPass<M>,
    /// The one pass that gets.
    pub get: GetPass<M>,
}

impl<M: Drop> Link<M> {
    ghost use Rattle.replica_links.specs.Passes.{room_of, put_of, taken_of, idle_of, known_taken, known_put, IsPutOf, IsGetOf};

    /// A link with room for so many messages.
    pub fn begin(alloc: Global, room: u32) -> Result<Made<M>, NoMemory>
        requires { 0 < room }
        ensures room { IfOk result (λ made. room_of made.link ≡ room) }
        ensures own { IfOk result (λ made. IsPutOf made.link made.put × IsGetOf made.link made.get) }
        ensures fresh { IfOk result (λ made. (put_of made.put ≡ []) × (taken_of made.get ≡ []) × (idle_of made.get ≡ 0)) }
        ensures untold { IfOk result (λ made. (known_taken made.put ≡ []) × (known_put made.get ≡ [])) }
    {
        let Ok((queue, mut put)) = Queue::ruled(alloc, room as usize) else {
            return Err(NoMemory);
        };
        let get = queue.another::<TwoEnds>(&mut put);
        Ok(Made {
            link: Link { queue },
            put: PutPass { end: put },
            get: GetPass { end: get },
        })
    }

    /// Puts a message at the end. A refusal changes nothing.
    pub fn put<R: Wait>(&self, rt: &R, pass: &mut PutPass<M>, message: M) -> Result<(), Full<M>>
        requires own { IsPutOf self.now pass.old }
        ensures own { IsPutOf self.now pass.new }
        ensures ok { OnOk result (put_of pass.new ≡ put_of pass.old ++ message ∷ []) }
        ensures err { IfErr result (λ full. full.message ≡ message) }
        ensures same { OnErr result (put_of pass.new ≡ put_of pass.old) }
        // As far as this pass knows what was taken, the link held its room.
        ensures full { OnErr result (length (known_taken pass.old) + room_of self.now ≤ length (put_of pass.old)) }
        ensures known { known_taken pass.new ≡ known_taken pass.old }
    {
        match self.queue.push_as::<PutLast, R>(rt, &mut pass.end, message) {
            Ok(()) => Ok(()),
            Err(message) => Err(Full { message }),
        }
    }

    /// Takes the first message; `None` where there is none.
    pub fn get<R: Wait>(&self, rt: &R, pass: &mut GetPass<M>) -> Option<M>
        requires own { IsGetOf self.now pass.old }
        ensures own { IsGetOf self.now pass.new }
        ensures some { IfSome result (λ message. taken_of pass.new ≡ taken_of pass.old ++ message ∷ []) }
        ensures none { IfNone result (taken_of pass.new ≡ taken_of pass.old) }
        // As far as this pass knows what was put, all of it had been taken.
        ensures empty { IfNone result (IsPrefix (known_put pass.old) (taken_of pass.old)) }
        ensures idle { IfNone result (idle_of pass.new ≡ idle_of pass.old + 1) }
        ensures busy { OnSome result (idle_of pass.new ≡ idle_of pass.old) }
        ensures known { known_put pass.new ≡ known_put pass.old }
    {
        let message = self.queue.pop_as::<TakeFirst, R>(rt, &mut pass.end);
        if message.is_none() {
            // Contracts alone see the count, so only what the pass knows has to change.
            self.queue.another::<CountIdle>(&mut pass.end);
        }
        message
    }

    /// Tells each pass what was done with the other.
    pub fn inform(&self, put: &mut PutPass<M>, get: &mut GetPass<M>)
        requires own { IsPutOf self.now put.old × IsGetOf self.now get.old }
        ensures own { IsPutOf self.now put.new × IsGetOf self.now get.new }
        ensures order { IsPrefix (taken_of get.old) (put_of put.old) }
        ensures same { (put_of put.new ≡ put_of put.old) × (taken_of get.new ≡ taken_of get.old) }
        ensures idle { idle_of get.new ≡ idle_of get.old }
        ensures known { (known_taken put.new ≡ taken_of get.old) × (known_put get.new ≡ put_of put.old) }
    {
        let of_put = self.queue.another::<Tell>(&mut put.end);
        let of_taken = self.queue.another::<Tell>(&mut get.end);
        self.queue.absorb::<HearPut>(&mut get.end, of_put);
        self.queue.absorb::<HearTaken>(&mut put.end, of_taken);
        self.queue.learn_as::<Compare>(&mut put.end);
    }

    /// Joins both passes, and takes out what is left. Where memory doesn't suffice for that the link is as before, and both passes are spent.
    pub fn settle<R: Wait>(
        &self,
        rt: &R,
        alloc: Global,
        put: PutPass<M>,
        get: GetPass<M>,
    ) -> Result<List<M>, NoMemory>
        requires own { IsPutOf self.now put × IsGetOf self.now get }
        ensures { IfOk result (λ left. put_of put ≡ taken_of get ++ left) }
    {
        let PutPass { mut end } = put;
        let GetPass { end: other } = get;
        self.queue.absorb::<TwoEnds>(&mut end, other);
        let count = self.queue.len_as::<TakeLeft, R>(rt, &mut end);
        let mut left = Vec::with_capacity(alloc, count)?;
        for _ in 0..count {
            match self.queue.pop_as::<TakeLeft, R>(rt, &mut end) {
                Some(message) => left.push_reserved(message),
                None => unreachable!(),
            }
        }
        Ok(List::from_vec(left))
    }
}
