//! A replica over its storage and its ends.

ghost use Rattle.std.specs.Prelude.{◌≡◌, ◌≤◌, ◌<◌, ℕ, List as Sequence, Option, Some, [], false, IfOk, OnErr, length, replicate, slice_get, slice_index_or};
ghost use Rattle.ind_disk.specs.Bay.{IsEmpty, TellsAll};
ghost use Rattle.run_model.specs.declared.message.Message.{Message as MessageOf};
ghost use Rattle.run_model.specs.declared.step.Ask.TheVariants as asks;
ghost use Rattle.run_model.specs.declared.step.Outcome.TheVariants as outcomes;
ghost use Rattle.run_model.specs.Fitting.{SetupFits};
ghost use Rattle.run_model.specs.Worlds.{Up, no_cut};
ghost use Rattle.spec_model.specs.declared.plan.Setup.{Setup as SetupOf};
ghost use Rattle.batch_storage.specs.Kept.{StillKeeps};
ghost use Rattle.batch_storage.specs.Shown.{Costs};
ghost use Rattle.local_runs.specs.Handed.{AskFits, IsPeer};
ghost use Rattle.replica_course.specs.Courses.{HasStops, running_of};
ghost use Rattle.replica_course.specs.declared.heard.Heard.TheVariants as heards;
ghost use Rattle.replica_node.specs.Nodes.{IsNode, IsSending, in_hand};
ghost use Rattle.replica_node.specs.Steps.{Acts, AddsEntry, Answers, BreaksDisk, CountsNone, FindsNone, IsOf, plain};
ghost use Rattle.replica_node.specs.declared.node.Node.{Node as NodeOf};

use crate::ends::Ends;
use crate::stepping::step_with;
use crate::still::Still;
use batch_storage::Storage;
use ind_base::{Cut, List, NoMemory};
use replica_course::{Answer, Course, Heard};
use run_model::{Ask, Message, StepEntry};
use spec_model::Setup;
use std::alloc::Global;

/// One replica over a storage and over its ends of the links to all others.
#[derive(Drop)]
pub struct Node<S: Storage, E: Ends> {
    pub(crate) still: Still<S>,
    pub(crate) ends: E,
    /// How many messages were put for each replica.
    pub(crate) counts: Cut,
}

/// A replica and its ends.
#[derive(Drop)]
pub struct Parted<S: Storage, E: Ends> {
    pub still: Still<S>,
    pub ends: E,
}

/// No counts yet.
fn no_counts(replicas: u32) -> Cut
    requires { replicas ≤ 8 }
    ensures { result ≡ no_cut replicas }
{
    let mut counts = Cut::new();
    for _replica in 0..replicas {
        counts.push(0);
    }
    counts
}

/// Nothing in hand of any replica.
fn free_hands(alloc: Global, replicas: u32) -> Result<List<Heard>, NoMemory>
    ensures { IfOk result (λ hands. hands ≡ replicate replicas heards.Nothing) }
{
    let mut hands = List::new(alloc);
    for _replica in 0..replicas {
        let _so_far = hands.as_slice();
        hands.push(Heard::Nothing)?;
    }
    Ok(hands)
}

/// The message that was sent.
fn message_of(sent: Option<Message>) -> Message
    requires { (message : MessageOf) × (sent ≡ Some message) }
    ensures { sent ≡ Some result }
{
    match sent {
        Some(message) => message,
        None => unreachable!(),
    }
}

impl<S: Storage + Drop, E: Ends + Drop> Node<S, E> {
    /// A replica before its first step, on an empty disk and with ends on which nothing has passed.
    /// It begins down where its disk fails.
    pub fn begin(
        alloc: Global,
        setup: &Setup,
        me: u32,
        disk: S::D,
        ends: E,
    ) -> Result<Node<S, E>, NoMemory>
        requires fits { SetupFits setup.now }
        requires place { me < setup.now.replicas }
        requires few { setup.now.replicas ≤ 8 }
        requires empty { IsEmpty (S.D.standing disk) (S.D.may_leave disk) }
        requires owner { E.owner (E.mark ends) ≡ me }
        requires reaches { (peer : ℕ) → IsPeer setup.now me peer → E.reaches (E.mark ends) peer }
        requires quiet { (peer : ℕ) → (E.puts ends peer ≡ []) × (E.gots ends peer ≡ []) }
        ensures own { IfOk result (λ n. IsNode S.keeps E.mark E.owner E.reaches E.room E.puts E.gots setup.now me n) }
        ensures first { IfOk result (λ n. n.still.course.entries ≡ []) }
        ensures ends { IfOk result (λ n. n.ends ≡ ends) }
        ensures stops { IfOk result (λ n. (given : ℕ) → TellsAll given (S.D.standing disk) → HasStops given (S.shows n.still.storage) n.still.course) }
    {
        let (storage, up) = S::begin(alloc, disk, setup.replicas)?;
        let course = Course::begin(alloc, setup, me, up)?;
        let hands = free_hands(alloc, setup.replicas)?;
        Ok(Node {
            still: Still {
                course,
                storage,
                hands,
            },
            ends,
            counts: no_counts(setup.replicas),
        })
    }

    /// Takes a step that has nothing in hand and puts nothing.
    fn act(&mut self, alloc: Global, setup: &Setup, ask: Ask) -> Result<StepEntry, NoMemory>
        requires own { IsNode S.keeps E.mark E.owner E.reaches E.room E.puts E.gots setup.now self.old.still.course.me self.old }
        requires fits { AskFits setup.now self.old.still.course.me ask }
        requires acts { Acts (running_of self.old.still.course) ask }
        requires room { length self.old.still.course.entries < 100000 }
        ensures own { IsNode S.keeps E.mark E.owner E.reaches E.room E.puts E.gots setup.now self.old.still.course.me self.new }
        ensures answers { Answers ask self.old.still.course self.new.still.course result }
        ensures ends { self.new.ends ≡ self.old.ends }
        ensures costs { Costs (S.shows self.old.still.storage) (S.shows self.new.still.storage) (BreaksDisk result) }
        ensures still { OnErr result (StillKeeps (S.keeps self.old.still.storage setup.now.replicas) (S.keeps self.new.still.storage setup.now.replicas)) }
        ensures busy { FindsNone result → ⊥ }
    {
        self.still.act(alloc, setup, ask)
    }

    /// Puts the message of its last step, whose entry says so where its link has no room.
    fn put(&mut self, to: u32, number: u32, answer: Answer) -> StepEntry
        requires sending { (setup : SetupOf) × (old : _) × IsSending S.keeps E.mark E.owner E.reaches E.room E.puts E.gots setup to number answer old self.old }
        ensures own { (setup : SetupOf) (old : _) → IsSending S.keeps E.mark E.owner E.reaches E.room E.puts E.gots setup to number answer old self.old
            → IsNode S.keeps E.mark E.owner E.reaches E.room E.puts E.gots setup old.still.course.me self.new × IsOf old.still.course self.new.still.course × AddsEntry (asks.Send to None) result old.still.course self.new.still.course }
        ensures mark { E.mark self.new.ends ≡ E.mark self.old.ends }
        ensures idles { E.idles self.new.ends ≡ E.idles self.old.ends }
        ensures storage { self.new.still.storage ≡ self.old.still.storage }
        ensures unbroken { result.outcome ≡ outcomes.DiskBroken → answer.entry.outcome ≡ outcomes.DiskBroken }
    {
        let Answer { entry, sent } = answer;
        match self.ends.put(message_of(sent)) {
            Ok(()) => {
                self.counts.set(to as usize, number + 1);
                entry
            }
            Err(_full) => self.still.course.find_full(to),
        }
    }

    /// How many messages were put for that replica.
    fn count_for(&self, to: u32) -> u32
        requires { (n : ℕ) × (slice_get self.now.counts to ≡ Some n) }
        ensures { slice_get self.now.counts to ≡ Some result }
    {
        match self.counts.get(to as usize) {
            Some(count) => count,
            None => unreachable!(),
        }
    }

    /// Sends, where it is up.
    fn send_up(&mut self, alloc: Global, setup: &Setup, to: u32) -> Result<StepEntry, NoMemory>
        requires own { IsNode S.keeps E.mark E.owner E.reaches E.room E.puts E.gots setup.now self.old.still.course.me self.old }
        requires up { running_of self.old.still.course ≡ Up }
        requires peer { IsPeer setup.now self.old.still.course.me to }
        requires room { length self.old.still.course.entries < 100000 }
        ensures own { IsNode S.keeps E.mark E.owner E.reaches E.room E.puts E.gots setup.now self.old.still.course.me self.new }
        ensures answers { Answers (asks.Send to None) self.old.still.course self.new.still.course result }
        ensures mark { E.mark self.new.ends ≡ E.mark self.old.ends }
        ensures idles { E.idles self.new.ends ≡ E.idles self.old.ends }
        ensures costs { Costs (S.shows self.old.still.storage) (S.shows self.new.still.storage) (BreaksDisk result) }
        ensures still { OnErr result (StillKeeps (S.keeps self.old.still.storage setup.now.replicas) (S.keeps self.new.still.storage setup.now.replicas)) }
    {
        let number = self.count_for(to);
        let ask = Ask::Send {
            to,
            number: Some(number),
        };
        let nothing = Heard::Nothing;
        let answer = step_with(
            alloc,
            setup,
            &mut self.still.course,
            &mut self.still.storage,
            ask,
            &nothing,
        )?;
        Ok(self.put(to, number, answer))
    }

    /// Has a message of that replica in hand, if it had none and there is one.
    fn fetch(&mut self, setup: &Setup, from: u32)
        requires own { IsNode S.keeps E.mark E.owner E.reaches E.room E.puts E.gots setup.now self.old.still.course.me self.old }
        requires peer { IsPeer setup.now self.old.still.course.me from }
        ensures own { IsNode S.keeps E.mark E.owner E.reaches E.room E.puts E.gots setup.now self.old.still.course.me self.new }
        ensures course { self.new.still.course ≡ self.old.still.course }
        ensures storage { self.new.still.storage ≡ self.old.still.storage }
        ensures mark { E.mark self.new.ends ≡ E.mark self.old.ends }
        ensures idles { CountsNone (slice_index_or self.new.still.hands from heards.Nothing ≡ heards.Nothing) (E.idles self.old.ends) (E.idles self.new.ends) }
    {
        if self.still.is_free(from) {
            match self.ends.get(from) {
                Some(message) => self.still.hold(from, message),
                None => {}
            }
        }
    }

    /// Takes the next message of that replica, where it is up.
    fn take_up(&mut self, alloc: Global, setup: &Setup, from: u32) -> Result<StepEntry, NoMemory>
        requires own { IsNode S.keeps E.mark E.owner E.reaches E.room E.puts E.gots setup.now self.old.still.course.me self.old }
        requires up { running_of self.old.still.course ≡ Up }
        requires peer { IsPeer setup.now self.old.still.course.me from }
        requires room { length self.old.still.course.entries < 100000 }
        ensures own { IsNode S.keeps E.mark E.owner E.reaches E.room E.puts E.gots setup.now self.old.still.course.me self.new }
        ensures answers { Answers (asks.Take from None) self.old.still.course self.new.still.course result }
        ensures mark { E.mark self.new.ends ≡ E.mark self.old.ends }
        ensures costs { Costs (S.shows self.old.still.storage) (S.shows self.new.still.storage) (BreaksDisk result) }
        ensures still { OnErr result (StillKeeps (S.keeps self.old.still.storage setup.now.replicas) (S.keeps self.new.still.storage setup.now.replicas)) }
        ensures idles { CountsNone (FindsNone result) (E.idles self.old.ends) (E.idles self.new.ends) }
    {
        self.fetch(setup, from);
        self.still.take_held(alloc, setup, from)
    }

    /// Sends.
    fn send(&mut self, alloc: Global, setup: &Setup, to: u32) -> Result<StepEntry, NoMemory>
        requires own { IsNode S.keeps E.mark E.owner E.reaches E.room E.puts E.gots setup.now self.old.still.course.me self.old }
        requires peer { IsPeer setup.now self.old.still.course.me to }
        requires room { length self.old.still.course.entries < 100000 }
        ensures own { IsNode S.keeps E.mark E.owner E.reaches E.room E.puts E.gots setup.now self.old.still.course.me self.new }
        ensures answers { Answers (asks.Send to None) self.old.still.course self.new.still.course result }
        ensures mark { E.mark self.new.ends ≡ E.mark self.old.ends }
        ensures idles { E.idles self.new.ends ≡ E.idles self.old.ends }
        ensures costs { Costs (S.shows self.old.still.storage) (S.shows self.new.still.storage) (BreaksDisk result) }
        ensures still { OnErr result (StillKeeps (S.keeps self.old.still.storage setup.now.replicas) (S.keeps self.new.still.storage setup.now.replicas)) }
    {
        if self.still.is_up() {
            self.send_up(alloc, setup, to)
        } else {
            self.act(alloc, setup, Ask::Send { to, number: None })
        }
    }

    /// Takes.
    fn take(&mut self, alloc: Global, setup: &Setup, from: u32) -> Result<StepEntry, NoMemory>
        requires own { IsNode S.keeps E.mark E.owner E.reaches E.room E.puts E.gots setup.now self.old.still.course.me self.old }
        requires peer { IsPeer setup.now self.old.still.course.me from }
        requires room { length self.old.still.course.entries < 100000 }
        ensures own { IsNode S.keeps E.mark E.owner E.reaches E.room E.puts E.gots setup.now self.old.still.course.me self.new }
        ensures answers { Answers (asks.Take from None) self.old.still.course self.new.still.course result }
        ensures mark { E.mark self.new.ends ≡ E.mark self.old.ends }
        ensures costs { Costs (S.shows self.old.still.storage) (S.shows self.new.still.storage) (BreaksDisk result) }
        ensures still { OnErr result (StillKeeps (S.keeps self.old.still.storage setup.now.replicas) (S.keeps self.new.still.storage setup.now.replicas)) }
        ensures idles { CountsNone (FindsNone result) (E.idles self.old.ends) (E.idles self.new.ends) }
    {
        if self.still.is_up() {
            self.take_up(alloc, setup, from)
        } else {
            self.act(alloc, setup, Ask::Take { from, number: None })
        }
    }

    /// Takes a step. A send and a take have no number: the entry has that of the message that was put
    /// or got, if one was. A take that finds no message is `Idle`, and a send whose link has no room
    /// is `Full`, and puts nothing. A refusal for want of memory leaves the history; a message that
    /// was got for it stays in hand for the next take of that replica's.
    pub fn step(&mut self, alloc: Global, setup: &Setup, ask: Ask) -> Result<StepEntry, NoMemory>
        requires own { IsNode S.keeps E.mark E.owner E.reaches E.room E.puts E.gots setup.now self.old.still.course.me self.old }
        requires fits { AskFits setup.now self.old.still.course.me ask }
        requires is_plain { plain ask ≡ ask }
        requires room { length self.old.still.course.entries < 100000 }

        ensures own { IsNode S.keeps E.mark E.owner E.reaches E.room E.puts E.gots setup.now self.old.still.course.me self.new }
        ensures answers { Answers ask self.old.still.course self.new.still.course result }
        ensures mark { E.mark self.new.ends ≡ E.mark self.old.ends }
        ensures costs { Costs (S.shows self.old.still.storage) (S.shows self.new.still.storage) (BreaksDisk result) }
        ensures still { OnErr result (StillKeeps (S.keeps self.old.still.storage setup.now.replicas) (S.keeps self.new.still.storage setup.now.replicas)) }
        ensures idles { CountsNone (FindsNone result) (E.idles self.old.ends) (E.idles self.new.ends) }
    {
        match ask {
            Ask::Send { to, .. } => self.send(alloc, setup, to),
            Ask::Take { from, .. } => self.take(alloc, setup, from),
            _ => self.act(alloc, setup, ask),
        }
    }

    /// Parts a replica from its ends.
    pub fn part(self) -> Parted<S, E>
        ensures still { result.still ≡ self.still }
        ensures ends { result.ends ≡ self.ends }
    {
        let Node { still, ends, .. } = self;
        Parted { still, ends }
    }
}
