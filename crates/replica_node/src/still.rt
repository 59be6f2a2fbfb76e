//! A replica without its ends.

ghost use Rattle.std.specs.Prelude.{◌≡◌, ◌≢◌, ◌<◌, ◌≤◌, ◌↔◌, ◌+◌, ◌++◌, ℕ, List as Sequence, [], IfOk, IsTrue, OnErr, OnOk, Some, length, slice_index_or, slice_set};
ghost use Rattle.std.specs.List.{AllByRecursion};
ghost use Rattle.run_model.specs.declared.message.Message.{Message as MessageOf};
ghost use Rattle.run_model.specs.declared.step.Ask.TheVariants as asks;
ghost use Rattle.run_model.specs.Worlds.{Up};
ghost use Rattle.batch_storage.specs.Kept.{StillKeeps};
ghost use Rattle.batch_storage.specs.Shown.{Costs, shown_of};
ghost use Rattle.local_runs.specs.Handed.{AskFits, IsPeer, IsRefused};
ghost use Rattle.replica_course.specs.Courses.{history_of, running_of};
ghost use Rattle.replica_course.specs.declared.heard.Heard.TheVariants as heards;
ghost use Rattle.replica_node.specs.Nodes.{IsStill, StaysStill, in_hand, number_in};
ghost use Rattle.replica_node.specs.Closing.{HasReceived, IsClosing};
ghost use Rattle.replica_node.specs.Steps.{Acts, Answers, BreaksDisk, FindsNone, RestsDown, taking};

use crate::stepping::step_with;
use batch_storage::Storage;
use ind_base::{List, NoMemory};
use replica_course::{Answer, Course, Heard};
use run_model::{Ask, History, Message, StepEntry};
use spec_model::Setup;
use std::alloc::Global;

/// One replica through its stops, and the storage that keeps its batches. Of each other replica it
/// may have a message in hand, which was got, and whose take was refused for want of memory.
#[derive(Drop)]
pub struct Still<S: Storage> {
    pub(crate) course: Course,
    pub(crate) storage: S,
    pub(crate) hands: List<Heard>,
}

/// What a replica did and how it stands at the end, and its disk.
#[derive(Drop)]
pub struct Finished<D> {
    pub history: History,
    pub disk: D,
}

/// The number of what is in hand.
fn number_of(heard: &Heard) -> Option<u32>
    ensures { result ≡ number_in heard.now }
{
    match heard {
        Heard::Message(message) => Some(message.number),
        Heard::Nothing => None,
        Heard::Unsent { .. } => None,
    }
}

/// Whether this is nothing.
fn is_nothing(heard: &Heard) -> bool
    ensures { IsTrue result ↔ (heard.now ≡ heards.Nothing) }
{
    match heard {
        Heard::Nothing => true,
        Heard::Message(_) => false,
        Heard::Unsent { .. } => false,
    }
}

impl<S: Storage + Drop> Still<S> {
    /// Takes a step that has nothing in hand and puts nothing.
    pub(crate) fn act(
        &mut self,
        alloc: Global,
        setup: &Setup,
        ask: Ask,
    ) -> Result<StepEntry, NoMemory>
        requires own { (taken put : ℕ → Sequence MessageOf) × IsStill S.keeps setup.now self.old.course.me taken put self.old }
        requires fits { AskFits setup.now self.old.course.me ask }
        requires acts { Acts (running_of self.old.course) ask }
        requires room { length self.old.course.entries < 100000 }
        ensures stays { StaysStill S.keeps setup.now self.old.course.me self.old self.new }
        ensures hands { self.new.hands ≡ self.old.hands }
        ensures answers { Answers ask self.old.course self.new.course result }
        ensures rests { IfOk result (λ entry. running_of self.old.course ≢ Up → RestsDown ask self.old.course entry self.new.course) }
        ensures unrefused { IfOk result (λ entry. (to : ℕ) → IsRefused to entry → ⊥) }
        ensures busy { FindsNone result → ⊥ }
        ensures costs { Costs (S.shows self.old.storage) (S.shows self.new.storage) (BreaksDisk result) }
        ensures still { OnErr result (StillKeeps (S.keeps self.old.storage setup.now.replicas) (S.keeps self.new.storage setup.now.replicas)) }
    {
        let nothing = Heard::Nothing;
        let Answer { entry, .. } = step_with(
            alloc,
            setup,
            &mut self.course,
            &mut self.storage,
            ask,
            &nothing,
        )?;
        Ok(entry)
    }

    /// Takes what is in hand of that replica, where it is up: a message, or none.
    pub(crate) fn take_held(
        &mut self,
        alloc: Global,
        setup: &Setup,
        from: u32,
    ) -> Result<StepEntry, NoMemory>
        requires own { (taken put : ℕ → Sequence MessageOf) × IsStill S.keeps setup.now self.old.course.me taken put self.old }
        requires up { running_of self.old.course ≡ Up }
        requires peer { IsPeer setup.now self.old.course.me from }
        requires room { length self.old.course.entries < 100000 }
        ensures stays { StaysStill S.keeps setup.now self.old.course.me self.old self.new }
        ensures answers { Answers (asks.Take from None) self.old.course self.new.course result }
        ensures asked { IfOk result (λ entry. entry.ask ≡ asks.Take from (number_in (slice_index_or self.old.hands from heards.Nothing))) }
        ensures hands { IfOk result (λ entry. self.new.hands ≡ slice_set self.old.hands from heards.Nothing) }
        ensures costs { Costs (S.shows self.old.storage) (S.shows self.new.storage) (BreaksDisk result) }
        ensures still { OnErr result (StillKeeps (S.keeps self.old.storage setup.now.replicas) (S.keeps self.new.storage setup.now.replicas)) }
    {
        let at = from as usize;
        let heard = &self.hands.as_slice()[at];
        let ask = Ask::Take {
            from,
            number: number_of(heard),
        };
        let Answer { entry, .. } = step_with(
            alloc,
            setup,
            &mut self.course,
            &mut self.storage,
            ask,
            heard,
        )?;
        self.hands.set(at, Heard::Nothing);
        Ok(entry)
    }

    /// Whether nothing is in hand of that replica.
    pub(crate) fn is_free(&self, from: u32) -> bool
        requires { from < length self.now.hands }
        ensures { IsTrue result ↔ (slice_index_or self.now.hands from heards.Nothing ≡ heards.Nothing) }
    {
        is_nothing(&self.hands.as_slice()[from as usize])
    }

    /// Has a message in hand of that replica.
    pub(crate) fn hold(&mut self, from: u32, message: Message)
        requires { from < length self.old.hands }
        ensures { self.new ≡ record self.old { hands = slice_set self.old.hands from (heards.Message message) } }
    {
        self.hands.set(from as usize, Heard::Message(message));
    }

    /// Whether it is up.
    pub(crate) fn is_up(&self) -> bool
        ensures { IsTrue result ↔ (running_of self.now.course ≡ Up) }
    {
        self.course.is_up()
    }

    /// Takes this message where it is up.
    fn take_this(
        &mut self,
        alloc: Global,
        setup: &Setup,
        message: Message,
    ) -> Result<StepEntry, NoMemory>
        requires own { (taken put : ℕ → Sequence MessageOf) × IsStill S.keeps setup.now self.old.course.me taken put self.old }
        requires up { running_of self.old.course ≡ Up }
        requires peer { IsPeer setup.now self.old.course.me message.from }
        requires room { length self.old.course.entries < 100000 }
        ensures own { IfOk result (λ entry. (taken put : ℕ → Sequence MessageOf) → IsStill S.keeps setup.now self.old.course.me taken put self.old
            → IsStill S.keeps setup.now self.old.course.me (taking Up message taken) put self.new) }
        ensures answers { Answers (asks.Take message.from None) self.old.course self.new.course result }
        ensures asked { IfOk result (λ entry. entry.ask ≡ asks.Take message.from (Some message.number)) }
        ensures hands { self.new.hands ≡ self.old.hands }
        ensures costs { Costs (S.shows self.old.storage) (S.shows self.new.storage) (BreaksDisk result) }
        ensures still { OnErr result (StillKeeps (S.keeps self.old.storage setup.now.replicas) (S.keeps self.new.storage setup.now.replicas)) }
    {
        let ask = Ask::Take {
            from: message.from,
            number: Some(message.number),
        };
        let heard = Heard::Message(message);
        let Answer { entry, .. } = step_with(
            alloc,
            setup,
            &mut self.course,
            &mut self.storage,
            ask,
            &heard,
        )?;
        Ok(entry)
    }

    /// Takes a message that was left; a replica that is down takes none. After want of memory the
    /// message is gone.
    fn receive(
        &mut self,
        alloc: Global,
        setup: &Setup,
        message: Message,
    ) -> Result<StepEntry, NoMemory>
        requires own { (taken put : ℕ → Sequence MessageOf) × IsStill S.keeps setup.now self.old.course.me taken put self.old }
        requires peer { IsPeer setup.now self.old.course.me message.from }
        requires room { length self.old.course.entries < 100000 }
        ensures own { IfOk result (λ entry. (taken put : ℕ → Sequence MessageOf) → IsStill S.keeps setup.now self.old.course.me taken put self.old
            → (after : ℕ → Sequence MessageOf) × IsStill S.keeps setup.now self.old.course.me after put self.new × ((from : ℕ) → after from ≡ taking (running_of self.old.course) message taken from)) }
        ensures hands { self.new.hands ≡ self.old.hands }
        ensures answers { Answers (asks.Take message.from None) self.old.course self.new.course result }
        ensures closing { IfOk result (IsClosing message) }
        ensures down { IfOk result (λ entry. running_of self.old.course ≢ Up → running_of self.new.course ≢ Up) }
        ensures costs { Costs (S.shows self.old.storage) (S.shows self.new.storage) (BreaksDisk result) }
        ensures still { OnErr result (StillKeeps (S.keeps self.old.storage setup.now.replicas) (S.keeps self.new.storage setup.now.replicas)) }
    {
        if self.is_up() {
            self.take_this(alloc, setup, message)
        } else {
            self.act(
                alloc,
                setup,
                Ask::Take {
                    from: message.from,
                    number: None,
                },
            )
        }
    }

    /// Lets go of what is in hand of that replica, where it is down.
    fn let_go(&mut self, alloc: Global, setup: &Setup, from: u32) -> Result<StepEntry, NoMemory>
        requires own { (taken put : ℕ → Sequence MessageOf) × IsStill S.keeps setup.now self.old.course.me taken put self.old }
        requires down { running_of self.old.course ≢ Up }
        requires peer { IsPeer setup.now self.old.course.me from }
        requires room { length self.old.course.entries < 100000 }
        ensures stays { IfOk result (λ entry. (taken put : ℕ → Sequence MessageOf) → IsStill S.keeps setup.now self.old.course.me taken put self.old
            → (after : ℕ → Sequence MessageOf) × IsStill S.keeps setup.now self.old.course.me after put self.new × ((j : ℕ) → after j ≡ taken j)) }
        ensures hands { IfOk result (λ entry. self.new.hands ≡ slice_set self.old.hands from heards.Nothing) }
        ensures answers { Answers (asks.Take from None) self.old.course self.new.course result }
        ensures rests { IfOk result (λ entry. RestsDown (asks.Take from None) self.old.course entry self.new.course) }
        ensures costs { Costs (S.shows self.old.storage) (S.shows self.new.storage) (BreaksDisk result) }
        ensures still { OnErr result (StillKeeps (S.keeps self.old.storage setup.now.replicas) (S.keeps self.new.storage setup.now.replicas)) }
    {
        let entry = self.act(alloc, setup, Ask::Take { from, number: None })?;
        self.hands.set(from as usize, Heard::Nothing);
        Ok(entry)
    }

    /// Takes what is in hand of that replica, if anything is. One that is down takes nothing.
    fn receive_held(&mut self, alloc: Global, setup: &Setup, from: u32) -> Result<(), NoMemory>
        requires own { (taken put : ℕ → Sequence MessageOf) × IsStill S.keeps setup.now self.old.course.me taken put self.old }
        requires peer { IsPeer setup.now self.old.course.me from }
        requires room { length self.old.course.entries + length (in_hand self.old.hands from) ≤ 100000 }
        ensures { OnOk result (HasReceived S.keeps S.shows setup.now from (in_hand self.old.hands from) self.old self.new) }
    {
        if self.is_free(from) {
            return Ok(());
        }
        if self.is_up() {
            self.take_held(alloc, setup, from)?;
        } else {
            self.let_go(alloc, setup, from)?;
        }
        Ok(())
    }

    /// Takes the messages that were left on the link of a replica, in order, behind what is in hand of
    /// it. One that is down takes none of them.
    pub fn receive_all(
        &mut self,
        alloc: Global,
        setup: &Setup,
        from: u32,
        left: List<Message>,
    ) -> Result<(), NoMemory>
        requires own { (taken put : ℕ → Sequence MessageOf) × IsStill S.keeps setup.now self.old.course.me taken put self.old }
        requires peer { IsPeer setup.now self.old.course.me from }
        requires theirs { AllByRecursion (λ m. m.from ≡ from) left }
        requires room { length self.old.course.entries + length (in_hand self.old.hands from ++ left) ≤ 100000 }
        ensures { OnOk result (HasReceived S.keeps S.shows setup.now from (in_hand self.old.hands from ++ left) self.old self.new) }
    {
        self.receive_held(alloc, setup, from)?;
        for message in left.into_vec() {
            self.receive(alloc, setup, message)?;
        }
        Ok(())
    }

    /// What it did, how it stands, and its disk, which holds what its journal may have left.
    pub fn finish(self, alloc: Global, setup: &Setup) -> Result<Finished<S::D>, NoMemory>
        requires own { (taken put : ℕ → Sequence MessageOf) × IsStill S.keeps setup.now self.course.me taken put self }
        requires few { length self.course.entries ≤ 100000 }
        ensures history { IfOk result (λ finished. finished.history ≡ history_of setup.now self.course) }
        ensures shown { IfOk result (λ finished. S.shows self.storage ≡ shown_of (S.D.standing finished.disk)) }
        ensures journal { IfOk result (λ finished. IsTrue (S.D.standing finished.disk).tells
            → S.comes_back setup.now.replicas self.course.kept (running_of self.course) (S.D.standing finished.disk).bytes) }
    {
        let Still {
            course,
            storage,
            ..
        } = self;
        let history = course.finish(alloc, setup)?;
        Ok(Finished {
            history,
            disk: storage.into_disk(),
        })
    }
}
