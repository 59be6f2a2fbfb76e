//! The replicas of a schedule.

ghost use Rattle.std.specs.Prelude.{◌≡◌, ◌≢◌, ◌<◌, ◌≤◌, ◌++◌, ◌∷◌, [], ℕ, IfOk, IsTrue, List, OnErr, OnOk, Option, Some, length, map, slice_get};
ghost use Rattle.std.specs.List.{AllByRecursion};
ghost use Rattle.run_model.specs.declared.step.Order.{Order as OrderOf};
ghost use Rattle.run_model.specs.Fitting.{SetupFits};
ghost use Rattle.run_model.specs.Sound.{IsSettled};
ghost use Rattle.batch_storage.specs.Shown.{shown_of};
ghost use Rattle.ind_disk.specs.Bay.{IsEmpty, TellsAll};
ghost use Rattle.scenario_text.specs.Numbered.{IsNumbered};
ghost use Rattle.scenario_text.specs.WellFormed.{OrderFits};
ghost use Rattle.replica_course.specs.declared.course.Course.{Course as CourseOf};
ghost use Rattle.replica_course.specs.declared.heard.Heard.{Heard as HeardOf};
ghost use Rattle.replica_course.specs.Courses.{history_of, running_of};
ghost use Rattle.replica_world.specs.Begun.{HasBegun};
ghost use Rattle.replica_world.specs.Ended.{AreDisksOf, CanShow};

use crate::links::{in_hand, leave_room, make_room, no_links, put_sent};
use batch_storage::Storage;
use ind_base::{List as Items, NoMemory};
use message_laws::messages_are_heeded;
use replica_core::decided_grow;
use replica_course::{Answer, Course, Heard};
use run_model::{Ask, History, StepEntry, local_step_is_one};
use spec_model::Setup;
use std::alloc::Global;

/// The replicas of a schedule, the storage of each, and all that they sent so far.
#[derive(Drop)]
pub struct World<S: Storage> {
    pub(crate) courses: Vec<Course>,
    pub(crate) storages: Vec<S>,
    pub(crate) links: Vec<Items<Heard>>,
}

/// What the replicas did and how they stand at the end, and their disks, in order of the replicas.
#[derive(Drop)]
pub struct Ended<D> {
    pub histories: Items<History>,
    pub disks: Vec<D>,
}

/// A replica before its first step, with the storage on its disk.
fn begin_one<S: Storage + Drop>(
    alloc: Global,
    setup: &Setup,
    me: u32,
    disk: S::D,
) -> Result<(Course, S), NoMemory>
    requires fits { SetupFits setup.now }
    requires place { me < setup.now.replicas }
    requires few { setup.now.replicas ≤ 8 }
    requires empty { IsEmpty (S.D.standing disk) (S.D.may_leave disk) }
    ensures { IfOk result (λ made. HasBegun S.D.standing S.shows S.keeps setup.now me disk made.0 made.1) }
{
    let (storage, up) = S::begin(alloc, disk, setup.replicas)?;
    let course = Course::begin(alloc, setup, me, up)?;
    Ok((course, storage))
}

/// What the replicas did, and how they stand.
fn histories(alloc: Global, setup: &Setup, courses: Vec<Course>) -> Result<Items<History>, NoMemory>
    requires can { CanShow setup.now courses.items }
    ensures { IfOk result (λ histories. histories ≡ map (history_of setup.now) courses.items) }
{
    let mut histories = Items::new(alloc);
    for course in courses {
        let _so_far = histories.as_slice();
        histories.push(course.finish(alloc, setup)?)?;
    }
    Ok(histories)
}

/// The disks of storages.
fn disks_of<S: Storage + Drop>(alloc: Global, storages: Vec<S>) -> Result<Vec<S::D>, NoMemory>
    ensures { IfOk result (λ disks. AreDisksOf S.D.standing S.shows S.keeps S.comes_back storages.items disks.items) }
{
    let mut disks = Vec::new(alloc);
    for storage in storages {
        disks.push(storage.into_disk())?;
    }
    Ok(disks)
}

impl<S: Storage + Drop> World<S> {
    ghost use Rattle.replica_world.specs.Stepping.{AreAsBefore, IsDue, StaysAt, StepsAt, with_room};
    ghost use Rattle.replica_world.specs.Worlds.{AreKept, AreRunning, HasStopsAt, StillKeepsAt};

    /// The replicas before their first steps, each on its empty disk. One whose disk fails begins
    /// down.
    pub fn begin(alloc: Global, setup: &Setup, disks: Vec<S::D>) -> Result<World<S>, NoMemory>
        requires fits { SetupFits setup.now }
        requires few { setup.now.replicas ≤ 8 }
        requires whole { length disks.items ≡ setup.now.replicas }
        requires empty { AllByRecursion (λ d. IsEmpty (S.D.standing d) (S.D.may_leave d)) disks.items }
        ensures running { IfOk result (λ w. AreRunning setup.now [] w.courses.items w.links.items) }
        ensures kept { IfOk result (λ w. AreKept S.keeps setup.now w.courses.items w.storages.items) }
        ensures stops { IfOk result (λ w. (me given : ℕ) → ((d : _) → slice_get disks.items me ≡ Some d → TellsAll given (S.D.standing d)) → HasStopsAt S.shows w.courses.items w.storages.items me given) }
    {
        let links = no_links(alloc)?;
        let mut courses = Vec::new(alloc);
        let mut storages = Vec::new(alloc);
        let mut me = 0;
        for disk in disks {
            let (course, storage) = begin_one::<S>(alloc, setup, me, disk)?;
            courses.push(course)?;
            storages.push(storage)?;
            me += 1;
        }
        Ok(World {
            courses,
            storages,
            links,
        })
    }

    /// Lets a replica take a step, on links with room for what it sends, which isn't there yet.
    fn answer(
        &mut self,
        alloc: Global,
        setup: &Setup,
        me: u32,
        ask: &Ask,
    ) -> Result<Answer, NoMemory>
        requires due { (links : List (List HeardOf)) × (done : List OrderOf) × IsDue setup.now done (record { replica = me; ask = ask.now }) self.old.courses.items links × (self.old.links.items ≡ with_room links me ask.now) }
        requires few { setup.now.replicas ≤ 8 }
        requires kept { AreKept S.keeps setup.now self.old.courses.items self.old.storages.items }
        ensures links { self.new.links.items ≡ self.old.links.items }
        ensures steps { IfOk result (λ answer. StepsAt setup.now me ask.now self.old.links.items self.old.courses.items answer self.new.courses.items) }
        ensures err { OnErr result (StaysAt setup.now me self.old.courses.items self.new.courses.items) }
        ensures still { OnErr result (StillKeepsAt S.keeps setup.now me self.old.storages.items self.new.storages.items) }
        ensures kept { AreKept S.keeps setup.now self.new.courses.items self.new.storages.items }
        ensures others { (r : ℕ) → r ≢ me → slice_get self.new.storages.items r ≡ slice_get self.old.storages.items r }
        ensures stops { (r given : ℕ) → HasStopsAt S.shows self.old.courses.items self.old.storages.items r given → HasStopsAt S.shows self.new.courses.items self.new.storages.items r given }
    {
        let nothing = Heard::Nothing;
        let course = &mut self.courses[me as usize];
        let heard = in_hand(&self.links, &nothing, course, me, ask);
        course.step(alloc, setup, &mut self.storages[me as usize], *ask, heard)
    }

    /// Takes a step at a replica: the next line of the schedule. A send is numbered by the steps of
    /// this replica that sent to that peer before, and a take names such a step of its peer. A
    /// refusal for want of memory leaves all as it was, but that a recovery may have restarted the
    /// disk: the next line may follow.
    pub fn step(
        &mut self,
        alloc: Global,
        setup: &Setup,
        replica: u32,
        ask: Ask,
    ) -> Result<StepEntry, NoMemory>
        requires settled { IsSettled setup.now }
        requires few { setup.now.replicas ≤ 8 }
        requires fits { OrderFits setup.now.spec setup.now.replicas (record { replica = replica; ask = ask }) }
        requires running { (done : List OrderOf) × AreRunning setup.now done self.old.courses.items self.old.links.items × IsNumbered done (record { replica = replica; ask = ask }) × (length done < 100000) }
        requires kept { AreKept S.keeps setup.now self.old.courses.items self.old.storages.items }
        ensures running { OnOk result ((done : List OrderOf) → AreRunning setup.now done self.old.courses.items self.old.links.items → IsNumbered done (record { replica = replica; ask = ask }) → length done < 100000
            → AreRunning setup.now (done ++ record { replica = replica; ask = ask } ∷ []) self.new.courses.items self.new.links.items) }
        ensures kept { AreKept S.keeps setup.now self.new.courses.items self.new.storages.items }
        ensures others { (r : ℕ) → r ≢ replica → slice_get self.new.storages.items r ≡ slice_get self.old.storages.items r }
        ensures stops { (me given : ℕ) → HasStopsAt S.shows self.old.courses.items self.old.storages.items me given → HasStopsAt S.shows self.new.courses.items self.new.storages.items me given }
        ensures err { OnErr result (AreAsBefore self.old.courses.items self.new.courses.items × (self.new.links.items ≡ self.old.links.items)) }
        ensures still { OnErr result (StillKeepsAt S.keeps setup.now replica self.old.storages.items self.new.storages.items) }
        ensures running_still { OnErr result ((done : List OrderOf) → AreRunning setup.now done self.old.courses.items self.old.links.items → AreRunning setup.now done self.new.courses.items self.new.links.items) }
    {
        local_step_is_one();
        messages_are_heeded();
        decided_grow();
        make_room(&mut self.links, replica, &ask)?;
        match self.answer(alloc, setup, replica, &ask) {
            Ok(Answer { entry, sent }) => {
                put_sent(&mut self.links, replica, &ask, entry.stamp, sent);
                Ok(entry)
            }
            Err(refusal) => {
                leave_room(&mut self.links, replica, &ask);
                Err(refusal)
            }
        }
    }

    /// What the replicas did, how they stand, and their disks.
    pub fn finish(self, alloc: Global, setup: &Setup) -> Result<Ended<S::D>, NoMemory>
        requires running { (done : List OrderOf) × AreRunning setup.now done self.courses.items self.links.items × (length done ≤ 100000) }
        requires kept { AreKept S.keeps setup.now self.courses.items self.storages.items }
        ensures histories { IfOk result (λ ended. ended.histories ≡ map (history_of setup.now) self.courses.items) }
        ensures whole { IfOk result (λ ended. length ended.disks.items ≡ setup.now.replicas) }
        ensures shown { IfOk result (λ ended. (me : ℕ) (s : _) (d : _) → slice_get self.storages.items me ≡ Some s → slice_get ended.disks.items me ≡ Some d → S.shows s ≡ shown_of (S.D.standing d)) }
        ensures journals { IfOk result (λ ended. (me : ℕ) (c : CourseOf) (d : _) → slice_get self.courses.items me ≡ Some c → slice_get ended.disks.items me ≡ Some d
            → IsTrue (S.D.standing d).tells → S.comes_back setup.now.replicas c.kept (running_of c) (S.D.standing d).bytes) }
    {
        let World {
            courses,
            storages,
            ..
        } = self;
        let histories = histories(alloc, setup, courses)?;
        let disks = disks_of(alloc, storages)?;
        Ok(Ended { histories, disks })
    }
}
