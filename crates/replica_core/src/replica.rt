//! A replica of a run.

ghost use Rattle.std.specs.Prelude.{◌≡◌, ◌<◌, ◌≤◌, ◌++◌, ◌∷◌, [], true, List, IfOk, OnOk, length, map, replicate, slice_set};
ghost use Rattle.spec_model.specs.declared.log.LogItem.{LogItem as ItemOf};
ghost use Rattle.spec_model.specs.declared.log.Body.{Body as BodyOf};
ghost use Rattle.run_model.specs.Fitting.{BodyFits, SetupFits};
ghost use Rattle.run_model.specs.Logs.{item_at};
ghost use Rattle.run_model.specs.Worlds.{first_standing, no_cut};
ghost use Rattle.causal_store.specs.Stores.{HasRoomFor, IsStore};
ghost use Rattle.rights_table.specs.Whole.{HasEntryFor};
ghost use Rattle.message_laws.specs.Views.{item_of};

use causal_store::Store;
use ind_base::{Cut, List as Items, NoMemory};
use message_laws::needs_fit;
use rights_table::{Table, tables_learn};
use rights_transfer::Wants;
use spec_model::{Body, LogItem, Need, Setup, Spec};
use std::alloc::Global;

/// A replica: what it has applied, what it holds, what it wants, and what the others told it that
/// they have seen.
#[derive(Drop)]
pub struct Replica {
    pub(crate) me: u32,
    pub(crate) store: Store,
    pub(crate) table: Table,
    /// The needs of the act for which room was made.
    pub(crate) needs: Items<Need>,
    /// What it lacked, at most 8 wants.
    pub(crate) wants: Wants,
    /// The greatest cut that each replica told it.
    pub(crate) told: Items<Cut>,
}

/// A cut of nothing.
fn no_cut_of(replicas: u32) -> Cut
    requires { replicas ≤ 16 }
    ensures { result ≡ no_cut replicas }
{
    let mut cut = Cut::new();
    for _i in 0..replicas {
        cut.push(0);
    }
    cut
}

/// Nothing was told by so many replicas.
fn nothing_told(alloc: Global, replicas: u32) -> Result<Items<Cut>, NoMemory>
    requires { replicas ≤ 16 }
    ensures { IfOk result (λ told. told ≡ replicate replicas (no_cut replicas)) }
{
    let cut = no_cut_of(replicas);
    let mut told = Items::new(alloc);
    for _i in 0..replicas {
        told.push(cut)?;
    }
    Ok(told)
}

impl Replica {
    ghost use Rattle.replica_core.specs.Replicas.{HasLogged, HasLoggedAll, HasRoom, IsReplica, known_to, own_log, standing_of, view_of};
    ghost use Rattle.replica_core.specs.Next.{AreEntered, AreNext, HasPut, IsNext, body_of, taken_by};

    /// A replica before its first step.
    pub fn begin(alloc: Global, setup: &Setup, me: u32) -> Result<Replica, NoMemory>
        requires setup { SetupFits setup.now }
        requires place { me < setup.now.replicas }
        requires few { setup.now.replicas ≤ 16 }
        ensures own { IfOk result (IsReplica setup.now me) }
        ensures stands { IfOk result (λ r. standing_of 0 [] [] r ≡ first_standing setup.now.replicas true) }
        ensures knows { IfOk result (λ r. known_to r ≡ replicate setup.now.replicas []) }
    {
        let store = Store::begin(alloc, &setup.spec, setup.replicas)?;
        let wants = Wants::begin(alloc)?;
        let told = nothing_told(alloc, setup.replicas)?;
        Ok(Replica {
            me,
            store,
            table: Table::begin(alloc, setup, me),
            needs: Items::new(alloc),
            wants,
            told,
        })
    }

    /// Which replica it is, from 0.
    pub fn me(&self) -> u32
        ensures { result ≡ self.now.me }
    {
        self.me
    }

    /// Its next item, with all that it has seen in its past.
    pub(crate) fn next(&self, body: Body) -> LogItem
        requires place { self.now.me < length (known_to self.now) }
        requires room { HasRoom 0 self.now }
        ensures { result ≡ item_of (view_of self.now) body }
    {
        LogItem {
            origin: self.me,
            index: self.store.log(self.me).len() as u32,
            deps: self.store.cut(),
            body,
        }
    }

    /// Puts its next item at the end of its own log.
    fn append(&mut self, spec: &Spec, item: &LogItem)
        requires store { IsStore spec.now (length (known_to self.old)) self.old.store }
        requires place { self.old.me < length (known_to self.old) }
        requires next { (b : BodyOf) × (item.now ≡ item_of (view_of self.old) b) }
        requires room { HasRoom 1 self.old }
        requires ready { (items : List ItemOf) × HasRoomFor self.old.store (item.now ∷ items) }
        ensures kept { self.new ≡ record self.old { store = self.new.store } }
        ensures logs { known_to self.new ≡ slice_set (known_to self.old) self.old.me (own_log self.old ++ item.now ∷ []) }
        ensures store { IsStore spec.now (length (known_to self.old)) self.new.store }
        ensures ready { (items : List ItemOf) → HasRoomFor self.old.store (item.now ∷ items) → HasRoomFor self.new.store items }
    {
        self.store.apply(spec, item);
    }

    /// The body of an item of a log.
    fn body_at(&self, from: u32, index: u32) -> Option<Body>
        requires { from < length (known_to self.now) }
        ensures { result ≡ body_of (item_at (known_to self.now) from index) }
    {
        match self.store.log(from).get(index as usize) {
            Some(item) => Some(item.body),
            None => None,
        }
    }

    /// The body of the item that a body accepts.
    fn accepted(&self, setup: &Setup, body: &Body) -> Option<Body>
        requires own { IsReplica setup.now self.now.me self.now }
        requires fits { BodyFits setup.now body.now }
        ensures { result ≡ taken_by (known_to self.now) body.now }
    {
        match *body {
            Body::Accept { from, index } => self.body_at(from, index),
            Body::Act(_) => None,
            Body::Out { .. } => None,
        }
    }

    /// Logs its next item.
    fn put(&mut self, setup: &Setup, item: &LogItem)
        requires own { IsReplica setup.now self.old.me self.old }
        requires next { IsNext setup.now (known_to self.old) self.old.me self.old.needs (standing_of 0 [] [] self.old) item.now }
        requires entry { HasEntryFor setup.now item.now.body (taken_by (known_to self.old) item.now.body) self.old.needs self.old.table }
        requires room { HasRoom 1 self.old }
        requires ready { (items : List ItemOf) × HasRoomFor self.old.store (item.now ∷ items) }
        ensures logged { HasLogged setup.now item.now.body self.old self.new }
        ensures put { HasPut self.old self.new }
        ensures ready { (items : List ItemOf) → HasRoomFor self.old.store (item.now ∷ items) → HasRoomFor self.new.store items }
    {
        needs_fit();
        tables_learn();
        let of = self.accepted(setup, &item.body);
        self.table.own(setup, &item.body, of, self.needs.as_slice());
        self.append(&setup.spec, item);
    }

    /// Logs its next items, one after the other.
    pub(crate) fn put_all(&mut self, setup: &Setup, items: &[LogItem])
        requires own { IsReplica setup.now self.old.me self.old }
        requires next { AreNext setup.now (known_to self.old) self.old.me self.old.needs (standing_of 0 [] [] self.old) items.now }
        requires entries { AreEntered setup.now (known_to self.old) self.old.needs self.old.table items.now }
        requires room { HasRoom (length items.now) self.old }
        requires ready { (more : List ItemOf) × HasRoomFor self.old.store (items.now ++ more) }
        ensures logged { HasLoggedAll setup.now (map (λ item. item.body) items.now) self.old self.new }
        ensures put { HasPut self.old self.new }
        ensures ready { (more : List ItemOf) → HasRoomFor self.old.store (items.now ++ more) → HasRoomFor self.new.store more }
    {
        for item in items {
            self.put(setup, item);
        }
    }
}
