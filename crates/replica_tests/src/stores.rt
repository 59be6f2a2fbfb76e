//! Stores that apply acts one by one.

ghost use Rattle.std.specs.Prelude.{◌≡◌, ◌<◌, ◌≤◌, IfOk, IsTrue, OnOk, length};
ghost use Rattle.spec_model.specs.Fits.{InstFits, IsWellFormed};
ghost use Rattle.causal_store.specs.Stores.{IsShort, IsStore, logs_in};

use crate::shop::{atom, stock};
use causal_store::Store;
use effect_model::{atom_fits, cell_fits};
use ind_base::{Cut, NoMemory};
use spec_model::{Body, Inst, LogItem, Spec};
use std::alloc::Global;

/// A store of two replicas with no items.
pub(crate) fn empty(alloc: Global, spec: &Spec) -> Result<Store, NoMemory>
    requires { IsWellFormed spec.now }
    ensures { IfOk result (IsStore spec.now 2) }
{
    Store::begin(alloc, spec, 2)
}

/// A cut of two replicas.
pub(crate) fn cut(first: u32, second: u32) -> Cut
    ensures { length result ≡ 2 }
{
    let mut cut = Cut::new();
    cut.push(first);
    cut.push(second);
    cut
}

/// Applies the next act of a replica, with this past.
pub(crate) fn put(
    spec: &Spec,
    store: &mut Store,
    origin: u32,
    deps: Cut,
    inst: &Inst,
) -> Result<(), NoMemory>
    requires own { IsStore spec.now 2 store.old }
    requires place { origin < 2 }
    requires past { length deps ≡ 2 }
    requires fits { InstFits spec.now inst.now }
    ensures { OnOk result (IsStore spec.now 2 store.new) }
{
    let index = store.log(origin).len();
    if index > 1000 {
        return Err(NoMemory);
    }
    let item = LogItem {
        origin,
        index: index as u32,
        deps,
        body: Body::Act(*inst),
    };
    store.ready(&[item])?;
    store.apply(spec, &item);
    Ok(())
}

/// Whether no log has more items than a sum of their changes can bear.
fn is_short(store: &Store) -> bool
    requires { length (logs_in store.now) ≡ 2 }
    ensures { IsTrue result → IsShort store.now }
{
    store.log(0).len() <= 1000 && store.log(1).len() <= 1000
}

/// The same in a store of its own.
pub(crate) fn copy(alloc: Global, spec: &Spec, store: &Store) -> Result<Store, NoMemory>
    requires { IsStore spec.now 2 store.now }
    ensures { IfOk result (IsStore spec.now 2) }
{
    store.copy(alloc)
}

/// Whether an item is open there.
pub(crate) fn is_open(spec: &Spec, store: &Store, item: u32) -> bool
    requires { IsStore spec.now 2 store.now }
{
    let open = atom(0, item);
    atom_fits(spec, &open) && store.truth(spec, &open)
}

/// How many of an item there are, if that can be told.
pub(crate) fn stock_of(spec: &Spec, store: &Store, item: u32) -> Option<i64>
    requires well_formed { IsWellFormed spec.now }
    requires own { IsStore spec.now 2 store.now }
{
    let cell = stock(item);
    if !cell_fits(spec, &cell) || !is_short(store) {
        return None;
    }
    Some(store.value(spec, &cell))
}
