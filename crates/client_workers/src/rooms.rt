//! The rooms of the links between replicas.

ghost use Rattle.std.specs.Prelude.{◌≡◌, ◌<◌, ◌≤◌, ◌+◌, ◌*◌, ◌++◌, ℕ, IfOk, OnOk, All, length, slice_index};
ghost use Rattle.client_asks.specs.Asking as asking;
ghost use Rattle.client_asks.specs.Asking.{sends_in};
ghost use Rattle.client_workers.specs.Rooms as linking;
ghost use Rattle.client_workers.specs.Rooms.{all_rooms, first_rooms};

use client_asks::{courier_asks, sends_over};
use ind_base::{List, NoMemory};
use run_model::Ask;
use std::alloc::Global;

/// How many messages the link to a replica has room for, from the one whose courier is asked this. It is
/// some even where nothing is sent, since no link is made without room.
fn room_for(asks: &[Ask], to: u32) -> u32
    requires few { length asks.now ≤ 100000 }
    ensures { result ≡ linking.room_for asks.now to }
{
    let sends = sends_over(asks, to);
    if sends == 0 { 1 } else { sends }
}

/// Adds the rooms of the links from the replica whose courier is asked this.
fn add_row(rooms: &mut List<u32>, replicas: u32, asks: &[Ask]) -> Result<(), NoMemory>
    requires few { length asks.now ≤ 100000 }
    ensures { OnOk result (rooms.new ≡ rooms.old ++ first_rooms asks.now replicas) }
{
    for to in 0..replicas {
        rooms.push(room_for(asks, to))?;
    }
    Ok(())
}

/// How many messages each link between replicas has room for, row by row: that from one replica to
/// another stands at `from * replicas + to`, and has room for all that the first one's courier sends
/// there, whether or not any of it is taken. Each replica has a link to itself as well, which is not used.
pub fn rooms_of(alloc: Global, replicas: u32, turns: u32) -> Result<List<u32>, NoMemory>
    requires few { replicas ≤ 8 }
    requires few_turns { turns ≤ 10000 }
    ensures rooms { IfOk result (λ rooms. rooms ≡ all_rooms replicas turns) }
    ensures len { IfOk result (λ rooms. length rooms ≡ replicas * replicas) }
    ensures some { IfOk result (λ rooms. All (λ room. 0 < room) rooms) }
    ensures enough { IfOk result (λ rooms. (from to : ℕ) → from < replicas → to < replicas → sends_in to (asking.courier_asks replicas from turns) ≤ slice_index rooms (from * replicas + to)) }
{
    let mut rooms = List::new(alloc);
    for from in 0..replicas {
        let asks = courier_asks(alloc, replicas, from, turns)?;
        add_row(&mut rooms, replicas, asks.as_slice())?;
    }
    Ok(rooms)
}
