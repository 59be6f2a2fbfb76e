//! Links and passes that are made, link by link.

ghost use Rattle.std.specs.Prelude.{◌≡◌, ◌<◌, ◌≤◌, ◌+◌, ◌*◌, ℕ, IfOk, OnOk, All, length, slice_index};
ghost use Rattle.replica_wires.specs.Beginning.{AddsLink, AreEmpty, IsBegun};

use crate::letter::Letter;
use crate::passes::Passes;
use ind_base::NoMemory;
use replica_links::{Link, Made};
use std::alloc::Global;

/// The links that were made, row by row, and each replica's passes on them.
#[derive(Drop)]
pub(crate) struct Begun {
    pub(crate) links: Vec<Link<Letter>>,
    pub(crate) all: Vec<Passes>,
}

/// No passes, for each replica.
fn no_passes(alloc: Global, replicas: u32) -> Result<Vec<Passes>, NoMemory>
    ensures { IfOk result (λ all. AreEmpty replicas all.items) }
{
    let mut all = Vec::new(alloc);
    for _replica in 0..replicas {
        all.push(Passes {
            puts: Vec::new(alloc),
            gets: Vec::new(alloc),
        })?;
    }
    Ok(all)
}

impl Begun {
    /// No links.
    pub(crate) fn new(alloc: Global, replicas: u32) -> Result<Begun, NoMemory>
        ensures { (rooms : _) → IfOk result (λ begun. IsBegun rooms replicas 0 0 begun) }
    {
        let all = no_passes(alloc, replicas)?;
        Ok(Begun {
            links: Vec::new(alloc),
            all,
        })
    }

    /// Makes the link from one replica to another.
    fn add_link(&mut self, alloc: Global, from: u32, to: u32, room: u32) -> Result<(), NoMemory>
        requires room { 0 < room }
        requires within { (from < length self.old.all.items) × (to < length self.old.all.items) }
        ensures { OnOk result (AddsLink from to room self.old self.new) }
    {
        let Made { link, put, get } = Link::begin(alloc, room)?;
        self.links.push(link)?;
        self.all[from as usize].puts.push(put)?;
        self.all[to as usize].gets.push(get)?;
        Ok(())
    }

    /// Makes the links from one replica.
    pub(crate) fn add_row(
        &mut self,
        alloc: Global,
        replicas: u32,
        from: u32,
        rooms: &[u32],
    ) -> Result<(), NoMemory>
        requires few { (from < replicas) × (replicas ≤ 8) }
        requires rooms { length rooms.now ≡ replicas * replicas }
        requires some_room { All (λ room. 0 < room) rooms.now }
        requires begun { IsBegun rooms.now replicas from 0 self.old }
        ensures { OnOk result (IsBegun rooms.now replicas (from + 1) 0 self.new) }
    {
        for to in 0..replicas {
            let room = rooms[(from * replicas + to) as usize];
            self.add_link(alloc, from, to, room)?;
        }
        Ok(())
    }
}
