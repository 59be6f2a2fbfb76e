//! One replica's ends of the links between it and all others.

ghost use Rattle.std.specs.Prelude.{◌≡◌, ◌≢◌, ◌<◌, ◌++◌, ◌∷◌, ◌+◌, [], IfSome, IfNone, OnOk, OnErr, length, is_ok};
ghost use Rattle.replica_wires.specs.Passing.{ArePassesOf, got_from, idle_in, put_for};
ghost use Rattle.replica_wires.specs.Webs.{replicas_of, room_on};

use crate::letter::{letter_of, message_of};
use crate::passes::Passes;
use crate::web::Web;
use replica_node::{Ends, Full};
use run_model::Message;
use std::sync::Wait;

/// Whose ends wires are: the replica, and the links with which its passes were made. No value of it
/// is made.
pub struct Place {
    pub me: u32,
    pub web: Web,
}

/// One replica's ends of the links between it and all others, with what its calls wait by.
#[derive(Drop)]
pub struct Wires<'a, R: Wait> {
    rt: &'a R,
    web: &'a Web,
    me: u32,
    passes: Passes,
    ghost own: { ArePassesOf web.now me passes },
}

impl<'a, R: Wait> Wires<'a, R> {
    ghost use Rattle.replica_wires.specs.Ends.{passes_of, place_of};

    /// The ends of a replica that has these passes.
    pub fn begin(rt: &'a R, web: &'a Web, me: u32, passes: Passes) -> Wires<'a, R>
        requires own { ArePassesOf web.now me passes }
        ensures place { place_of result ≡ record { me = me; web = web.now } }
        ensures passes { passes_of result ≡ passes }
    {
        Wires {
            rt,
            web,
            me,
            passes,
        }
    }

    /// Gives the passes back.
    pub fn into_passes(self) -> Passes
        ensures passes { result ≡ passes_of self.entry }
        ensures own { ArePassesOf (place_of self.entry).web (place_of self.entry).me result }
    {
        self.passes
    }
}

impl<'a, R: Wait> Ends for Wires<'a, R> {
    ghost use Rattle.replica_wires.specs.Ends.{passes_of, place_of};

    type Mark = Place;

    ghost mark = { λ wires. place_of wires };

    ghost owner = { λ place. place.me };

    ghost reaches = { λ place peer. (peer < replicas_of place.web) × (peer ≢ place.me) };

    ghost room = { λ place peer. room_on place.web place.me peer };

    ghost puts = { λ wires. put_for (place_of wires).me (passes_of wires) };

    ghost gots = { λ wires. got_from (place_of wires).me (passes_of wires) };

    ghost idles = { λ wires. idle_in (passes_of wires) };

    fn put(&mut self, message: Message) -> Result<(), Full> {
        let to = message.to;
        let link = self.web.link(self.me, to);
        let pass = &mut self.passes.puts[to as usize];
        match link.put(self.rt, pass, letter_of(message)) {
            Ok(()) => Ok(()),
            Err(full) => Err(Full {
                message: message_of(self.me, to, full.message),
            }),
        }
    }

    fn get(&mut self, from: u32) -> Option<Message> {
        let link = self.web.link(from, self.me);
        let pass = &mut self.passes.gets[from as usize];
        match link.get(self.rt, pass) {
            Some(letter) => Some(message_of(from, self.me, letter)),
            None => None,
        }
    }
}
