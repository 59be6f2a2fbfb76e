//! A count of rights.

ghost use Rattle.std.specs.Prelude.{◌≡◌, ◌+◌, ◌<◌, ◌^◌};

use ind_base::{GiveError, NoMemory, RightKind};

/// How many rights to lower, or to raise, a cell are held.
#[derive(Clone, Copy)]
pub struct Escrow {
    pub count: u64,
}

impl Escrow {
    /// Adds rights that an operation creates.
    pub fn create(&mut self, n: u64)
        requires { self.old.count + n < 2 ^ 64 }
        ensures { self.new.count ≡ self.old.count + n }
    {
        self.count += n;
    }
}

impl RightKind for Escrow {
    ghost use Rattle.std.specs.Prelude.{nat_le, ◌-◌};

    type Ask = u64;

    type Piece = u64;

    ghost permits = { λ e n. nat_le n e.count };

    ghost counted = { λ e x. e.count };

    ghost counted_of = { λ n x. n };

    ghost held_of = { λ e n. e.count };

    ghost size = { λ n. n };

    ghost may_give = { λ e n. Unit {0} };

    ghost may_accept = { λ e n. e.count + n < 2 ^ 64 };

    ghost given = { λ e n new. new.count + n ≡ e.count };

    ghost accepted = { λ e n new. new.count ≡ e.count + n };

    ghost spent = { λ e n. record { count = e.count - n } };

    ghost room = { λ e. 1 };

    fn can(&self, n: &u64) -> bool {
        *n <= self.count
    }

    fn give(&mut self, n: &u64) -> Result<(), GiveError> {
        if self.count < *n {
            return Err(GiveError::Lacks { have: self.count });
        }
        self.count -= *n;
        Ok(())
    }

    fn accept(&mut self, n: &u64) -> Result<(), NoMemory> {
        self.count += *n;
        Ok(())
    }

    fn spend(&mut self, n: &u64) {
        self.count -= *n;
    }
}
