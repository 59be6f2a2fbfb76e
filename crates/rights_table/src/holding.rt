//! A holding of one right, of any kind.

ghost use Rattle.std.specs.Prelude.{◌≡◌, ◌+◌, ◌<◌, ◌≤◌, ◌^◌, ℕ, true, IfOk};
ghost use Rattle.multilevel_locks.specs.Holdings as shares_of;

use escrow_rights::Escrow;
use ind_base::{NoMemory, RightKind, Span};
use multilevel_locks::{Shares, SharesPiece, mode_permits};
use partition_locks::Points;
use spec_model::{Amount, Held, Mode, Piece, WantAsk};
use std::alloc::Global;

/// What is held of one right: a count, shares in a mode, or points.
#[derive(Drop)]
pub enum Holding {
    Count(Escrow),
    Shares(Shares),
    Points(Points),
}

/// Some shares in a mode.
fn in_mode(shares: u32, mode: Mode) -> SharesPiece
    ensures { result ≡ record { shares = shares; mode = mode } }
{
    SharesPiece { shares, mode }
}

/// Gives some of a count.
fn give_count(escrow: &mut Escrow, n: u64)
    requires { n ≤ escrow.old.count }
    ensures { escrow.new.count + n ≡ escrow.old.count }
{
    match escrow.give(&n) {
        Ok(()) => {}
        Err(_) => unreachable!(),
    }
}

/// Gives some shares.
fn give_shares(held: &mut Shares, piece: SharesPiece)
    requires mode { piece.mode ≡ held.old.mode }
    requires held { piece.shares ≤ held.old.shares }
    ensures { shares_of.IsLess held.old piece held.new }
{
    match held.give(&piece) {
        Ok(()) => {}
        Err(_) => unreachable!(),
    }
}

/// Accepts some more of a count.
fn accept_count(escrow: &mut Escrow, n: u64)
    requires { escrow.old.count + n < 2 ^ 64 }
    ensures { escrow.new.count ≡ escrow.old.count + n }
{
    match escrow.accept(&n) {
        Ok(()) => {}
        Err(_) => unreachable!(),
    }
}

/// Accepts some shares.
fn accept_shares(held: &mut Shares, piece: SharesPiece)
    requires { shares_of.Joins held.old piece }
    ensures { shares_of.IsMore held.old piece held.new }
{
    match held.accept(&piece) {
        Ok(()) => {}
        Err(_) => unreachable!(),
    }
}

impl Holding {
    ghost use Rattle.rights_table.specs.First.{IsOfSome, IsSame};
    ghost use Rattle.rights_table.specs.Holdings as holdings;
    ghost use Rattle.run_model.specs.Holding.{span_in};
    ghost use Rattle.run_model.specs.Levels as levels;

    /// What is told of it, of points those of a span.
    pub(crate) fn told(&self, span: &Span) -> Held
        ensures { result ≡ holdings.told self.now span.now }
    {
        match self {
            Holding::Count(escrow) => Held::Count(escrow.count),
            Holding::Shares(shares) => Held::Shares {
                shares: shares.shares,
                mode: shares.mode,
            },
            Holding::Points(points) => {
                let (missing, run) = points.first_both(span);
                Held::Points { missing, run }
            }
        }
    }

    /// Whether it permits an amount, where so many are all shares. Of points no run is sought.
    pub(crate) fn allows(&self, all: u32, amount: &Amount) -> bool
        ensures { result ≡ levels.permits all (holdings.told self.now (span_in amount.now)) amount.now }
    {
        match (self, amount) {
            (Holding::Count(escrow), Amount::Count(n)) => *n <= escrow.count,
            (Holding::Shares(shares), Amount::Level(level)) => {
                shares.shares == all || (shares.shares > 0 && mode_permits(shares.mode, *level))
            }
            (Holding::Points(points), Amount::Points(span)) => points.first_missing(span).is_none(),
            _ => false,
        }
    }

    /// The same in a value of its own.
    pub(crate) fn copy(&self, alloc: Global) -> Result<Holding, NoMemory>
        requires { IsOfSome self.now }
        ensures { IfOk result (IsSame self.now) }
    {
        match self {
            Holding::Count(escrow) => Ok(Holding::Count(*escrow)),
            Holding::Shares(shares) => Ok(Holding::Shares(*shares)),
            Holding::Points(points) => Ok(Holding::Points(points.copy_roomy(alloc)?)),
        }
    }

    /// Adds rights that an operation creates. What it has no count of stays.
    pub(crate) fn create(&mut self, n: u64)
        requires small { holdings.count_of self.old + n < 2 ^ 64 }
        requires kind { holdings.is_count self.old ≡ true }
        ensures count { holdings.count_of self.new ≡ holdings.count_of self.old + n }
        ensures kind { holdings.is_count self.new ≡ true }
    {
        match self {
            Holding::Count(escrow) => escrow.create(n),
            Holding::Shares(_) => unreachable!(),
            Holding::Points(_) => unreachable!(),
        }
    }

    /// Gives a piece away.
    pub(crate) fn give(&mut self, piece: &Piece)
        requires { holdings.MayGive self.old piece.now }
        ensures { holdings.Given self.old piece.now self.new }
    {
        match self {
            Holding::Count(escrow) => match *piece {
                Piece::Count(n) => give_count(escrow, n),
                _ => unreachable!(),
            },
            Holding::Shares(held) => match *piece {
                Piece::Shares { shares, mode } => give_shares(held, in_mode(shares, mode)),
                _ => unreachable!(),
            },
            Holding::Points(points) => match *piece {
                Piece::Points(span) => points.take_points(&span),
                _ => unreachable!(),
            },
        }
    }

    /// Accepts a piece that another replica gave.
    pub(crate) fn accept(&mut self, piece: &Piece)
        requires { holdings.MayAccept self.old piece.now }
        ensures { holdings.Accepted self.old piece.now self.new }
    {
        match self {
            Holding::Count(escrow) => match *piece {
                Piece::Count(n) => accept_count(escrow, n),
                _ => unreachable!(),
            },
            Holding::Shares(held) => match *piece {
                Piece::Shares { shares, mode } => accept_shares(held, in_mode(shares, mode)),
                _ => unreachable!(),
            },
            Holding::Points(points) => match *piece {
                Piece::Points(span) => points.put_points(&span),
                _ => unreachable!(),
            },
        }
    }

    /// Does with it what was asked, which it permits.
    pub(crate) fn spend(&mut self, ask: &WantAsk)
        requires { holdings.permits self.old ask.now ≡ true }
        ensures { self.new ≡ holdings.spent self.old ask.now }
    {
        match self {
            Holding::Count(escrow) => match *ask {
                WantAsk::Count(n) => escrow.spend(&n),
                _ => unreachable!(),
            },
            Holding::Shares(shares) => match *ask {
                WantAsk::Level(level) => shares.spend(&level),
                _ => unreachable!(),
            },
            Holding::Points(_) => unreachable!(),
        }
    }
}
