//! What is asked for where a need isn't met.

ghost use Rattle.std.specs.Prelude.{◌≡◌};
ghost use Rattle.run_model.specs.Wants as wanted;

use spec_model::{Amount, Held, Level, Need, Want, WantAsk};

/// What is asked for where an amount is lacking.
fn ask_of(amount: &Amount) -> WantAsk
    ensures { result ≡ wanted.ask_of amount.now }
{
    match amount {
        Amount::Count(count) => WantAsk::Count(*count),
        Amount::Level(level) => WantAsk::Level(*level),
        Amount::Points(span) => WantAsk::Points(*span),
        Amount::AnyForbid(_) => WantAsk::Level(Level::Forbid),
    }
}

/// The want of a need; of a witness it is forbid on the first literal.
pub fn want_of(need: &Need) -> Want
    ensures { result ≡ wanted.want_of need.now }
{
    Want {
        right: need.right,
        ask: ask_of(&need.amount),
    }
}

/// The need that would meet a want.
pub fn need_of(want: &Want) -> Need
    ensures { result ≡ wanted.need_of want.now }
{
    let amount = match want.ask {
        WantAsk::Count(count) => Amount::Count(count),
        WantAsk::Level(level) => Amount::Level(level),
        WantAsk::Points(span) => Amount::Points(span),
    };
    Need {
        right: want.right,
        amount,
    }
}

/// What is still asked for: a count less what is held, else all of it.
fn ask_less(held: &Held, ask: WantAsk) -> WantAsk
    ensures { result ≡ wanted.ask_less held.now ask }
{
    match (held, ask) {
        (Held::Count(have), WantAsk::Count(count)) => WantAsk::Count(count.saturating_sub(*have)),
        _ => ask,
    }
}

/// The want as it is sent, by what is held of its right.
pub fn want_less(held: &Held, want: &Want) -> Want
    ensures right { result.right ≡ want.now.right }
    ensures ask { result.ask ≡ wanted.ask_less held.now want.now.ask }
{
    Want {
        right: want.right,
        ask: ask_less(held, want.ask),
    }
}
