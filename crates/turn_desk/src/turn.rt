ghost use Rattle.std.specs.Prelude.{◌≡◌, ◌<◌, ◌++◌, ◌∷◌, [], List, ℕ, length, IfOk, OnErr};

use ind_base::NoMemory;

/// A value that answers one ask after another.
pub trait Turn {
    type Ask;

    type Answer;

    /// What no turn changes. No value of it is made.
    type Opening;

    ghost opening: { Self → Self.Opening };

    /// The asks that were served, each with its answer, in their order.
    ghost history: { Self → List (Self.Ask × Self.Answer) };

    /// How many turns may be served.
    ghost room: { Self.Opening → ℕ };

    /// Which asks fit.
    ghost fits: { Self.Opening → Self.Ask → Type 0 };

    /// Which answers fit.
    ghost is_answer: { Self.Opening → Self.Answer → Type 0 };

    /// Serves one ask. Where memory doesn't suffice the history is as before.
    fn turn(&mut self, ask: Self::Ask) -> Result<Self::Answer, NoMemory>
        requires fits { fits (opening self.old) ask }
        requires room { length (history self.old) < room (opening self.old) }
        ensures opening { opening self.new ≡ opening self.old }
        ensures served { IfOk result (λ answer. history self.new ≡ history self.old ++ (ask, answer) ∷ []) }
        ensures answer { IfOk result (λ answer. is_answer (opening self.old) answer) }
        ensures err { OnErr result (history self.new ≡ history self.old) };
}
