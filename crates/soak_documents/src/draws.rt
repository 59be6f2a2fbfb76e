//! Draws from a state.

ghost use Rattle.std.specs.Prelude.{◌≡◌};
ghost use Rattle.soak_documents.specs.Generating as generating;

/// The state behind a draw.
#[tactic(auto, unfolding(crate::specs::Generating::next_state))]
fn next_state(x: u64) -> u64
    ensures { result ≡ generating.next_state x }
{
    x.wrapping_mul(6_364_136_223_846_793_005)
        .wrapping_add(1_442_695_040_888_963_407)
}

/// What is drawn, by the state behind the draw.
#[tactic(auto, unfolding(crate::specs::Generating::drawn))]
fn drawn(x: u64) -> u64
    ensures { result ≡ generating.drawn x }
{
    x / 8_589_934_592
}

/// Draws a number, and goes on to the next state.
pub(crate) fn draw(state: &mut u64) -> u64
    ensures state { state.new ≡ generating.next_state state.old }
    ensures value { result ≡ generating.drawn state.new }
{
    let next = next_state(*state);
    *state = next;
    drawn(next)
}
