//! The numbers that are drawn.

ghost use Rattle.std.specs.Prelude.{◌≡◌, ◌/◌, ◌^◌};
ghost use Rattle.pfs_gen.specs.Draws.{step};

/// What a draw makes of the state.
#[tactic(auto, unfolding(crate::specs::Draws::step))]
pub fn step(state: u64) -> u64
    ensures { result ≡ step state }
{
    state
        .wrapping_mul(6_364_136_223_846_793_005)
        .wrapping_add(1_442_695_040_888_963_407)
}

/// The number that a draw gives, from the state that it made.
pub fn drawn(state: u64) -> u64
    ensures { result ≡ state / 2 ^ 33 }
{
    state / 8_589_934_592
}
