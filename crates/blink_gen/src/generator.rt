// The numbers that are drawn.
ghost use Rattle.std.specs.Prelude.{◌≡◌, ◌≤◌, ◌<◌};
ghost use Rattle.blink_gen.specs.Generator.{next_state, number_below};

use crate::MOST_SEED;
use std::marker::Model;

const MULTIPLIER: u64 = 1_103_515_245;

const INCREMENT: u64 = 12_345;

const MODULUS: u64 = 2_147_483_648;

// A number is a state without its low 16 bits, which repeat soon.
const NUMBER_STEP: u32 = 65_536;

// A generator, which contracts see as its state.
#[derive(Drop)]
pub(crate) struct Generator {
    state: u32,
}

impl Model for Generator {
    ghost use Rattle.std.specs.Prelude.{ℕ, ◌<◌, ◌^◌};

    ghost Value = { ℕ };

    ghost view = { λ g. g.state };

    ghost invariant = { λ g. g.state < 2 ^ 31 };
}

impl Generator {
    // A generator that begins at a seed.
    pub(crate) fn new(seed: u32) -> Generator
        requires { seed ≤ MOST_SEED }
        ensures { result ≡ seed }
    {
        Generator { state: seed }
    }

    // Goes on by a state, and draws its number below a bound.
    #[tactic(auto, unfolding(crate::specs::Generator::next_state))]
    pub(crate) fn draw(&mut self, bound: u32) -> u32
        requires { 0 < bound }
        ensures state { self.new ≡ next_state self.old }
        ensures number { result ≡ number_below bound self.new }
        ensures below { result < bound }
    {
        let state = ((MULTIPLIER * u64::from(self.state) + INCREMENT) % MODULUS) as u32;
        let number = state / NUMBER_STEP % bound;
        self.state = state;
        number
    }
}
