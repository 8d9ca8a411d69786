// Numbers drawn one after another from a seed.
ghost use Rattle.std.specs.Prelude.{◌≡◌, ◌<◌};
ghost use Rattle.demo_generator.specs.Draws.{answer, next_state};

// A linear congruential generator, modulo 2^64.
#[derive(Clone, Copy)]
pub(crate) struct Draws {
    pub(crate) state: u64,
}

impl Draws {
    // A number below `below`, of the upper bits of the next state.
    pub(crate) fn draw(&mut self, below: u64) -> u64
        requires { 0 < below }
        ensures state { self.new.state ≡ next_state self.old.state }
        ensures answer { result ≡ answer below self.new.state }
        ensures within { result < below }
    {
        self.state = self
            .state
            .wrapping_mul(6_364_136_223_846_793_005)
            .wrapping_add(1_442_695_040_888_963_407);
        (self.state >> 33) % below
    }
}
