// Numbers by chance, always the same ones from the same start.
ghost use Rattle.std.specs.Prelude.{◌<◌};

#[derive(Drop)]
pub struct Chance {
    state: u64,
}

impl Chance {
    pub fn new(start: u64) -> Chance {
        Chance { state: start }
    }

    // A number below the bound, or 0 where that is 0.
    pub fn below(&mut self, bound: u32) -> u32
        ensures { 0 < bound → result < bound }
    {
        self.state = self
            .state
            .wrapping_mul(6_364_136_223_846_793_005)
            .wrapping_add(1_442_695_040_888_963_407);
        if bound == 0 {
            return 0;
        }
        ((self.state >> 33) % bound as u64) as u32
    }
}
