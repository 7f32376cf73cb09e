// Numbers that look as if they were thrown, and are the same in every run.
ghost use Rattle.std.specs.Prelude.{◌<◌, max};

// A linear congruential generator of 64 bits, of which the upper ones are used.
#[derive(Drop)]
pub(crate) struct Dice {
    state: u64,
}

impl Dice {
    // Each seed has throws of its own.
    pub(crate) fn new(seed: u64) -> Dice {
        let mut dice = Dice { state: seed };
        for _ in 0..4 {
            dice.throw();
        }
        dice
    }

    fn throw(&mut self) -> usize {
        self.state = self
            .state
            .wrapping_mul(6364136223846793005)
            .wrapping_add(1442695040888963407);
        (self.state >> 33) as usize
    }

    // A number below another, or 0 where that is 0.
    pub(crate) fn below(&mut self, end: usize) -> usize
        ensures { result < max end 1 }
    {
        self.throw() % end.max(1)
    }

    // True once in so many throws, in the long run.
    pub(crate) fn once_in(&mut self, throws: usize) -> bool {
        self.below(throws) == 0
    }
}
