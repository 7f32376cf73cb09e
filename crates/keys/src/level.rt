// The three levels of weights.
ghost use Rattle.std.specs.Prelude.{◌≡◌};
ghost use Rattle.keys.specs.Rows.{level_behind, on};

use table::Weights;

#[derive(Clone, Copy, PartialEq, Eq, Debug)]
pub enum Level {
    Primary,
    Secondary,
    Tertiary,
}

impl Level {
    // All of them, in the order in which they count.
    pub const ALL: [Level; 3] = [Level::Primary, Level::Secondary, Level::Tertiary];

    // The weight of this level.
    pub fn weight(self, weights: Weights) -> u16
        ensures { result ≡ on self weights }
    {
        match self {
            Level::Primary => weights.primary,
            Level::Secondary => weights.secondary,
            Level::Tertiary => weights.tertiary,
        }
    }

    // The level behind this one.
    pub fn behind(self) -> Option<Level>
        ensures { result ≡ level_behind self }
    {
        match self {
            Level::Primary => Some(Level::Secondary),
            Level::Secondary => Some(Level::Tertiary),
            Level::Tertiary => None,
        }
    }
}
