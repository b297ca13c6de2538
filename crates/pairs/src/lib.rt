// Values of two channels or strands side by side. Where a loop's results lie so in memory, the compiler computes both with one instruction; where
// each one's numbers lie together, it joins the numbers of different sections instead.
#![tactic(auto)]

ghost use Rattle.std.specs.Prelude.{◌≡◌};
ghost use Rattle.pairs.specs.Pairs.{value_at, states_of, state_at, weighed_pairs, weighing_at};

use biquad::State;
use level::Weighing;

// A value of each of two channels or strands.
#[derive(Clone, Copy)]
pub struct Pair<T> {
    pub first: T,
    pub second: T,
}

// Which of the two.
#[derive(Clone, Copy)]
pub enum Place {
    First,
    Second,
}

// One section's states.
#[derive(Clone, Copy)]
pub struct States {
    pub z1: Pair<f64>,
    pub z2: Pair<f64>,
}

// The level's filters.
#[derive(Clone, Copy)]
pub struct WeighedPairs {
    pub shelf: States,
    pub high_pass: States,
    pub fast: Pair<f64>,
    pub energy: Pair<f64>,
}

impl<T: Copy> Pair<T> {
    // One of the two.
    pub fn at(self, place: Place) -> T
        ensures { result ≡ value_at self place }
    {
        match place {
            Place::First => self.first,
            Place::Second => self.second,
        }
    }
}

impl States {
    // Two states side by side.
    pub fn of(first: State, second: State) -> Self
        ensures { result ≡ states_of first second }
    {
        Self {
            z1: Pair {
                first: first.z1,
                second: second.z1,
            },
            z2: Pair {
                first: first.z2,
                second: second.z2,
            },
        }
    }

    // One of the two.
    pub fn at(self, place: Place) -> State
        ensures { result ≡ state_at self place }
    {
        State {
            z1: self.z1.at(place),
            z2: self.z2.at(place),
        }
    }
}

impl WeighedPairs {
    // Two channels' or strands' filters side by side.
    pub fn of(first: Weighing, second: Weighing) -> Self
        ensures { result ≡ weighed_pairs first second }
    {
        Self {
            shelf: States::of(first.shelf, second.shelf),
            high_pass: States::of(first.high_pass, second.high_pass),
            fast: Pair {
                first: first.fast,
                second: second.fast,
            },
            energy: Pair {
                first: first.energy,
                second: second.energy,
            },
        }
    }

    // One of the two.
    pub fn at(self, place: Place) -> Weighing
        ensures { result ≡ weighing_at self place }
    {
        Weighing {
            shelf: self.shelf.at(place),
            high_pass: self.high_pass.at(place),
            fast: self.fast.at(place),
            energy: self.energy.at(place),
        }
    }
}
