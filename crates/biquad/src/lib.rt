// Second-order sections in transposed direct form II, in f64, and the six that a strand runs (48 kHz).
#![tactic(auto)]

ghost use Rattle.std.specs.Prelude.{◌≡◌};
ghost use Rattle.biquad.specs.Tick.{at_rest, tick_of};
ghost use Rattle.biquad.specs.Sections.{sections_of};

// Normalised coefficients (a0 = 1).
#[derive(Clone, Copy)]
pub struct Coefficients {
    pub b0: f64,
    pub b1: f64,
    pub b2: f64,
    pub a1: f64,
    pub a2: f64,
}

// The state of one section for one channel.
#[derive(Clone, Copy)]
pub struct State {
    pub z1: f64,
    pub z2: f64,
}

// One sample's output, and the state after it.
#[derive(Clone, Copy)]
pub struct Ticked {
    pub state: State,
    pub y: f64,
}

// BS.1770-4 K-weighting: the shelving pre-filter and the RLB high-pass.
pub const K_SHELF: Coefficients = Coefficients {
    b0: 1.53512485958697,
    b1: -2.69169618940638,
    b2: 1.19839281085285,
    a1: -1.69065929318241,
    a2: 0.73248077421585,
};

pub const K_HIGH_PASS: Coefficients = Coefficients {
    b0: 1.0,
    b1: -2.0,
    b2: 1.0,
    a1: -1.99004745483398,
    a2: 0.99007225036621,
};

// The detector's speech band: a high-pass of 250 Hz and a low-pass of 4 kHz, each Butterworth of order 2.
pub const BAND_HIGH_PASS: Coefficients = Coefficients {
    b0: 0.977125627265454,
    b1: -1.954251254530908,
    b2: 0.977125627265454,
    a1: -1.9537279491407762,
    a2: 0.9547745599210397,
};

pub const BAND_LOW_PASS: Coefficients = Coefficients {
    b0: 0.04948995626867704,
    b1: 0.09897991253735408,
    b2: 0.04948995626867704,
    a1: -1.279632424997809,
    a2: 0.47759225007251715,
};

// The detector's pitch filter: a low-pass of 1 kHz, Butterworth of order 4, in two sections.
pub const PITCH_1: Coefficients = Coefficients {
    b0: 0.0038172458174315356,
    b1: 0.007634491634863071,
    b2: 0.0038172458174315356,
    a1: -1.7695043485128368,
    a2: 0.7847733317825629,
};

pub const PITCH_2: Coefficients = Coefficients {
    b0: 0.004074068719880338,
    b1: 0.008148137439760676,
    b2: 0.004074068719880338,
    a1: -1.8885559538890457,
    a2: 0.9048522287685673,
};

// The coefficients of a strand's six sections, in the image's order: the shelf and the high-pass of K-weighting, the speech band's two, the pitch
// filter's two.
#[tactic(auto, unfolding(crate::specs::Sections::sections_of))]
pub fn sections() -> [Coefficients; 6]
    ensures { result ≡ sections_of }
{
    [
        K_SHELF,
        K_HIGH_PASS,
        BAND_HIGH_PASS,
        BAND_LOW_PASS,
        PITCH_1,
        PITCH_2,
    ]
}

impl State {
    // A section at rest.
    pub fn new() -> Self
        ensures { result ≡ at_rest }
    {
        Self { z1: 0.0, z2: 0.0 }
    }

    // One sample through the section.
    #[tactic(auto, unfolding(crate::specs::Tick::tick_of))]
    pub fn tick(mut self, c: Coefficients, x: f64) -> Ticked
        ensures { result ≡ tick_of self c x }
    {
        let y = c.b0 * x + self.z1;
        self.z1 = c.b1 * x - c.a1 * y + self.z2;
        self.z2 = c.b2 * x - c.a2 * y;
        Ticked { state: self, y }
    }
}
