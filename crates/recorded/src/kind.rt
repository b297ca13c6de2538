// The kinds of the signals.
#[derive(Clone, Copy)]
pub enum Kind {
    // All samples 0.
    Silence,
    // All samples 1.
    Constant,
    // A sine of the seed's number of kHz at 48 kHz, from a table of 48 values.
    Tone,
    // A square wave with a period of as many samples as the seed says: its first half high.
    Square,
    // A rising sawtooth with such a period.
    Sawtooth,
    // White noise.
    Noise,
    // A sawtooth of such a period (400: 120 Hz) in syllables at 4 Hz (a triangle), 2 s long, then 1 s of digital silence.
    Speech,
    // The same over noise 48 dB below full scale.
    NoisySpeech,
    // One full sample in such a period, else silence.
    Impulses,
    // Noise for 0.1 s, digital silence for 0.15 s: modulated, not voiced.
    Bursts,
}

// A kind by its number in a recorded file. An unknown one is silence.
impl From<u64> for Kind {
    ghost use Rattle.std.specs.Prelude.{◌≡◌};
    ghost use Rattle.recorded.specs.Signals.{kind_of};

    ghost from_gives = { λ number kind. kind ≡ kind_of number };

    fn from(number: u64) -> Kind {
        match number {
            1 => Kind::Constant,
            2 => Kind::Tone,
            3 => Kind::Square,
            4 => Kind::Sawtooth,
            5 => Kind::Noise,
            6 => Kind::Speech,
            7 => Kind::NoisySpeech,
            8 => Kind::Impulses,
            9 => Kind::Bursts,
            _ => Kind::Silence,
        }
    }
}
