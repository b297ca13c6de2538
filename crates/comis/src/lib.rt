// The control of the ratio of commentary (COM) to bed (IS), after Com-IS-Assist by Andreas Weiss (MIT): three loops, slow, mid and fast,
// whose reductions add.
// Readings are those of the dry signals, so that a reduction of 1 dB raises the ratio by 1 LU.
#![tactic(auto)]

pub mod engine;
pub mod envelope;
pub mod loop_bank;
pub mod mix_state;

ghost use Rattle.std.specs.Prelude.{◌≡◌};
ghost use Rattle.comis.specs.Shown.{shown_flag, shown_value};

// A reading shown to the operator: silence, or a level; LUFS for a loudness, LU for a ratio.
// An enum of its own and no Option: silence is a reading and not a missing one, as the specification words it.
#[derive(Clone, Copy)]
pub enum Shown {
    Silence,
    Level(f64),
}

impl Shown {
    // 1 where there is a level, 0 for silence: an answer's words, which the C interface fixes, have a flag and a value, here and below.
    pub fn flag(self) -> u64
        ensures { result ≡ shown_flag self }
    {
        match self {
            Shown::Silence => 0,
            Shown::Level(_) => 1,
        }
    }

    // The level, 0 for silence.
    pub fn value(self) -> f64
        ensures { result ≡ shown_value self }
    {
        match self {
            Shown::Silence => 0.0,
            Shown::Level(x) => x,
        }
    }
}
