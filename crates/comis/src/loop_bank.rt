// The three loops, whose reductions add in dB: slow states the answer, mid trims it by up to 6 dB either way, fast adds up to 4 dB.
// Parameters stand one by one, as the definitions in specs/ take them, and in the Rust's order, which the project keeps. The Rust has `config` and `state`
// in its bank; `Loops` is only what a ducker keeps.
ghost use Rattle.std.specs.Prelude.{◌≡◌};
ghost use Rattle.comis.specs.LoopBank.{zero_loops, release_stretch, release_speedup, scaled_of, step_of, step_slow, step_mid, update_slow_mid, fast_goal, update_fast, update_release, contributions_of};

use super::envelope::{EnvelopeDetector, Stepped};
use super::mix_state::MixState;
use float::Db;

// Time constants of a loop at speed 1, seconds.
#[derive(Clone, Copy)]
pub struct Ballistics {
    pub attack_seconds: f64,
    pub release_seconds: f64,
}

const SLOW: Ballistics = Ballistics {
    attack_seconds: 2.5,
    release_seconds: 3.0,
};

const MID: Ballistics = Ballistics {
    attack_seconds: 0.15,
    release_seconds: 0.6,
};

const FAST: Ballistics = Ballistics {
    attack_seconds: 0.005,
    release_seconds: 0.4,
};

// Over how long a release eases in after ducking stops, seconds.
const RELEASE_HOLD_SECONDS: f64 = 0.8;

// How much faster the interview state recovers than a plain release.
const INTERVIEW_RELEASE_SPEEDUP: f64 = 4.0;

#[derive(Clone, Copy)]
pub struct LoopBankConfig {
    // Scales every time constant: above 1 is faster.
    pub speed: f64,
    // The deepest reduction.
    pub max_gain_reduction_db: Db,
    // How far mid may trim slow, either way.
    pub mid_authority_db: Db,
    // How far fast may add to slow and mid.
    pub fast_authority_db: Db,
}

// What a ducker keeps from frame to frame: the loops' reductions, dB, and what is left of the ease-in, seconds.
#[derive(Clone, Copy)]
pub struct Loops {
    pub slow: Db,
    pub mid: Db,
    pub fast: Db,
    pub hold_remaining_seconds: f64,
}

// What a loop needs: nothing, where a reading is silence, or a reduction, dB, which may be below 0.
// An enum of its own and no Option, as the specification has it for a need as for a shown reading; and not `Shown` itself, so that a shown loudness
// can't be handed to a loop.
#[derive(Clone, Copy)]
pub enum Need {
    Nothing,
    Reduction(Db),
}

// The loops after an update, and whether all that the update handed to e ^ x was finite.
// The flag stands beside the loops, and no Result, since refusal 4 tests it with the numbers of both strands, and the loops are promised till then.
#[derive(Clone, Copy)]
pub struct Updated {
    pub loops: Loops,
    pub finite: bool,
}

// What is shown and applied of the loops: each loop's reduction, and their sum from 0 to the deepest.
#[derive(Clone, Copy)]
pub struct LoopContributions {
    pub slow_db: Db,
    pub mid_db: Db,
    pub fast_db: Db,
    pub total_db: Db,
}

// How much a release is stretched: 60 times (the Rust's HOLD_RELEASE_STRETCH) where the hold is full, once where it is used up. Only a plain
// release is.
#[tactic(auto, unfolding(crate::specs::LoopBank::release_stretch))]
fn release_stretch(hold_remaining_seconds: f64, state: MixState) -> f64
    ensures { result ≡ release_stretch hold_remaining_seconds state }
{
    match state {
        MixState::ReleaseToUnity => {
            power::exp60(float::clamp(hold_remaining_seconds / RELEASE_HOLD_SECONDS, 0.0, 1.0))
        }
        MixState::DuckToTarget | MixState::InterviewPassthrough | MixState::DuckToOvervoice => 1.0,
    }
}

// How much faster a release is by its state: only an interview's is.
#[tactic(auto, unfolding(crate::specs::LoopBank::release_speedup))]
fn release_speedup(state: MixState) -> f64
    ensures { result ≡ release_speedup state }
{
    match state {
        MixState::InterviewPassthrough => INTERVIEW_RELEASE_SPEEDUP,
        MixState::ReleaseToUnity | MixState::DuckToTarget | MixState::DuckToOvervoice => 1.0,
    }
}

// A loop's time constants in this state, by the speed, taken as 0.01 where it is less, and by what is left of the hold.
#[tactic(auto, unfolding(crate::specs::LoopBank::scaled_of))]
fn scaled(
    config: LoopBankConfig,
    ballistics: Ballistics,
    hold_remaining_seconds: f64,
    state: MixState,
) -> Ballistics
    ensures { result ≡ scaled_of config ballistics hold_remaining_seconds state }
{
    let speed = float::max(config.speed, 0.01);
    Ballistics {
        attack_seconds: ballistics.attack_seconds / speed,
        release_seconds: ballistics.release_seconds * release_stretch(hold_remaining_seconds, state)
            / (speed * release_speedup(state)),
    }
}

impl Loops {
    // No reduction, and nothing left of the ease-in.
    pub fn new() -> Self
        ensures { result ≡ zero_loops }
    {
        Self {
            slow: Db(0.0),
            mid: Db(0.0),
            fast: Db(0.0),
            hold_remaining_seconds: 0.0,
        }
    }

    // A value one step nearer to its target, by a loop's time constants. The smoother holds it as a plain number, dB.
    #[tactic(auto, unfolding(crate::specs::LoopBank::step_of))]
    fn step(
        self,
        config: LoopBankConfig,
        state: MixState,
        ballistics: Ballistics,
        value: Db,
        target: Db,
        dt_seconds: f64,
    ) -> Stepped
        ensures { result ≡ step_of self config state ballistics value target dt_seconds }
    {
        let t = scaled(config, ballistics, self.hold_remaining_seconds, state);
        let e = EnvelopeDetector { current: value.0 };
        e.process(target.0, t.attack_seconds, t.release_seconds, dt_seconds)
    }

    // Slow heads for its need, from 0 to the deepest reduction. Without a need it stays. Slow, mid and fast are a function each, as each is a row of the
    // specification's table and a definition. `step` is what they share: one function of all three would have to choose the field that it writes.
    #[tactic(auto, unfolding(crate::specs::LoopBank::step_slow))]
    fn step_slow(
        mut self,
        config: LoopBankConfig,
        state: MixState,
        required: Need,
        dt_seconds: f64,
    ) -> Updated
        ensures { result ≡ step_slow self config state required dt_seconds }
    {
        match required {
            Need::Nothing => Updated {
                loops: self,
                finite: true,
            },
            Need::Reduction(need) => {
                let target = Db(float::clamp(need.0, 0.0, config.max_gain_reduction_db.0));
                let s = self.step(config, state, SLOW, self.slow, target, dt_seconds);
                self.slow.0 = s.envelope.current;
                Updated {
                    loops: self,
                    finite: s.finite,
                }
            }
        }
    }

    // Mid heads for what its need is beside slow, which has been stepped. Without a need it stays.
    #[tactic(auto, unfolding(crate::specs::LoopBank::step_mid))]
    fn step_mid(
        mut self,
        config: LoopBankConfig,
        state: MixState,
        required: Need,
        dt_seconds: f64,
    ) -> Updated
        ensures { result ≡ step_mid self config state required dt_seconds }
    {
        match required {
            Need::Nothing => Updated {
                loops: self,
                finite: true,
            },
            Need::Reduction(need) => {
                let most = config.mid_authority_db.0;
                let target = Db(float::clamp(need.0 - self.slow.0, -most, most));
                let m = self.step(config, state, MID, self.mid, target, dt_seconds);
                self.mid.0 = m.envelope.current;
                Updated {
                    loops: self,
                    finite: m.finite,
                }
            }
        }
    }

    // Slow and mid while ducking, by what the bed's short-term and momentary loudness ask for. Fills the hold.
    #[tactic(auto, unfolding(crate::specs::LoopBank::update_slow_mid))]
    pub fn update_slow_mid(
        mut self,
        config: LoopBankConfig,
        state: MixState,
        required_slow: Need,
        required_mid: Need,
        dt_seconds: f64,
    ) -> Updated
        ensures { result ≡ update_slow_mid self config state required_slow required_mid dt_seconds }
    {
        self.hold_remaining_seconds = RELEASE_HOLD_SECONDS;
        let s = self.step_slow(config, state, required_slow, dt_seconds);
        let m = s.loops.step_mid(config, state, required_mid, dt_seconds);
        Updated {
            loops: m.loops,
            finite: s.finite & m.finite,
        }
    }

    // Where fast heads: for what its need is beside slow and mid, for its own value without a need, and for 0 in a release.
    #[tactic(auto, unfolding(crate::specs::LoopBank::fast_goal, crate::specs::LoopBank::duck_goal))]
    fn fast_goal(self, config: LoopBankConfig, state: MixState, required: Need) -> Db
        ensures { result ≡ fast_goal self config state required }
    {
        if !state.is_ducking() {
            return Db(0.0);
        }
        match required {
            Need::Nothing => self.fast,
            Need::Reduction(need) => Db(float::clamp(
                need.0 - (self.slow.0 + self.mid.0),
                0.0,
                config.fast_authority_db.0,
            )),
        }
    }

    // Fast, after slow and mid.
    #[tactic(auto, unfolding(crate::specs::LoopBank::update_fast))]
    pub fn update_fast(
        mut self,
        config: LoopBankConfig,
        state: MixState,
        required: Need,
        dt_seconds: f64,
    ) -> Updated
        ensures { result ≡ update_fast self config state required dt_seconds }
    {
        let target = self.fast_goal(config, state, required);
        let f = self.step(config, state, FAST, self.fast, target, dt_seconds);
        self.fast.0 = f.envelope.current;
        Updated {
            loops: self,
            finite: f.finite,
        }
    }

    // Slow and mid on their way back to 0. The hold is lowered first. What a negative mid gives back is taken off slow, down to 0.
    #[tactic(auto, unfolding(crate::specs::LoopBank::update_release, crate::specs::LoopBank::less_trim))]
    pub fn update_release(
        mut self,
        config: LoopBankConfig,
        state: MixState,
        dt_seconds: f64,
    ) -> Updated
        ensures { result ≡ update_release self config state dt_seconds }
    {
        self.hold_remaining_seconds = float::max(self.hold_remaining_seconds - dt_seconds, 0.0);
        let m = self.step(config, state, MID, self.mid, Db(0.0), dt_seconds);
        let returned_trim = float::max(m.envelope.current - self.mid.0, 0.0);
        let s = self.step(config, state, SLOW, self.slow, Db(0.0), dt_seconds);
        self.mid.0 = m.envelope.current;
        self.slow.0 = float::pick(
            returned_trim > 0.0,
            float::max(s.envelope.current - returned_trim, 0.0),
            s.envelope.current,
        );
        Updated {
            loops: self,
            finite: m.finite & s.finite,
        }
    }

    // Each loop's reduction, and their sum from 0 to the deepest reduction.
    #[tactic(auto, unfolding(crate::specs::LoopBank::contributions_of))]
    pub fn contributions(self, config: LoopBankConfig) -> LoopContributions
        ensures { result ≡ contributions_of self config }
    {
        LoopContributions {
            slow_db: self.slow,
            mid_db: self.mid,
            fast_db: self.fast,
            total_db: Db(float::clamp(
                self.slow.0 + self.mid.0 + self.fast.0,
                0.0,
                config.max_gain_reduction_db.0,
            )),
        }
    }
}
