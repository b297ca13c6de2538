// One frame of a ratio duck: by how many decibels the bed goes down, so that the dialogue stays a target above it.
// Readings are those of the dry signals, LUFS.
#![tactic(auto)]

ghost use Rattle.std.specs.Prelude.{◌≡◌};
ghost use Rattle.ratio.specs.Status.{reading_of, rounded_of, ratio_shown, config_of, status_of};
ghost use Rattle.ratio.specs.Finite.{finite_shown, finite_loops, finite_status};
ghost use Rattle.ratio.specs.Frame.{disabled_frame, enabled_frame, frame_of};

use comis::Shown;
use comis::engine::{AutomixEngineConfig, LoudnessSnapshot};
use comis::loop_bank::{LoopContributions, Loops};
use comis::mix_state::MixState;
use float::{Db, Lufs, SILENCE_LUFS};

// The length of a frame, seconds.
const FRAME_S: f64 = 0.01;

// The duck's settings.
#[derive(Clone, Copy)]
pub struct Duck {
    pub enabled: bool,
    // How far the dialogue is to be above the bed, LU.
    pub target_lu: f64,
    // The same while the bed speaks too, LU.
    pub overvoice_lu: f64,
    // The deepest reduction.
    pub max_reduction_db: Db,
    // Scales every time constant: above 1 is faster.
    pub speed: f64,
    // Whether the bed's speech counts.
    pub bed_voice: bool,
}

// What one frame works from.
#[derive(Clone, Copy)]
pub struct Inputs {
    pub key_voice: bool,
    pub target_voice: bool,
    pub dialogue_short_term: Lufs,
    pub bed_short_term: Lufs,
    pub bed_momentary: Lufs,
    pub bed_fast: Lufs,
}

// What is shown of a frame. Reductions are rounded to 0.01 dB, the ratio, LU, and the two readings to 0.1.
#[derive(Clone, Copy)]
pub struct RatioStatus {
    pub state: MixState,
    pub reduction_db: Db,
    pub slow_db: Db,
    pub mid_db: Db,
    pub fast_db: Db,
    // The ratio aimed at, LU.
    pub target_lu: f64,
    // The dialogue's loudness over the ducked bed's; silence where one of the two is silent.
    pub ratio_lu: Shown,
    pub dialogue_lufs: Shown,
    pub bed_lufs: Shown,
}

// A frame's answer, the loops after it, and whether all that it stores, answers or hands to a power is finite.
// The flag stands beside the answer, and no Result: the answer is promised whatever it says, and refusal 4 tests these numbers together with those of
// both strands (`Worked::judged` of `chain`).
#[derive(Clone, Copy)]
pub struct Framed {
    pub reduction: Db,
    pub loops: Loops,
    pub status: RatioStatus,
    pub finite: bool,
}

// A loudness as it is shown: to 0.1 LUFS, or silence.
#[tactic(auto, unfolding(crate::specs::Status::reading_of))]
fn reading(l: Lufs) -> Shown
    ensures { result ≡ reading_of l }
{
    if l.0 > SILENCE_LUFS {
        Shown::Level(float::round_to(l.0, 10.0))
    } else {
        Shown::Silence
    }
}

// To 0.01, dB or LU. Negative zero becomes zero.
#[tactic(auto, unfolding(crate::specs::Status::rounded_of))]
fn round(x: f64) -> f64
    ensures { result ≡ rounded_of x }
{
    float::round_to(x, 100.0) + 0.0
}

// The dialogue's loudness over the ducked bed's: to 0.01, then to 0.1 LU.
#[tactic(auto, unfolding(crate::specs::Status::ratio_shown))]
fn ratio_shown(dialogue: Lufs, bed: Lufs, reduction: Db) -> Shown
    ensures { result ≡ ratio_shown dialogue bed reduction }
{
    if dialogue.0 > SILENCE_LUFS && bed.0 > SILENCE_LUFS {
        let ratio = dialogue.0 - bed.0 + reduction.0;
        Shown::Level(float::round_to(round(ratio), 10.0))
    } else {
        Shown::Silence
    }
}

// The settings as the engine takes them.
impl From<Duck> for AutomixEngineConfig {
    ghost from_gives = { λ d config. config ≡ config_of d };

    fn from(d: Duck) -> AutomixEngineConfig {
        AutomixEngineConfig {
            target_ratio_lu: d.target_lu,
            overvoice_ratio_lu: d.overvoice_lu,
            max_gain_reduction_db: d.max_reduction_db,
            speed: d.speed,
        }
    }
}

// What is shown of an enabled frame.
#[tactic(auto, unfolding(crate::specs::Status::status_of))]
fn status(c: AutomixEngineConfig, state: MixState, l: LoopContributions, i: Inputs) -> RatioStatus
    ensures { result ≡ status_of c state l i }
{
    RatioStatus {
        state,
        reduction_db: Db(round(l.total_db.0)),
        slow_db: Db(round(l.slow_db.0)),
        mid_db: Db(round(l.mid_db.0)),
        fast_db: Db(round(l.fast_db.0)),
        target_lu: c.active_target_ratio_lu(state),
        ratio_lu: ratio_shown(i.dialogue_short_term, i.bed_short_term, l.total_db),
        dialogue_lufs: reading(i.dialogue_short_term),
        bed_lufs: reading(i.bed_short_term),
    }
}

// Whether a shown reading is finite; silence is.
#[tactic(auto, unfolding(crate::specs::Finite::finite_shown))]
fn finite_shown(s: Shown) -> bool
    ensures { result ≡ finite_shown s }
{
    match s {
        Shown::Silence => true,
        Shown::Level(x) => float::finite(x),
    }
}

// Whether all that is stored is finite.
#[tactic(auto, unfolding(crate::specs::Finite::finite_loops))]
fn finite_loops(l: Loops) -> bool
    ensures { result ≡ finite_loops l }
{
    float::finite(l.slow.0)
        && float::finite(l.mid.0)
        && float::finite(l.fast.0)
        && float::finite(l.hold_remaining_seconds)
}

// Whether all that is shown is finite.
#[tactic(auto, unfolding(crate::specs::Finite::finite_status))]
fn finite_status(s: RatioStatus) -> bool
    ensures { result ≡ finite_status s }
{
    float::finite(s.reduction_db.0)
        && float::finite(s.slow_db.0)
        && float::finite(s.mid_db.0)
        && float::finite(s.fast_db.0)
        && float::finite(s.target_lu)
        && finite_shown(s.ratio_lu)
        && finite_shown(s.dialogue_lufs)
        && finite_shown(s.bed_lufs)
}

// Loops at 0, and no reduction.
#[tactic(auto, unfolding(crate::specs::Frame::disabled_frame))]
fn disabled(d: Duck) -> Framed
    ensures { result ≡ disabled_frame d }
{
    Framed {
        reduction: Db(0.0),
        loops: Loops::new(),
        status: RatioStatus {
            state: MixState::ReleaseToUnity,
            reduction_db: Db(0.0),
            slow_db: Db(0.0),
            mid_db: Db(0.0),
            fast_db: Db(0.0),
            target_lu: d.target_lu,
            ratio_lu: Shown::Silence,
            dialogue_lufs: Shown::Silence,
            bed_lufs: Shown::Silence,
        },
        finite: float::finite(d.target_lu),
    }
}

// Slow and mid, then fast, then their sum.
#[tactic(auto, unfolding(crate::specs::Frame::enabled_frame))]
fn enabled(loops: Loops, d: Duck, i: Inputs) -> Framed
    ensures { result ≡ enabled_frame loops d i }
{
    let c = AutomixEngineConfig::from(d);
    let loudness = LoudnessSnapshot {
        bed_short_term_lufs: i.bed_short_term,
        bed_momentary_lufs: i.bed_momentary,
        dialogue_short_term_lufs: i.dialogue_short_term,
    };
    let t = c.process_tick(
        loops,
        loudness,
        i.key_voice,
        i.target_voice & d.bed_voice,
        FRAME_S,
    );
    let state = t.state;
    let f = c.process_fast(
        t.updated.loops,
        state,
        i.bed_fast,
        i.dialogue_short_term,
        FRAME_S,
    );
    let after = f.loops;
    let l = after.contributions(c.loop_config());
    let reduction = l.total_db;
    let s = status(c, state, l, i);
    Framed {
        reduction,
        loops: after,
        status: s,
        finite: t.updated.finite
            & f.finite
            & finite_loops(after)
            & float::finite(reduction.0)
            & finite_status(s),
    }
}

// One frame: the reduction of the bed, what is shown of it, and the loops for the next frame. A disabled duck's loops go to 0.
#[tactic(auto, unfolding(crate::specs::Frame::frame_of))]
pub fn frame(loops: Loops, d: Duck, i: Inputs) -> Framed
    ensures { result ≡ frame_of loops d i }
{
    if d.enabled {
        enabled(loops, d, i)
    } else {
        disabled(d)
    }
}
