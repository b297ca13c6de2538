// Decides what each loop needs, by the state, and has the loops go there.
ghost use Rattle.std.specs.Prelude.{◌≡◌};
ghost use Rattle.comis.specs.Engine.{required_reduction, active_target, loop_config, process_tick, process_fast};

use super::loop_bank::{LoopBankConfig, Loops, Need, Updated};
use super::mix_state::MixState;
use float::{Db, Lufs, SILENCE_LUFS};

#[derive(Clone, Copy)]
pub struct AutomixEngineConfig {
    // How far the commentary is to be above the bed, LU.
    pub target_ratio_lu: f64,
    // The same while the bed speaks too, LU.
    pub overvoice_ratio_lu: f64,
    pub max_gain_reduction_db: Db,
    // Scales every time constant: above 1 is faster.
    pub speed: f64,
}

// What slow and mid work from, dry: the bed's loudness over 3 s and 400 ms, the dialogue's over 3 s.
#[derive(Clone, Copy)]
pub struct LoudnessSnapshot {
    pub bed_short_term_lufs: Lufs,
    pub bed_momentary_lufs: Lufs,
    pub dialogue_short_term_lufs: Lufs,
}

// The state of this frame, and slow and mid after their step.
#[derive(Clone, Copy)]
pub struct AutomixResult {
    pub state: MixState,
    pub updated: Updated,
}

// The reduction, dB, that puts the ratio on the target, LU: a decibel less of the bed is one LU more of ratio. Nothing where a reading is silence.
#[tactic(auto, unfolding(crate::specs::Engine::required_reduction))]
pub fn required_reduction(target_ratio_lu: f64, bed_lufs: Lufs, dialogue_lufs: Lufs) -> Need
    ensures { result ≡ required_reduction target_ratio_lu bed_lufs dialogue_lufs }
{
    if bed_lufs.0 <= SILENCE_LUFS || dialogue_lufs.0 <= SILENCE_LUFS {
        return Need::Nothing;
    }
    Need::Reduction(Db(target_ratio_lu - (dialogue_lufs.0 - bed_lufs.0)))
}

impl AutomixEngineConfig {
    // The ratio aimed at in a state, LU.
    #[tactic(auto, unfolding(crate::specs::Engine::active_target))]
    pub fn active_target_ratio_lu(self, state: MixState) -> f64
        ensures { result ≡ active_target self state }
    {
        match state {
            MixState::DuckToOvervoice => self.overvoice_ratio_lu,
            MixState::ReleaseToUnity | MixState::DuckToTarget | MixState::InterviewPassthrough =>
                self.target_ratio_lu,
        }
    }

    // What the loops are set to. The two authorities are those of the Rust's `LoopBankConfig::default`: for them it is no `From`.
    pub fn loop_config(self) -> LoopBankConfig
        ensures { result ≡ loop_config self }
    {
        LoopBankConfig {
            speed: self.speed,
            max_gain_reduction_db: self.max_gain_reduction_db,
            mid_authority_db: Db(6.0),
            fast_authority_db: Db(4.0),
        }
    }

    // Slow and mid, by the voice of the commentary (COM) and of the bed (IS).
    #[tactic(auto, unfolding(crate::specs::Engine::process_tick, crate::specs::Engine::tick_in))]
    pub fn process_tick(
        self,
        loops: Loops,
        loudness: LoudnessSnapshot,
        com_voice_active: bool,
        is_voice_active: bool,
        dt_seconds: f64,
    ) -> AutomixResult
        ensures { result ≡ process_tick self loops loudness com_voice_active is_voice_active dt_seconds }
    {
        let state = MixState::from_vad(com_voice_active, is_voice_active);
        let config = self.loop_config();
        if state.is_ducking() {
            let target = self.active_target_ratio_lu(state);
            let required_slow = required_reduction(
                target,
                loudness.bed_short_term_lufs,
                loudness.dialogue_short_term_lufs,
            );
            let required_mid = required_reduction(
                target,
                loudness.bed_momentary_lufs,
                loudness.dialogue_short_term_lufs,
            );
            return AutomixResult {
                state,
                updated: loops.update_slow_mid(
                    config,
                    state,
                    required_slow,
                    required_mid,
                    dt_seconds,
                ),
            };
        }
        AutomixResult {
            state,
            updated: loops.update_release(config, state, dt_seconds),
        }
    }

    // Fast, after `process_tick`, in the state that it found.
    #[tactic(auto, unfolding(crate::specs::Engine::process_fast))]
    pub fn process_fast(
        self,
        loops: Loops,
        state: MixState,
        bed_fast_lufs: Lufs,
        dialogue_reference_lufs: Lufs,
        dt_seconds: f64,
    ) -> Updated
        ensures { result ≡ process_fast self loops state bed_fast_lufs dialogue_reference_lufs dt_seconds }
    {
        let target = self.active_target_ratio_lu(state);
        let required = required_reduction(target, bed_fast_lufs, dialogue_reference_lufs);
        loops.update_fast(self.loop_config(), state, required, dt_seconds)
    }
}
