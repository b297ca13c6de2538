// Answers as words of 64 bits, and settings and layouts from words: for a list of calls in a file, for recorded answers and for callers in C. A float is
// its bits, a flag 0 or 1, an absent value 0.
#![tactic(auto)]

ghost use Rattle.std.specs.Prelude.{◌≡◌, ◌+◌, ◌≤◌, length};
ghost use Rattle.blocks.specs.Lists.{Laid};
ghost use Rattle.words.specs.Words.{
  status_words,
  strand_words,
  answer_words,
  strand_from,
  duck_from,
  settings_from,
  place_from,
  layout_from,
};

use chain::Answer;
use float::{Db, Lufs};
use layout::{Layout, Place};
use ratio::{Duck, RatioStatus};
use settings::Settings;
use vad::{VadSettings, VadState};

// State (0 release, 1 duck, 2 interview, 3 overvoice), the unrounded reduction, reduction_db, slow_db, mid_db, fast_db, target_lu; ratio_lu,
// dialogue_lufs and bed_lufs, each as flag and value.
#[tactic(auto, unfolding(crate::specs::Words::status_words))]
pub fn status(reduction: Db, s: RatioStatus) -> [u64; 13]
    ensures { result ≡ status_words reduction s }
{
    [
        u64::from(s.state),
        float::to_bits(reduction.0),
        float::to_bits(s.reduction_db.0),
        float::to_bits(s.slow_db.0),
        float::to_bits(s.mid_db.0),
        float::to_bits(s.fast_db.0),
        float::to_bits(s.target_lu),
        s.ratio_lu.flag(),
        float::to_bits(s.ratio_lu.value()),
        s.dialogue_lufs.flag(),
        float::to_bits(s.dialogue_lufs.value()),
        s.bed_lufs.flag(),
        float::to_bits(s.bed_lufs.value()),
    ]
}

// Active, probability, speech_level as flag and value, level_dbfs, momentary_lufs, gated, short_term_lufs, onsets, offsets, over_floor_db,
// modulation_db, voicing, anti.
#[tactic(auto, unfolding(crate::specs::Words::strand_words))]
pub fn strand(s: VadState) -> [u64; 14]
    ensures { result ≡ strand_words s }
{
    let level = s.speech_level;
    let f = s.features;
    [
        u64::from(s.speech_active),
        float::to_bits(s.speech_probability),
        u64::from(level.is_some()),
        float::to_bits(level.unwrap_or(0.0)),
        float::to_bits(s.level_dbfs),
        float::to_bits(s.momentary_lufs.0),
        u64::from(s.gated),
        float::to_bits(s.short_term_lufs.0),
        s.speech_onsets,
        s.speech_offsets,
        float::to_bits(f.over_floor_db),
        float::to_bits(f.modulation_db),
        float::to_bits(f.voicing),
        float::to_bits(f.anti),
    ]
}

// Words from place `at` on. `answer` shows that they have room.
fn lay(to: &mut [u64], at: usize, words: &[u64])
    requires { at + length words.now ≤ length to.old }
    ensures { Laid to.old at words.now to.new }
{
    to[at..at + words.len()].copy_from_slice(words);
}

// The status, the key's words, the bed's.
pub fn answer(a: Answer) -> [u64; 41]
    ensures { result ≡ answer_words a }
{
    let mut to = [0u64; 41];
    lay(&mut to, 0, &status(a.reduction, a.status));
    lay(&mut to, 13, &strand(a.key));
    lay(&mut to, 27, &strand(a.bed));
    to
}

// A strand's settings from their three words.
#[tactic(auto, unfolding(crate::specs::Words::strand_from))]
pub fn strand_settings(threshold: u64, hold_ms: u64, gate_lufs: u64) -> VadSettings
    ensures { result ≡ strand_from threshold hold_ms gate_lufs }
{
    VadSettings {
        threshold: float::from_bits(threshold),
        hold_ms: float::from_bits(hold_ms),
        gate_lufs: Lufs(float::from_bits(gate_lufs)),
    }
}

#[tactic(auto, unfolding(crate::specs::Words::duck_from))]
fn duck(w: &[u64; 12]) -> Duck
    ensures { result ≡ duck_from w.now }
{
    Duck {
        enabled: w[6] != 0,
        target_lu: float::from_bits(w[7]),
        overvoice_lu: float::from_bits(w[8]),
        max_reduction_db: Db(float::from_bits(w[9])),
        speed: float::from_bits(w[10]),
        bed_voice: w[11] != 0,
    }
}

// All settings from their words, in the image's order. A flag (w[6], enabled, and w[11], bed_voice) is on where its word isn't 0.
#[tactic(auto, unfolding(crate::specs::Words::settings_from))]
pub fn settings(w: &[u64; 12]) -> Settings
    ensures { result ≡ settings_from w.now }
{
    Settings {
        key: strand_settings(w[0], w[1], w[2]),
        bed: strand_settings(w[3], w[4], w[5]),
        duck: duck(w),
    }
}

// A place from its three words. `layout` shows that they are there.
#[tactic(auto, unfolding(crate::specs::Words::place_from))]
fn place(w: &[u64; 24], at: usize) -> Place
    requires { at ≤ 21 }
    ensures { result ≡ place_from w.now at }
{
    Place {
        azimuth: w[at],
        elevation: w[at + 1],
        lfe: w[at + 2],
    }
}

// A layout from the number of its channels and eight times three words: azimuth, elevation, LFE flag. Written out, as the definition has them: of
// `array::from_fn` only its closure's calls are known, and a loop needs a law on each place.
#[tactic(auto, unfolding(crate::specs::Words::layout_from))]
pub fn layout(count: u64, w: &[u64; 24]) -> Layout
    ensures { result ≡ layout_from count w.now }
{
    let places = [
        place(w, 0),
        place(w, 3),
        place(w, 6),
        place(w, 9),
        place(w, 12),
        place(w, 15),
        place(w, 18),
        place(w, 21),
    ];
    Layout { count, places }
}
