// The settings: their ranges, what is stored of them, and those of a fresh chain.
#![tactic(auto)]

ghost use Rattle.std.specs.Prelude.{◌≡◌};
ghost use Rattle.settings.specs.Settings.{
  call_ranges,
  image_ranges,
  outside_of,
  outside_strand,
  outside_duck,
  outside_settings,
  zeroed_of,
  stored_strand,
  stored_duck,
  stored_of,
  fresh_strand,
  fresh_duck,
  fresh_settings,
};

use float::{Db, Lufs, SILENCE_LUFS};
use ratio::Duck;
use vad::VadSettings;

// From low to high, both ends allowed. No `RangeInclusive`: that isn't Copy, since it is an iterator too.
#[derive(Clone, Copy)]
pub struct Range {
    pub low: f64,
    pub high: f64,
}

// The range of each setting. target_lu and overvoice_lu share one.
#[derive(Clone, Copy)]
pub struct Ranges {
    pub threshold: Range,
    pub hold_ms: Range,
    pub gate_lufs: Range,
    pub ratio_lu: Range,
    pub max_reduction_db: Range,
    pub speed: Range,
}

const THRESHOLD: Range = Range {
    low: 0.0,
    high: 1.0,
};

const HOLD_MS: Range = Range {
    low: 0.0,
    high: 60000.0,
};

const GATE_LUFS: Range = Range {
    low: SILENCE_LUFS,
    high: 0.0,
};

const RATIO_LU: Range = Range {
    low: 0.0,
    high: 40.0,
};

const MAX_REDUCTION_DB: Range = Range {
    low: 0.0,
    high: 60.0,
};

const SPEED: Range = Range {
    low: 0.01,
    high: 100.0,
};

// What a settings call may bring. This table and the next are two, as in specs/: outside the one is refusal 3, outside the other refusal 8.
const CALL_RANGES: Ranges = Ranges {
    threshold: THRESHOLD,
    hold_ms: HOLD_MS,
    gate_lufs: GATE_LUFS,
    ratio_lu: RATIO_LU,
    max_reduction_db: MAX_REDUCTION_DB,
    speed: SPEED,
};

// What an image may hold.
const IMAGE_RANGES: Ranges = Ranges {
    threshold: THRESHOLD,
    hold_ms: HOLD_MS,
    gate_lufs: GATE_LUFS,
    ratio_lu: RATIO_LU,
    max_reduction_db: MAX_REDUCTION_DB,
    speed: SPEED,
};

// All settings: of the key strand, of the bed strand, and of the ducker.
#[derive(Clone, Copy)]
pub struct Settings {
    pub key: VadSettings,
    pub bed: VadSettings,
    pub duck: Duck,
}

impl Range {
    // Whether x lies outside, or isn't finite.
    #[tactic(auto, unfolding(crate::specs::Settings::outside_of))]
    pub fn outside(self, x: f64) -> bool
        ensures { result ≡ outside_of self x }
    {
        !float::finite(x) || x < self.low || self.high < x
    }
}

impl Ranges {
    // Whether a strand's setting is outside its range, or isn't finite.
    #[tactic(auto, unfolding(crate::specs::Settings::outside_strand))]
    fn outside_strand(self, s: VadSettings) -> bool
        ensures { result ≡ outside_strand self s }
    {
        self.threshold.outside(s.threshold)
            || self.hold_ms.outside(s.hold_ms)
            || self.gate_lufs.outside(s.gate_lufs.0)
    }

    // The same for the ducker's.
    #[tactic(auto, unfolding(crate::specs::Settings::outside_duck))]
    fn outside_duck(self, d: Duck) -> bool
        ensures { result ≡ outside_duck self d }
    {
        self.ratio_lu.outside(d.target_lu)
            || self.ratio_lu.outside(d.overvoice_lu)
            || self.max_reduction_db.outside(d.max_reduction_db.0)
            || self.speed.outside(d.speed)
    }

    // Whether a setting is outside its range, or isn't finite.
    #[tactic(auto, unfolding(crate::specs::Settings::outside_settings))]
    pub fn outside_settings(self, s: Settings) -> bool
        ensures { result ≡ outside_settings self s }
    {
        self.outside_strand(s.key) || self.outside_strand(s.bed) || self.outside_duck(s.duck)
    }
}

// x, and zero for negative zero.
#[tactic(auto, unfolding(crate::specs::Settings::zeroed_of))]
fn zeroed(x: f64) -> f64
    ensures { result ≡ zeroed_of x }
{
    float::pick(x == 0.0, 0.0, x)
}

#[tactic(auto, unfolding(crate::specs::Settings::stored_strand))]
fn stored_strand(s: VadSettings) -> VadSettings
    ensures { result ≡ stored_strand s }
{
    VadSettings {
        threshold: zeroed(s.threshold),
        hold_ms: zeroed(s.hold_ms),
        gate_lufs: Lufs(zeroed(s.gate_lufs.0)),
    }
}

#[tactic(auto, unfolding(crate::specs::Settings::stored_duck))]
fn stored_duck(d: Duck) -> Duck
    ensures { result ≡ stored_duck d }
{
    Duck {
        enabled: d.enabled,
        target_lu: zeroed(d.target_lu),
        overvoice_lu: zeroed(d.overvoice_lu),
        max_reduction_db: Db(zeroed(d.max_reduction_db.0)),
        speed: zeroed(d.speed),
        bed_voice: d.bed_voice,
    }
}

// Settings as they are stored: zero in place of negative zero.
#[tactic(auto, unfolding(crate::specs::Settings::stored_of))]
pub fn stored(s: Settings) -> Settings
    ensures { result ≡ stored_of s }
{
    Settings {
        key: stored_strand(s.key),
        bed: stored_strand(s.bed),
        duck: stored_duck(s.duck),
    }
}

// A strand's settings in a fresh chain.
fn fresh_strand() -> VadSettings
    ensures { result ≡ fresh_strand }
{
    VadSettings {
        threshold: 0.5,
        hold_ms: 300.0,
        gate_lufs: Lufs(-50.0),
    }
}

// The ducker's.
fn fresh_duck() -> Duck
    ensures { result ≡ fresh_duck }
{
    Duck {
        enabled: true,
        target_lu: 5.0,
        overvoice_lu: 13.0,
        max_reduction_db: Db(24.0),
        speed: 1.0,
        bed_voice: true,
    }
}

impl Settings {
    // The settings of a fresh chain.
    pub fn new() -> Self
        ensures { result ≡ fresh_settings }
    {
        Self {
            key: fresh_strand(),
            bed: fresh_strand(),
            duck: fresh_duck(),
        }
    }

    // Whether a settings call with these is refused.
    pub fn outside_call(self) -> bool
        ensures { result ≡ outside_settings call_ranges self }
    {
        CALL_RANGES.outside_settings(self)
    }

    // Whether no image can hold these for their ranges.
    pub fn outside_image(self) -> bool
        ensures { result ≡ outside_settings image_ranges self }
    {
        IMAGE_RANGES.outside_settings(self)
    }
}
