// A chain: the key strand (0, the commentator), the bed strand (1) with its channels, the settings and the ducker. A frame, a settings call, a reset
// or a layout call gets an answer or one refusal, and a refusal leaves the chain as it was.
#![tactic(auto)]

ghost use Rattle.std.specs.Prelude.{◌≡◌, take};
ghost use Rattle.level.specs.Bs1770.{frame_length};
ghost use Rattle.level.specs.Weighing.{run_of};
ghost use Rattle.level.specs.Level.{start_of};
ghost use Rattle.pairs.specs.Pairs.{weighing_at};
ghost use Rattle.paired_filters.specs.Pairs.{banded_at};
ghost use Rattle.chain.specs.StrandFrames.{Whole, filters_of, pitch_of, finished_of};
ghost use Rattle.chain.specs.Chain.{fresh_of, inputs_of, work_of, left_as_was, passed_of, verdict_of, heard_of, frame_of, set_of, reset_of, channel_count, bed_length, layout_of};

use channels::Surround;
use comis::loop_bank::Loops;
use float::Db;
use layout::Layout;
use level::{FRAME, Level};
use paired_filters::Filtered;
use pairs::{Pair, Place};
use ratio::{Inputs, RatioStatus};
use refusal::Refusal;
use settings::Settings;
use vad::{Strand, VadSettings, VadState};

#[derive(Clone, Copy)]
pub struct Chain {
    pub settings: Settings,
    pub key: Strand,
    pub bed: Strand,
    pub loops: Loops,
    pub surround: Surround,
}

// What a frame that passes is answered: the unrounded reduction of the bed, what is shown of it, and each strand's state.
#[derive(Clone, Copy)]
pub struct Answer {
    pub reduction: Db,
    pub status: RatioStatus,
    pub key: VadState,
    pub bed: VadState,
}

// The chain after a call, and what the call got. The chain stands beside the outcome, and no `&mut self`: in the specification's form a record is handed on
// and handed back by each step, and after a refusal too it is promised.
#[derive(Clone, Copy)]
pub struct After<T> {
    pub chain: Chain,
    pub outcome: Result<T, Refusal>,
}

// After a frame.
pub type Framed = After<Answer>;

// After a settings call, a reset or a layout call.
pub type Changed = After<()>;

// A strand after a frame, and its channels.
#[derive(Clone, Copy)]
pub struct StrandFrame {
    pub framed: vad::Framed,
    pub surround: Surround,
}

// What a frame makes of a chain's strands and ducker, before anything of it is kept.
#[derive(Clone, Copy)]
pub struct Worked {
    pub key: vad::Framed,
    pub bed: vad::Framed,
    pub surround: Surround,
    pub duck: ratio::Framed,
}

// What follows the filters of one strand, which have heard its first channel: both strands' filters f, its place in them (the key's is the first), the
// outputs of its pitch filter, and the samples of all its channels. The key is the case of one channel. Called for both strands, this stays a function
// of its own, so that the compiler stores what the filters leave in pairs and computes both strands with one instruction.
#[tactic(auto, unfolding(crate::specs::StrandFrames::finished_of))]
fn finished(
    t: Strand,
    surround: Surround,
    f: &Filtered,
    place: Place,
    pitch: &[f64; FRAME],
    xs: &[f32],
    settings: VadSettings,
) -> StrandFrame
    ensures { weighing_at f.now.weighed place ≡ run_of (start_of t.level) (take frame_length xs.now) → result ≡ finished_of t surround (banded_at f.now.banded place) pitch.now xs.now settings }
{
    let l = surround.frame(f.weighed.at(place), t.level, xs);
    let h = t.detector.finish(f.banded.at(place), pitch);
    StrandFrame {
        framed: vad::finish(t.decision, l.framed, h, settings),
        surround: l.surround,
    }
}

// What the ducker reads of the two strands after a frame.
#[tactic(auto, unfolding(crate::specs::Chain::inputs_of))]
fn inputs(key: vad::Framed, bed: vad::Framed) -> Inputs
    ensures { result ≡ inputs_of key bed }
{
    Inputs {
        key_voice: key.state.speech_active,
        target_voice: bed.state.speech_active,
        dialogue_short_term: key.reading.short_term,
        bed_short_term: bed.reading.short_term,
        bed_momentary: bed.reading.momentary,
        bed_fast: bed.reading.fast,
    }
}

impl Worked {
    // Whether all of it can be kept. Refusals 4 and 5, over both strands.
    fn judged(&self) -> Result<(), Refusal>
        ensures { result ≡ verdict_of self.now }
    {
        let finite = self.key.finite && self.bed.finite && self.duck.finite;
        if !finite {
            return Err(Refusal::Runaway);
        }
        if self.key.full || self.bed.full {
            return Err(Refusal::CounterFull);
        }
        Ok(())
    }
}

impl Chain {
    // A fresh chain.
    pub fn new() -> Self
        ensures { result ≡ fresh_of }
    {
        Self {
            settings: Settings::new(),
            key: Strand::new(),
            bed: Strand::new(),
            loops: Loops::new(),
            surround: Surround::new(),
        }
    }

    // Both strands' filters over the samples of the key and of the bed's first channel; the outputs of their pitch filters go to `key_pitch` and
    // `bed_pitch`.
    fn filtered(
        self,
        key: &[f32],
        bed: &[f32],
        key_pitch: &mut [f64; FRAME],
        bed_pitch: &mut [f64; FRAME],
    ) -> Filtered
        ensures { (result ≡ filters_of self key.now bed.now) × (key_pitch.new ≡ pitch_of self.key key.now)
            × (bed_pitch.new ≡ pitch_of self.bed bed.now) }
    {
        let weighed = Pair {
            first: self.key.level.start(),
            second: self.bed.level.start(),
        };
        let banded = Pair {
            first: self.key.detector.filters.begin(),
            second: self.bed.detector.filters.begin(),
        };
        let mut xs = [0.0; FRAME];
        let mut ys = [0.0; FRAME];
        detector::samples(key, &mut xs);
        detector::samples(bed, &mut ys);
        paired_filters::filter_frame(weighed, banded, &xs, &ys, key_pitch, bed_pitch)
    }

    // Key strand, bed strand, then the ducker. `frame` has tested both slices.
    fn work(self, key: &[f32], bed: &[f32]) -> Worked
        requires { Whole (channel_count self) key.now bed.now }
        ensures { result ≡ work_of self key.now bed.now }
    {
        let mut key_pitch = [0.0; FRAME];
        let mut bed_pitch = [0.0; FRAME];
        let f = self.filtered(key, bed, &mut key_pitch, &mut bed_pitch);
        let key_frame = finished(
            self.key,
            Surround::new(),
            &f,
            Place::First,
            &key_pitch,
            key,
            self.settings.key,
        );
        let bed_frame = finished(
            self.bed,
            self.surround,
            &f,
            Place::Second,
            &bed_pitch,
            bed,
            self.settings.bed,
        );
        let duck = ratio::frame(
            self.loops,
            self.settings.duck,
            inputs(key_frame.framed, bed_frame.framed),
        );
        Worked {
            key: key_frame.framed,
            bed: bed_frame.framed,
            surround: bed_frame.surround,
            duck,
        }
    }

    // The call is refused, and the chain stays as it was.
    pub fn refused<T: Copy>(self, refusal: Refusal) -> After<T>
        ensures { result ≡ left_as_was self refusal }
    {
        After {
            chain: self,
            outcome: Err(refusal),
        }
    }

    // The frame passes: what was worked out is kept.
    #[tactic(auto, unfolding(crate::specs::Chain::passed_of))]
    fn passed(self, w: Worked) -> Framed
        ensures { result ≡ passed_of self w }
    {
        After {
            chain: Chain {
                key: w.key.strand,
                bed: w.bed.strand,
                loops: w.duck.loops,
                surround: w.surround,
                ..self
            },
            outcome: Ok(Answer {
                reduction: w.duck.reduction,
                status: w.duck.status,
                key: w.key.state,
                bed: w.bed.state,
            }),
        }
    }

    // How many samples a frame of the bed has: 480 for each channel of the layout in force. `frame_bytes::bed_samples` is the same product: of the
    // crates that both use, `layout` has no FRAME and `level` no count of channels.
    fn bed_length(self) -> usize
        ensures { result ≡ bed_length self }
    {
        layout::channel_count(self.surround.layout.count) * FRAME
    }

    // Whether a frame can be heard. Refusals 1 and 2, over both strands.
    fn heard(self, key: &[f32], bed: &[f32]) -> Result<(), Refusal>
        ensures { result ≡ heard_of self key.now bed.now }
    {
        if key.len() != FRAME || bed.len() != self.bed_length() {
            return Err(Refusal::ShortFrame);
        }
        if !float::all_finite(key) || !float::all_finite(bed) {
            return Err(Refusal::BadSample);
        }
        Ok(())
    }

    // One frame: 480 samples of the key, and of each of the bed's channels, one channel after the other. Refusals 1, 2, 4, 5, in this order over both
    // strands; a refusal leaves the chain as it was. What was worked out stays in its place while it is judged: a Result of it takes 5,400
    // instructions a frame more.
    // `key` and `bed` are two slices, here and at each interface, as C lends them: the key's length is fixed, and the bed's goes with the layout. A
    // struct would only be made and taken apart at each.
    #[tactic(auto, unfolding(crate::specs::Chain::frame_of, crate::specs::Chain::judged_of, crate::specs::Chain::refused_of))]
    pub fn frame(self, key: &[f32], bed: &[f32]) -> Framed
        ensures { result ≡ frame_of self key.now bed.now }
    {
        if let Err(refusal) = self.heard(key, bed) {
            return self.refused(refusal);
        }
        let w = self.work(key, bed);
        match w.judged() {
            Ok(()) => self.passed(w),
            Err(refusal) => self.refused(refusal),
        }
    }

    // All settings are replaced, negative zero by zero. Refusal 3.
    #[tactic(auto, unfolding(crate::specs::Chain::set_of))]
    pub fn set(self, s: Settings) -> Changed
        ensures { result ≡ set_of self s }
    {
        if s.outside_call() {
            return self.refused(Refusal::BadSetting);
        }
        After {
            chain: Chain {
                settings: settings::stored(s),
                ..self
            },
            outcome: Ok(()),
        }
    }

    // The key strand (0) or the bed strand (1) begins anew, its counts apart; the bed keeps its layout. Refusal 9: a strand is a number here, as a call
    // brings it. An enum would put this test and its refusal into each interface.
    #[tactic(auto, unfolding(crate::specs::Chain::reset_of))]
    pub fn reset(self, strand: u64) -> Changed
        ensures { result ≡ reset_of self strand }
    {
        let chain = match strand {
            0 => Chain {
                key: self.key.reset(),
                ..self
            },
            1 => Chain {
                bed: self.bed.reset(),
                surround: Surround::of(self.surround.layout),
                ..self
            },
            _ => return self.refused(Refusal::NoStrand),
        };
        After {
            chain,
            outcome: Ok(()),
        }
    }

    // The bed's layout is replaced, and its level begins anew; all else of the bed stays. Refusal 10.
    #[tactic(auto, unfolding(crate::specs::Chain::layout_of))]
    pub fn layout(self, l: Layout) -> Changed
        ensures { result ≡ layout_of self l }
    {
        if !l.within() {
            return self.refused(Refusal::BadLayout);
        }
        After {
            chain: Chain {
                bed: Strand {
                    level: Level::new(),
                    ..self.bed
                },
                surround: Surround::of(l.stored()),
                ..self
            },
            outcome: Ok(()),
        }
    }
}
