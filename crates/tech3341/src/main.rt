// EBU Tech 3341's minimum requirements for momentary (M) and short-term (S) loudness, tried on `Level`: table 1, cases 1, 2 and 9 to 14.
// The document's files are stereo, with the same sine in both channels. A strand has one of them, hence half the power:
// what is expected is the document's value less 10 log10 2 = 3.01 LU. The tolerance is the document's.
// The other cases are of integrated loudness, loudness range, true peak or more channels, which `Level` doesn't measure.
// Durations are in frames of 10 ms, levels in dB below full scale (peak).
#![tactic(auto)]

ghost use Rattle.std.specs.Prelude.{◌<◌, ◌≤◌};

use float::Lufs;
use level::{FRAME, Level};
use std::io::Stdout;
use std::{array, fmt, io};

const TOLERANCE: f64 = 0.1; // LU

const MONO: f64 = 3.010299956639812; // LU: 10 log10 2

const SECOND: u64 = 100; // frames

// One period of 1 kHz at 48 kHz: sin(2 pi k / 48). A frame has ten, so each starts at phase 0.
const SINE: [f32; 48] = [
    0.0,
    0.13052619,
    0.25881904,
    0.38268343,
    0.5,
    0.6087614,
    0.70710677,
    0.7933533,
    0.8660254,
    0.9238795,
    0.9659258,
    0.9914449,
    1.0,
    0.9914449,
    0.9659258,
    0.9238795,
    0.8660254,
    0.7933533,
    0.70710677,
    0.6087614,
    0.5,
    0.38268343,
    0.25881904,
    0.13052619,
    0.0,
    -0.13052619,
    -0.25881904,
    -0.38268343,
    -0.5,
    -0.6087614,
    -0.70710677,
    -0.7933533,
    -0.8660254,
    -0.9238795,
    -0.9659258,
    -0.9914449,
    -1.0,
    -0.9914449,
    -0.9659258,
    -0.9238795,
    -0.8660254,
    -0.7933533,
    -0.70710677,
    -0.6087614,
    -0.5,
    -0.38268343,
    -0.25881904,
    -0.13052619,
];

// 10^(-19 / 20), 10^(-20 / 20) and so on to 10^(-38 / 20).
const AMPLITUDES: [f32; 20] = [
    0.11220185,
    0.1,
    0.0891251,
    0.07943282,
    0.070794575,
    0.06309573,
    0.056234132,
    0.050118722,
    0.044668358,
    0.039810717,
    0.035481337,
    0.031622775,
    0.028183829,
    0.025118865,
    0.022387212,
    0.019952623,
    0.017782794,
    0.015848933,
    0.014125375,
    0.012589254,
];

// A tone at so many dB below full scale (peak): one of those in the table.
#[derive(Clone, Copy)]
struct Tone {
    below: u8,
    ghost in_table: { (19 ≤ below) × (below < 39) },
}

// Which of the two readings a requirement is of.
#[derive(Clone, Copy)]
enum Window {
    Momentary,
    ShortTerm,
}

// What was read of a tone, LUFS. It is printed with what the document expects, and with whether that is met.
#[derive(Clone, Copy)]
struct Tried {
    read: f64,
    tone: Tone,
}

// The least and the greatest of some readings, LUFS, by the port's min and max: std's answer otherwise at ties of zeros and at NaN.
#[derive(Clone, Copy)]
struct Extremes {
    least: f64,
    greatest: f64,
}

// A level, and the extremes of what it read once `unread` frames have passed.
#[derive(Clone, Copy)]
struct Meter {
    level: Level,
    unread: u64,
    momentary: Extremes,
    short_term: Extremes,
}

// One of the document's cases, by its number, and the reading that it is of.
#[derive(Clone, Copy)]
struct Case {
    out: Stdout,
    number: u64,
    window: Window,
}

// A frame of the sine.
fn samples(amplitude: f32) -> [f32; FRAME] {
    array::from_fn(|k| SINE[k % 48] * amplitude)
}

// A negative number of LUFS as tenths below 0, rounded; 0 for any other. No saturating cast: a must-fail edit is made in the bound.
fn tenths(lufs: f64) -> u64 {
    let t = 0.5 - 10.0 * lufs;
    if t > -1.0 && t < 18446744073709551616.0 {
        std::num::truncating_f64_to_u64(t)
    } else {
        0
    }
}

impl Tone {
    fn at(below: u8) -> Self
        requires { (19 ≤ below) × (below < 39) }
    {
        Self { below }
    }

    fn amplitude(self) -> f32 {
        AMPLITUDES[usize::from(self.below - 19)]
    }
}

impl Window {
    // A twentieth of the window, frames.
    fn twentieth(self) -> u64
        ensures { result ≤ 15 }
    {
        match self {
            Self::Momentary => 2,
            Self::ShortTerm => 15,
        }
    }
}

impl fmt::Display for Window {
    fn fmt<W: fmt::Write>(&self, f: &mut fmt::Formatter<W>) -> fmt::Result {
        match self {
            Window::Momentary => write!(f, "M"),
            Window::ShortTerm => write!(f, "S"),
        }
    }
}

impl Tried {
    // Whether the reading is what the document expects of the tone.
    fn is_met(self) -> bool {
        let expected = -(f64::from(self.tone.below) + MONO);
        self.read - expected <= TOLERANCE && expected - self.read <= TOLERANCE
    }
}

impl fmt::Display for Tried {
    fn fmt<W: fmt::Write>(&self, f: &mut fmt::Formatter<W>) -> fmt::Result {
        let t = tenths(self.read);
        let whole = t / 10;
        let tenth = t % 10;
        let expected = self.tone.below + 3;
        let verdict = if self.is_met() { "met" } else { "missed" };
        write!(
            f,
            "-{whole}.{tenth} LUFS, expected -{expected}.01 within 0.1 LU: {verdict}"
        )
    }
}

impl Extremes {
    const NONE: Extremes = Extremes {
        least: f64::INFINITY,
        greatest: f64::NEG_INFINITY,
    };

    fn with(self, reading: Lufs) -> Extremes {
        Extremes {
            least: float::min(self.least, reading.0),
            greatest: float::max(self.greatest, reading.0),
        }
    }
}

impl Meter {
    fn new(unread: u64) -> Self {
        Self {
            level: Level::new(),
            unread,
            momentary: Extremes::NONE,
            short_term: Extremes::NONE,
        }
    }

    // The same level, with no reading counted yet.
    fn again(self) -> Meter {
        let level = self.level;
        Meter {
            level,
            ..Meter::new(0)
        }
    }

    fn frame(self, x: &[f32]) -> Meter {
        let f = self.level.frame(x);
        let level = f.level;
        let reading = f.reading;
        if 0 < self.unread {
            return Meter {
                level,
                unread: self.unread - 1,
                ..self
            };
        }
        Meter {
            level,
            momentary: self.momentary.with(reading.momentary),
            short_term: self.short_term.with(reading.short_term),
            ..self
        }
    }

    // Frames of the sine; of silence where the amplitude is 0.
    fn play(mut self, amplitude: f32, frames: u64) -> Meter {
        let x = samples(amplitude);
        for _ in 0..frames {
            self = self.frame(&x);
        }
        self
    }

    fn silence(self, frames: u64) -> Meter {
        self.play(0.0, frames)
    }

    fn tone(self, tone: Tone, frames: u64) -> Meter {
        self.play(tone.amplitude(), frames)
    }

    // As many silences of some frames each.
    fn silences(mut self, frames: u64, times: u64) -> Meter {
        for _ in 0..times {
            self = self.silence(frames);
        }
        self
    }

    // i twentieths of a window of silence, then a tone that fills the window.
    fn burst(self, w: Window, i: u64, tone: Tone) -> Meter {
        let frames = w.twentieth();
        self.silences(frames, i).tone(tone, 20 * frames)
    }

    fn extremes(self, w: Window) -> Extremes {
        match w {
            Window::Momentary => self.momentary,
            Window::ShortTerm => self.short_term,
        }
    }
}

impl Case {
    // A reading that is to stay the same.
    fn constant(self, m: Meter, tone: Tone) -> io::Result<()> {
        let Case {
            out,
            number,
            window,
        } = self;
        let e = m.extremes(window);
        let least = Tried {
            read: e.least,
            tone,
        };
        let greatest = Tried {
            read: e.greatest,
            tone,
        };
        println!(out; "case {number}, {window}, least {least}")?;
        println!(out; "case {number}, {window}, greatest {greatest}")
    }

    // The greatest reading of segment i.
    fn greatest(self, m: Meter, i: u64, tone: Tone) -> io::Result<()> {
        let Case {
            out,
            number,
            window,
        } = self;
        let greatest = Tried {
            read: m.extremes(window).greatest,
            tone,
        };
        println!(out; "case {number}, i = {i}, {window}, greatest {greatest}")
    }

    // Cases 9 and 12: a tone at -20 dBFS and then at -30 dBFS, over and over. The reading is constant after `unread` frames.
    fn alternating(self, unread: u64, loud: u64, soft: u64, times: u64) -> io::Result<()> {
        let mut m = Meter::new(unread);
        for _ in 0..times {
            m = m.tone(Tone::at(20), loud).tone(Tone::at(30), soft);
        }
        self.constant(m, Tone::at(23))
    }

    // Cases 10 and 13, for meters of files: silence for i twentieths of the window, a tone of the window's length at -23 dBFS, silence of 1 s.
    // Each file has a fresh level.
    // The document has 20 files. Here i goes from 0 to 20, so that they are among these whether it counts from 0 or from 1.
    fn files(self) -> io::Result<()> {
        let tone = Tone::at(23);
        for i in 0..=20 {
            let m = Meter::new(0).burst(self.window, i, tone).silence(SECOND);
            self.greatest(m, i, tone)?;
        }
        Ok(())
    }

    // Cases 11 and 14, for live meters: one level hears 20 segments of twice the window's length, with the silence and the tone as above, then
    // silence.
    // The document expects -38 to -19 of them, so the tone of segment i is taken to be at i - 38 dBFS, with i from 0 to 19.
    // (Were i counted from 1 and the first tone at -38 dBFS all the same, each tone would come a twentieth of the window later.)
    fn live(self) -> io::Result<()> {
        let mut m = Meter::new(0);
        for i in 0..20u8 {
            let segment = u64::from(i);
            let tone = Tone::at(38 - i);
            m = m
                .again()
                .burst(self.window, segment, tone)
                .silences(self.window.twentieth(), 20 - segment);
            self.greatest(m, segment, tone)?;
        }
        Ok(())
    }
}

// Cases 1 and 2: a tone of 20 s. M and S are constant from the first frame on: while there are fewer frames than a window has, it has those.
fn steady(out: Stdout, number: u64, tone: Tone) -> io::Result<()> {
    let m = Meter::new(0).tone(tone, 20 * SECOND);
    for window in [Window::Momentary, Window::ShortTerm] {
        let case = Case {
            out,
            number,
            window,
        };
        case.constant(m, tone)?;
    }
    Ok(())
}

fn main(rt: HostRuntime) -> io::Result<()> {
    let out = rt.stdout();
    let case = |number, window| Case {
        out,
        number,
        window,
    };
    steady(out, 1, Tone::at(23))?;
    steady(out, 2, Tone::at(33))?;
    case(9, Window::ShortTerm).alternating(3 * SECOND, 134, 166, 5)?;
    case(10, Window::ShortTerm).files()?;
    case(11, Window::ShortTerm).live()?;
    case(12, Window::Momentary).alternating(SECOND, 18, 22, 25)?;
    case(13, Window::Momentary).files()?;
    case(14, Window::Momentary).live()
}
