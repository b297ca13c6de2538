// The beds that have a name: mono, stereo, 5.1 and 7.1, with their layouts (specs/Beds.antt). Channels are in ffmpeg's order.
#![tactic(auto)]

ghost use Rattle.std.specs.Prelude.{◌≡◌, ◌<◌};
ghost use Rattle.beds.specs.Beds.{left, right, layout_for, found_of};
ghost use Rattle.beds.specs.declared.Bed.TheVariants.{Stereo, FiveOne, SevenOne};

use layout::{CENTRE, Layout, Place};

#[derive(Clone, Copy)]
pub enum Bed {
    Mono,
    Stereo,
    FiveOne,
    SevenOne,
}

// ---- places

// So many degrees to the left.
fn left(degrees: u64) -> Place
    ensures { result ≡ left degrees }
{
    Place {
        azimuth: degrees,
        ..CENTRE
    }
}

// So many degrees to the right: in two's complement.
fn right(degrees: u64) -> Place
    requires { 0 < degrees }
    ensures { result ≡ right degrees }
{
    Place {
        azimuth: degrees.wrapping_neg(),
        ..CENTRE
    }
}

const LFE: Place = Place { lfe: 1, ..CENTRE };

// ---- layouts

#[tactic(auto, unfolding(crate::specs::Beds::layout_for, sequence::specs::History::filled))]
fn stereo() -> Layout
    ensures { result ≡ layout_for Stereo }
{
    let places = [
        left(30),
        right(30),
        CENTRE,
        CENTRE,
        CENTRE,
        CENTRE,
        CENTRE,
        CENTRE,
    ];
    Layout { count: 2, places }
}

#[tactic(auto, unfolding(crate::specs::Beds::layout_for, sequence::specs::History::filled))]
fn five_one() -> Layout
    ensures { result ≡ layout_for FiveOne }
{
    let places = [
        left(30),
        right(30),
        CENTRE,
        LFE,
        left(110),
        right(110),
        CENTRE,
        CENTRE,
    ];
    Layout { count: 6, places }
}

#[tactic(auto, unfolding(crate::specs::Beds::layout_for, sequence::specs::History::filled))]
fn seven_one() -> Layout
    ensures { result ≡ layout_for SevenOne }
{
    let places = [
        left(30),
        right(30),
        CENTRE,
        LFE,
        left(135),
        right(135),
        left(90),
        right(90),
    ];
    Layout { count: 8, places }
}

impl Bed {
    // Its layout.
    #[tactic(auto, using(crate::proofs::Beds::mono_layout))]
    pub fn layout(self) -> Layout
        ensures { result ≡ layout_for self }
    {
        match self {
            Bed::Mono => Layout::new(),
            Bed::Stereo => stereo(),
            Bed::FiveOne => five_one(),
            Bed::SevenOne => seven_one(),
        }
    }
}

// The bed that a word names.
#[tactic(auto, unfolding(crate::specs::Beds::found_of))]
pub fn find(word: &[u8]) -> Option<Bed>
    ensures { result ≡ found_of word.now }
{
    match word {
        b"mono" => Some(Bed::Mono),
        b"stereo" => Some(Bed::Stereo),
        b"5.1" => Some(Bed::FiveOne),
        b"7.1" => Some(Bed::SevenOne),
        _ => None,
    }
}
