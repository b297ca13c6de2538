// A bed's layout: 1 to 8 channels, each at an azimuth and an elevation in whole degrees or an LFE, and their weights by BS.1770-4.
// Each field is a 64-bit word as it comes in a call or an image, a negative angle in two's complement: any words can be held, and turned away.
#![tactic(auto)]

ghost use Rattle.std.specs.Prelude.{◌≡◌, min};
ghost use Rattle.layout.specs.Layout.{channel_count, size_of, within_of, placed_of, layout_within, stored_of, mono_of, blanks};
ghost use Rattle.layout.specs.Weights.{weight_of, weights_of, no_weights};

// The most channels of a bed.
pub const MOST: usize = 8;

// Where a channel is: degrees, and 1 for an LFE, else 0.
#[derive(Clone, Copy)]
pub struct Place {
    pub azimuth: u64,
    pub elevation: u64,
    pub lfe: u64,
}

// Straight ahead; also what stands in a place that isn't used.
pub const CENTRE: Place = Place {
    azimuth: 0,
    elevation: 0,
    lfe: 0,
};

// The first count of the places are the channels', in their order. The count stands beside an array: there is no heap, and it
// too is a word as it comes, of which any can be held.
#[derive(Clone, Copy)]
pub struct Layout {
    pub count: u64,
    pub places: [Place; 8],
}

// The channels that a frame has of a bed of so many: one of a bed without any, and eight of a larger one.
pub fn channel_count(count: u64) -> usize
    ensures { result ≡ channel_count count }
{
    (count as usize).clamp(1, MOST)
}

// How many degrees an angle is from 0, on either side.
#[tactic(auto, unfolding(crate::specs::Layout::size_of))]
pub fn size(angle: u64) -> u64
    ensures { result ≡ size_of angle }
{
    angle.cast_signed().unsigned_abs()
}

impl Place {
    // Whether both angles are in their ranges, an LFE's too, and the flag is 0 or 1.
    #[tactic(auto, unfolding(crate::specs::Layout::within_of))]
    pub fn within(self) -> bool
        ensures { result ≡ within_of self }
    {
        size(self.azimuth) <= 180 && size(self.elevation) <= 90 && self.lfe <= 1
    }

    // The place as it is stored: an LFE's angles are 0.
    #[tactic(auto, unfolding(crate::specs::Layout::placed_of))]
    pub fn placed(self) -> Place
        ensures { result ≡ placed_of self }
    {
        if self.lfe == 0 {
            self
        } else {
            Place {
                azimuth: 0,
                elevation: 0,
                ..self
            }
        }
    }

    // The channel's weight by BS.1770-4.
    #[tactic(auto, unfolding(crate::specs::Weights::weight_of, crate::specs::Weights::surround))]
    pub fn weight(self) -> f64
        ensures { result ≡ weight_of self }
    {
        if self.lfe != 0 {
            0.0
        } else if size(self.elevation) < 30 && (60..=120).contains(&size(self.azimuth)) {
            1.41
        } else {
            1.0
        }
    }
}

impl Layout {
    // A fresh chain's: one channel at 0, 0.
    #[tactic(auto, unfolding(crate::specs::Layout::blanks))]
    pub fn new() -> Self
        ensures { result ≡ mono_of }
    {
        Self {
            count: 1,
            places: [CENTRE; 8],
        }
    }

    // The number of channels in use, at most 8.
    pub fn channels(self) -> usize
        ensures { result ≡ min self.count 8 }
    {
        (self.count as usize).min(MOST)
    }

    // Whether it is accepted: 1 to 8 channels, each of them within the ranges.
    pub fn within(self) -> bool
        ensures { result ≡ layout_within self }
    {
        let n = self.count as usize;
        (1..=MOST).contains(&n) && self.places[..n].iter().all(|p| p.within())
    }

    // The layout as it is stored: an LFE's angles are 0, and what is unused is 0. By index, here and below: after a loop over `iter_mut().zip` nothing is
    // known of what it wrote.
    pub fn stored(self) -> Layout
        ensures { result ≡ stored_of self }
    {
        let mut places = [CENTRE; 8];
        for (i, place) in self.places[..self.channels()].iter().enumerate() {
            places[i] = place.placed();
        }
        Layout {
            count: self.count,
            places,
        }
    }

    // The channels' weights; 0 in the places after them.
    pub fn weights(self) -> [f64; 8]
        ensures { result ≡ weights_of self }
    {
        let mut weights = [0.0; 8];
        for (i, place) in self.places[..self.channels()].iter().enumerate() {
            weights[i] = place.weight();
        }
        weights
    }
}
