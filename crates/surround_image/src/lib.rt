// The 88 words of a bed's channels in an image: how many there are, where each of eight is, and the numbers of channels 2 to 8;
// written, and read back. Words that break a rule are read as some good channels, whose words differ from those read.
#![tactic(auto)]

ghost use Rattle.std.specs.Prelude.{◌≡◌, ℕ, ◌+◌, ◌*◌, ◌^◌, ◌≤◌, length, get_or};
ghost use Rattle.blocks.specs.Lists.{table};
ghost use Rattle.layout.specs.Layout.{blank};
ghost use Rattle.channels.specs.Channels.{resting};
ghost use Rattle.codec.specs.Run.{Run};
ghost use Rattle.codec.specs.Codec.{Codec, rows_enc, row_at};
ghost use Rattle.surround_image.specs.Surround.{
  angle,
  place,
  channel,
  count,
  surround,
};
ghost use Rattle.surround_image.specs.Sizes.{place-size, channel-size};

use channels::{Channel, Surround};
use layout::{CENTRE, Layout, Place};

// Where the parts begin; the count is the first.
const PLACES: usize = 1;

const OTHERS: usize = 25;

// What an image may hold; what a call may bring is `Place::within`'s, and may come to differ.
const AZIMUTH: u64 = 180; // degrees: at most, on either side

const ELEVATION: u64 = 90;

const FLAG: u64 = 2; // a flag is below it

const COUNT: u64 = 9; // the number of channels is below it

// ---- values of several words, from place `at` on
//
// Each function says how far its words reach, so that their places fit: a type for a place, or the slice from it on, would need the same bound at each
// sum. The bound is that of a place of `strand_image`'s filters, a u32.

// A value of so many words: how it is written and read, and what stands in an unused place. A trait of this crate, since one of `codec` can't be
// given to a type of `layout` or `channels` here.
trait Part: Copy {
    ghost codec: { Codec Self };

    ghost unused: { Self };

    ghost WORDS: { ℕ };

    const WORDS: usize;

    fn put(self, w: &mut [u64], at: usize)
        requires { at + WORDS ≤ 2 ^ 32 }
        ensures { Run w.old at WORDS (codec.enc self) w.new };

    fn get(w: &[u64], at: usize) -> Self
        requires { at + WORDS ≤ 2 ^ 32 }
        ensures { result ≡ codec.dec w.now at };

    fn unused() -> Self
        ensures { result ≡ unused };

    ghost size: { codec.size ≡ WORDS };
}

// A place; an LFE with an angle is read as straight ahead.
impl Part for Place {
    ghost codec = { place };

    ghost unused = { blank };

    ghost WORDS = { 3 };

    const WORDS: usize = 3;

    fn put(self, w: &mut [u64], at: usize) {
        codec::put(w, at, self.azimuth);
        codec::put(w, at + 1, self.elevation);
        codec::put(w, at + 2, self.lfe);
    }

    fn get(w: &[u64], at: usize) -> Place {
        let azimuth = get_angle(w, at, AZIMUTH);
        let elevation = get_angle(w, at + 1, ELEVATION);
        let lfe = codec::get_capped(w, at + 2, FLAG);
        if (lfe == 0) | (azimuth == 0) & (elevation == 0) {
            return Place {
                azimuth,
                elevation,
                lfe,
            };
        }
        CENTRE
    }

    fn unused() -> Place {
        CENTRE
    }

    ghost size = { place-size };
}

impl Part for Channel {
    ghost codec = { channel };

    ghost unused = { resting };

    ghost WORDS = { 9 };

    const WORDS: usize = 9;

    fn put(self, w: &mut [u64], at: usize) {
        strand_image::put_filter(w, at as u32, self.shelf);
        strand_image::put_filter(w, at as u32 + 4, self.high_pass);
        codec::put(w, at + 8, self.fast);
    }

    fn get(w: &[u64], at: usize) -> Channel {
        let shelf = strand_image::get_filter(w, at as u32);
        let high_pass = strand_image::get_filter(w, at as u32 + 4);
        let fast = codec::get(w, at + 8);
        Channel {
            shelf,
            high_pass,
            fast,
        }
    }

    fn unused() -> Channel {
        Channel::new()
    }

    ghost size = { channel-size };
}

// The word of an angle of at most `most` degrees, on either side, or 0.
fn get_angle(w: &[u64], at: usize, most: u64) -> u64
    ensures { result ≡ (angle most).read (get_or w.now at 0) }
{
    let a: u64 = codec::get(w, at);
    if layout::size(a) <= most { a } else { 0 }
}

// The values v, one after another.
fn put_rows<T: Part>(w: &mut [u64], at: usize, v: &[T])
    requires { at + T.WORDS * length v.now ≤ 2 ^ 32 }
    ensures { Run w.old at (T.WORDS * length v.now) (rows_enc T.codec.enc v.now) w.new }
{
    for (k, x) in v.iter().enumerate() {
        x.put(w, at + T::WORDS * k);
    }
}

// Value k of n, or what stands in an unused place.
fn row<T: Part>(w: &[u64], at: usize, n: usize, k: usize) -> T
    requires { at + T.WORDS * k + T.WORDS ≤ 2 ^ 32 }
    ensures { result ≡ row_at T.codec T.unused w.now at n k }
{
    if k < n {
        T::get(w, at + T::WORDS * k)
    } else {
        T::unused()
    }
}

// n values, into the first places of v.
fn get_rows<T: Part>(w: &[u64], at: usize, n: usize, v: &mut [T])
    requires { at + T.WORDS * length v.old ≤ 2 ^ 32 }
    ensures { v.new ≡ table (row_at T.codec T.unused w.now at n) (length v.old) }
{
    for (k, x) in v.iter_mut().enumerate() {
        *x = row(w, at, n, k);
    }
}

// ---- all of them

// The words of a bed's channels, from place `at` on; what has no place in w is dropped. A u16, here and at `get_surround`, so that nothing is asked of a
// caller.
pub fn put_surround(w: &mut [u64], at: u16, s: Surround)
    ensures { Run w.old at 88 (surround.enc s) w.new }
{
    let i = at as usize;
    codec::put(w, i, s.layout.count);
    put_rows(w, i + PLACES, &s.layout.places);
    put_rows(w, i + OTHERS, &s.others);
}

// The number of channels; one that is out of its range is read as 1.
fn get_count(w: &[u64], at: usize) -> u64
    ensures { result ≡ count.dec w.now at }
{
    let n = codec::get_capped(w, at, COUNT);
    if n == 0 { 1 } else { n }
}

// The bed's channels that the words from place `at` on are read as; a word that isn't there counts as 0.
pub fn get_surround(w: &[u64], at: u16) -> Surround
    ensures { result ≡ surround.dec w.now at }
{
    let i = at as usize;
    let count = get_count(w, i);
    let n = count as usize;
    let mut places = [CENTRE; 8];
    get_rows(w, i + PLACES, n, &mut places);
    let mut others = [Channel::new(); 7];
    get_rows(w, i + OTHERS, n - 1, &mut others);
    Surround {
        layout: Layout { count, places },
        others,
    }
}
