// The strands of a frame call: the signal of the key, and those of the bed's channels.
ghost use Rattle.std.specs.Prelude.{◌≡◌, ◌*◌, ◌≤◌, cond, nat_le};

use super::file::{EndsEarly, Words};
use super::signal;
use super::signal::Signal;
use layout::MOST;
use level::FRAME;

// The number of channels stands beside the eight signals: a recorded call has eight, whatever its number of channels, which
// may be one that no bed has.
#[derive(Clone, Copy)]
pub struct Strands {
    pub key: Signal,
    bed: [Signal; MOST],
    channels: usize,
}

impl Strands {
    // The strands of a call for a bed of one channel: three words for each of the two signals.
    pub fn of_one(words: &mut Words) -> Result<Strands, EndsEarly> {
        let key = Signal::from(words.array()?);
        let bed = Signal::from(words.array()?);
        Ok(Strands {
            key,
            bed: [bed; MOST],
            channels: 1,
        })
    }

    // Those of a call for a bed of several channels: their number, which may be one that no bed has, the key's signal, and a signal of each of
    // eight channels.
    pub fn of_several(words: &mut Words) -> Result<Strands, EndsEarly> {
        let channels = words.word()? as usize;
        let key = Signal::from(words.array()?);
        let mut bed = [key; MOST];
        for signal in &mut bed {
            *signal = Signal::from(words.array()?);
        }
        Ok(Strands { key, bed, channels })
    }

    // How many samples a frame of the bed has: none where it can't have so many channels.
    pub fn bed_length(self) -> usize
        ensures { (result ≡ cond (nat_le self.channels 8) (480 * self.channels) 0) × (result ≤ 3840) }
    {
        if self.channels <= MOST {
            FRAME * self.channels
        } else {
            0
        }
    }

    // Sample k of a bed that begins with sample `first` of each channel: a frame of each, and of the last as many as are left. A bed without
    // channels has the key's samples, from the next frame on.
    fn bed_sample(self, first: u64, k: usize) -> f32 {
        match self.channels.min(MOST).checked_sub(1) {
            Some(last) => {
                let channel = (k / FRAME).min(last);
                self.bed[channel].sample(first.wrapping_add((k - FRAME * channel) as u64))
            }
            None => self
                .key
                .sample(signal::frame_start(first, 1).wrapping_add(k as u64)),
        }
    }

    pub fn fill_bed(self, first: u64, to: &mut [f32]) {
        for (k, x) in to.iter_mut().enumerate() {
            *x = self.bed_sample(first, k);
        }
    }
}
