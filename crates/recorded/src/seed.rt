// The seed of a signal, 1 to 65,535: the period of what has one, in samples, and else what noise begins with.
ghost use Rattle.std.specs.Prelude.{◌≡◌, ◌<◌};

#[derive(Clone, Copy)]
pub struct Seed {
    pub value: u64,
    ghost in_range: { (0 < value) × (value < 65536) },
}

// A word of a recorded file counts modulo 2^16, and 0 as 1.
impl From<u64> for Seed {
    ghost use Rattle.recorded.specs.Signals.{seed_of};

    ghost from_gives = { λ word seed. seed.value ≡ seed_of word };

    fn from(word: u64) -> Seed {
        match word % 65536 {
            0 => Seed { value: 1 },
            value => Seed { value },
        }
    }
}
