// A one-pole smoother of any number, with a time constant for each direction.
ghost use Rattle.std.specs.Prelude.{◌≡◌};
ghost use Rattle.comis.specs.Envelope.{coeff_of, process_of};

#[derive(Clone, Copy)]
pub struct EnvelopeDetector {
    pub current: f64,
}

// An envelope after a step, and whether the number that the step handed to e ^ x, if any, was finite.
// The flag stands beside the value, here and below, since refusal 4 tests it with the numbers of both strands, and the value is promised till then. A type
// for each, as each value has its own name.
#[derive(Clone, Copy)]
pub struct Stepped {
    pub envelope: EnvelopeDetector,
    pub finite: bool,
}

// The part of the distance to the target that a step leaves, and whether the number handed to e ^ x, if any, was finite.
#[derive(Clone, Copy)]
pub struct Coefficient {
    pub value: f64,
    pub finite: bool,
}

// By a time constant and a step, seconds. A time constant that isn't above zero or isn't finite, or a step of no time, means a jump to the target.
#[tactic(auto, unfolding(crate::specs::Envelope::coeff_of))]
fn coeff(time_constant: f64, dt_seconds: f64) -> Coefficient
    ensures { result ≡ coeff_of time_constant dt_seconds }
{
    if time_constant > 0.0 && float::finite(time_constant) && dt_seconds > 0.0 {
        let exponent = -dt_seconds / time_constant;
        Coefficient {
            value: power::exp(exponent),
            finite: float::finite(exponent),
        }
    } else {
        Coefficient {
            value: 0.0,
            finite: true,
        }
    }
}

impl EnvelopeDetector {
    // A step of `dt_seconds` toward the target. A target above the current value picks the attack, any other the release; both in seconds.
    #[tactic(auto, unfolding(crate::specs::Envelope::process_of))]
    pub fn process(
        mut self,
        target: f64,
        attack_seconds: f64,
        release_seconds: f64,
        dt_seconds: f64,
    ) -> Stepped
        ensures { result ≡ process_of self target attack_seconds release_seconds dt_seconds }
    {
        let time_constant = float::pick(target > self.current, attack_seconds, release_seconds);
        let c = coeff(time_constant, dt_seconds);
        self.current = target + (self.current - target) * c.value;
        Stepped {
            envelope: self,
            finite: c.finite,
        }
    }
}
