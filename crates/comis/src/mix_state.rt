// What the ducker does in a frame, by the two voice decisions alone.
ghost use Rattle.std.specs.Prelude.{◌≡◌};
ghost use Rattle.comis.specs.MixState.{from_vad, is_ducking};

// Its number in an answer stands with each state.
#[derive(Clone, Copy, Debug, PartialEq, Eq)]
pub enum MixState {
    ReleaseToUnity = 0,
    DuckToTarget = 1,
    InterviewPassthrough = 2,
    DuckToOvervoice = 3,
}

impl MixState {
    pub fn from_vad(com_voice_active: bool, is_voice_active: bool) -> Self
        ensures { result ≡ from_vad com_voice_active is_voice_active }
    {
        match (com_voice_active, is_voice_active) {
            (false, false) => MixState::ReleaseToUnity,
            (true, false) => MixState::DuckToTarget,
            (false, true) => MixState::InterviewPassthrough,
            (true, true) => MixState::DuckToOvervoice,
        }
    }

    // Whether the bed goes down toward a target, and not back to unity.
    pub fn is_ducking(self) -> bool
        ensures { result ≡ is_ducking self }
    {
        matches!(self, MixState::DuckToTarget | MixState::DuckToOvervoice)
    }
}

// The state's number in an answer: 0 release, 1 duck, 2 interview, 3 overvoice.
impl From<MixState> for u64 {
    ghost use Rattle.std.specs.Prelude.{◌≡◌};
    ghost use Rattle.comis.specs.MixState.{state_number};

    ghost from_gives = { λ state number. number ≡ state_number state };

    fn from(state: MixState) -> u64 {
        state as u64
    }
}
