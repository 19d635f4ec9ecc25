//! Draws: each from the state that the one before left.

ghost use Rattle.std.specs.Prelude.{◌≡◌, ◌+◌, ◌<◌};
ghost use Rattle.load_gen.specs.Draws.{next_state, state_at, draw_at};

const FACTOR: u64 = 1_103_515_245;

const STEP: u64 = 12_345;

const STATES: u64 = 2_147_483_648;

const LOW_PART: u32 = 65_536;

// The state behind another.
fn next_state(state: u32) -> u32
    requires { state < 2147483648 }
    ensures value { result ≡ next_state state }
    ensures small { result < 2147483648 }
{
    ((u64::from(state) * FACTOR + STEP) % STATES) as u32
}

// The draws of a number, of which some were taken.
#[derive(Debug, Drop)]
pub(crate) struct Draws {
    pub(crate) seed: u32,
    pub(crate) taken: u32,
    state: u32,
    ghost state_is: { state ≡ state_at seed taken },
    ghost small: { state < 2147483648 },
}

#[tactic(auto, unfolding(crate::specs::Draws::state_at))]
impl Draws {
    // All draws of a number.
    pub(crate) fn new(seed: u32) -> Draws
        requires { seed < 2147483648 }
        ensures seed { result.seed ≡ seed }
        ensures taken { result.taken ≡ 0 }
    {
        Draws {
            seed,
            taken: 0,
            state: seed,
        }
    }

    // Takes the next draw.
    pub(crate) fn next(&mut self) -> u32
        requires { self.old.taken < 4294967295 }
        ensures value { result ≡ draw_at self.old.seed (self.old.taken + 1) }
        ensures small { result < 32768 }
        ensures seed { self.new.seed ≡ self.old.seed }
        ensures taken { self.new.taken ≡ self.old.taken + 1 }
    {
        self.state = next_state(self.state);
        self.taken += 1;
        self.state / LOW_PART
    }
}
