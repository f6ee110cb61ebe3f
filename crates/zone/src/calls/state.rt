// The state that is carried from hour to hour, and what the calls answer. Calls that change it take it by value and hand back the new one.
// Specification, Forms that are kept; Why this rate, why this load.
ghost use Rattle.std.specs.Prelude.{◌≡◌};
ghost use Rattle.zone.specs.Answers.{answered};
ghost use Rattle.zone.specs.Calls.Answers.{reply_in, update_reply};
ghost use Rattle.zone.specs.Calls.Numbers.{reason_number, load_number};
ghost use Rattle.zone.specs.Calls.State.{slots_of, state_of};

use crate::physics::node_layout::{to_nodes, to_slots};
use crate::record::refusal::Refusal;
use crate::record::zone_record::Zone;

// Node temperatures: element by element from the outer to the inner surface, then the air. The first `nodes` of `temps` count: an array
// and its count, for there is no heap, and a caller in C lends them so.
#[derive(Clone, Copy)]
pub struct State {
    pub nodes: usize,
    pub temps: [f64; 121],
}

// Heating and cooling demand in kWh, the chosen air change rate, and where there is a choice of rates the one at which heating would be triggered.
#[derive(Clone, Copy)]
pub struct Demand {
    pub space_heat_demand: f64,
    pub space_cool_demand: f64,
    pub ach_cooling: f64,
    pub ach_to_trigger_heating: Option<f64>,
}

// Why an hour has its air change rate: the earliest reason that holds, by its number.
#[derive(Clone, Copy, Debug, PartialEq, Eq)]
pub enum Reason {
    NoChoice = 1,
    NotAboveVentilationSetpoint = 2,
    NotAboveSupply = 3,
    WindowsDoNotCool = 4,
    StillAboveCoolingSetpoint = 5,
    WindowsEnough = 6,
}

// What the hour's demand asks for.
#[derive(Clone, Copy, Debug, PartialEq, Eq)]
pub enum Load {
    Neither = 0,
    Heating = 1,
    Cooling = 2,
}

impl Reason {
    pub fn number(self) -> u64
        ensures { result ≡ reason_number self }
    {
        self as u64
    }
}

impl Load {
    pub fn number(self) -> u64
        ensures { result ≡ load_number self }
    {
        self as u64
    }
}

// The answer of a call, and the state: the new one, or the one that was given.
#[derive(Clone, Copy)]
pub struct Reply<A> {
    pub answer: Result<A, Refusal>,
    pub state: State,
}

impl<A> Reply<A> {
    // Of an answer with the state after it; a refusal leaves the state that was given.
    pub(crate) fn of(given: State, answer: Result<(State, A), Refusal>) -> Reply<A>
        ensures { reply_in result ≡ update_reply given (answered answer) }
    {
        match answer {
            Ok((state, a)) => Reply {
                answer: Ok(a),
                state,
            },
            Err(refusal) => Reply {
                answer: Err(refusal),
                state: given,
            },
        }
    }
}

impl State {
    // The temperatures in the solver's slots.
    #[tactic(auto, unfolding(crate::specs::Calls::State::slots_of))]
    pub(crate) fn slots(&self, z: &Zone) -> [f64; 121]
        ensures { result ≡ slots_of z.now self.now }
    {
        to_slots(z, &self.temps)
    }

    // The state of temperatures that stand in slots.
    #[tactic(auto, unfolding(crate::specs::Calls::State::state_of))]
    pub(crate) fn of_slots(z: &Zone, t: &[f64; 121]) -> State
        ensures { result ≡ state_of z.now t.now }
    {
        State {
            nodes: z.node_count(),
            temps: to_nodes(z, t),
        }
    }
}
