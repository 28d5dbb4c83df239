/// What ALTER DYNAMIC TABLE and refreshes move of a dynamic table.
#[derive(Clone, Copy, Debug, PartialEq, Eq)]
pub struct DynamicState {
    /// The target lag in seconds, 0 for DOWNSTREAM.
    pub lag: u32,
    pub is_suspended: bool,
    /// The scheduled refreshes that failed in a row, at most 5.
    pub failures: u32,
    /// The moment that the last scheduled refresh that failed was to bring it to, 0 where there is
    /// none.
    pub tried: u64,
    /// The moment that its rows stand for, 0 where there is none.
    pub moment: u64,
}

const MOST_FAILURES: u32 = 5;

impl DynamicState {
    ghost use Rattle.std.specs.Prelude.{◌≡◌, ◌+◌, nat_eq};
    ghost use Rattle.wh_state.specs.Dynamic as machine;
    ghost use Rattle.wh_moment.specs.Moment as moments;
    ghost use Rattle.wh_dynamic.specs.View.{state_of};

    /// A new dynamic table's.
    pub fn first(lag: u32) -> DynamicState
        ensures { state_of result ≡ machine.first_dynamic_state lag }
    {
        DynamicState {
            lag,
            is_suspended: false,
            failures: 0,
            tried: 0,
            moment: 0,
        }
    }

    /// Behind a refresh that brought it to a moment.
    pub fn brought_to(self, moment: u64) -> DynamicState
        ensures { state_of result ≡ moments.brought_to moment (state_of self) }
    {
        DynamicState {
            failures: 0,
            tried: 0,
            moment,
            ..self
        }
    }

    /// Behind a scheduled refresh that failed. The fifth in a row suspends it.
    #[tactic(auto, unfolding(wh_moment::specs::Moment::behind_failure))]
    pub fn behind_failure(self, tried: u64) -> DynamicState
        ensures { state_of result ≡ moments.behind_failure tried (state_of self) }
    {
        let is_enough = self.failures >= MOST_FAILURES - 1;
        DynamicState {
            is_suspended: self.is_suspended || is_enough,
            failures: if is_enough {
                MOST_FAILURES
            } else {
                self.failures + 1
            },
            tried,
            ..self
        }
    }

    /// Whether a scheduled refresh that fails is the fifth in a row.
    pub fn is_fifth(self) -> bool
        ensures { result ≡ nat_eq ((state_of self).failures + 1) machine.most_failed_refreshes }
    {
        self.failures == MOST_FAILURES - 1
    }
}
