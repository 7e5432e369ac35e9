//! A counter, from 0. A step adds to it, and gives what it was before. A question is whether it is at least so much.

use machine_hub::Machine;
use std::alloc::{AllocError, Global};

#[derive(Drop)]
pub struct Counter {
    pub count: u64,
}

impl Machine for Counter {
    ghost use Rattle.std.specs.Prelude.{◌≡◌, not, nat_lt};

    type Call = u64;

    type Step = u64;

    type Outcome = u64;

    type Question = u64;

    type Reading = bool;

    ghost nowhere = { record { count = 0 } };

    ghost asks = { λ call step. step ≡ call };

    ghost steps = { λ old step outcome new. outcome ≡ old.count };

    ghost loses = { λ call old new. new ≡ old };

    ghost reads = { λ state least answer. answer ≡ not (nat_lt state.count least) };

    fn make(&mut self, _alloc: Global, call: u64) -> Result<(u64, u64), AllocError> {
        let before = self.count;
        self.count = before.saturating_add(call);
        Ok((call, before))
    }

    fn tell(&self, least: &u64) -> bool {
        !(self.count < *least)
    }

    fn copied(outcome: &u64) -> Result<u64, AllocError> {
        Ok(*outcome)
    }
}
