//! The clock of a container in memory, its count of faults, and its plan of failing calls.
ghost use Rattle.std.specs.Prelude.{◌≡◌, ◌^◌, ◌-◌, ◌<◌, ◌≤◌, []};
ghost use Rattle.esr_depot.specs.Calls.{up, HasCause, Serves};
ghost use Rattle.esr_memdepot.specs.Meter.{sure_calls, not_served, count_of, counted, counted_before, turn_at, no_counts};

use crate::plan::{Call, Leaves, Plan, planned_failure};

/// How a call goes: the clock stands at its end, it is served, or it fails.
#[derive(Clone, Copy)]
pub enum Turn {
    Over,
    Served,
    Fails(Leaves),
}

/// How often each kind of call was made.
#[derive(Clone, Copy)]
pub struct Counts {
    pub begins: u64,
    pub commits: u64,
    pub replaces: u64,
    pub fetches: u64,
    pub lists: u64,
    pub removes: u64,
    pub reads: u64,
    pub swaps: u64,
}

impl Counts {
    fn new() -> Counts
        ensures { result ≡ no_counts }
    {
        Counts {
            begins: 0,
            commits: 0,
            replaces: 0,
            fetches: 0,
            lists: 0,
            removes: 0,
            reads: 0,
            swaps: 0,
        }
    }

    /// How often that kind of call was made. The writes and reads of stages and fetches aren't counted here.
    fn of(self, call: Call) -> u64
        ensures { result ≡ count_of call self }
    {
        match call {
            Call::Begin => self.begins,
            Call::Commit => self.commits,
            Call::Replace => self.replaces,
            Call::Fetch => self.fetches,
            Call::List => self.lists,
            Call::Remove => self.removes,
            Call::ReadRecord => self.reads,
            Call::SwapRecord | Call::StageWrite { .. } | Call::FetchRead { .. } => self.swaps,
        }
    }

    /// Counts one more call and answers its number.
    fn raise(&mut self, call: Call) -> u64
        ensures number { result ≡ up (count_of call self.old) }
        ensures counts { self.new ≡ counted call self.old }
    {
        let number = self.of(call).saturating_add(1);
        match call {
            Call::Begin => self.begins = number,
            Call::Commit => self.commits = number,
            Call::Replace => self.replaces = number,
            Call::Fetch => self.fetches = number,
            Call::List => self.lists = number,
            Call::Remove => self.removes = number,
            Call::ReadRecord => self.reads = number,
            Call::SwapRecord | Call::StageWrite { .. } | Call::FetchRead { .. } => {
                self.swaps = number;
            }
        }
        number
    }
}

#[derive(Drop)]
pub struct Meter {
    pub clock: u64,
    pub faults: u64,
    pub plan: Plan,
    pub counts: Counts,
}

impl Meter {
    pub fn new(plan: Plan) -> Meter
        ensures { result ≡ record { clock = 0; faults = 0; plan = plan; counts = no_counts } }
    {
        Meter {
            clock: 0,
            faults: 0,
            plan,
            counts: Counts::new(),
        }
    }

    /// One more call: it fails where the clock stands at its end, and where the plan says so.
    pub fn turn(&mut self, call: Call) -> Turn
        ensures turn { result ≡ turn_at self.old.plan self.old.clock self.old.counts call }
        ensures counts { self.new.counts ≡ counted_before self.old.clock call self.old.counts }
        ensures plan { self.new.plan ≡ self.old.plan }
        ensures clock { self.new.clock ≡ up self.old.clock }
        ensures later { self.old.clock ≤ self.new.clock }
        ensures over { result ≡ Turn.Over → self.old.clock ≡ 2 ^ 64 - 1 }
        ensures not_over { (result ≡ Turn.Over → ⊥) → self.old.clock < 2 ^ 64 - 1 }
        ensures cause { HasCause self.old.faults self.new.faults (not_served result) }
        ensures sure { Serves (sure_calls self.old) (sure_calls self.new) (not_served result) }
    {
        if self.clock == u64::MAX {
            self.faults = self.faults.saturating_add(1);
            return Turn::Over;
        }
        self.clock += 1;
        let nth = self.counts.raise(call);
        match planned_failure(&self.plan, call, nth) {
            None => Turn::Served,
            Some(leaves) => {
                self.faults = self.faults.saturating_add(1);
                Turn::Fails(leaves)
            }
        }
    }
}
