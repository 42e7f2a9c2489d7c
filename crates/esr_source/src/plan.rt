//! Which calls of an object in memory are to fail.
ghost use Rattle.std.specs.Prelude.{◌≡◌, IfOk, true, false, map};
ghost use Rattle.esr_depot.specs.Calls.{HasCause};
ghost use Rattle.esr_source.specs.Plan.{same_call, is_due, is_due_in, passed, plan_at, is_unplanned};
ghost use Rattle.esr_source.specs.Sure.{ServesAll};

use crate::address::Address;
use esr_seq::Seq;
use std::alloc::{AllocError, Global};

/// A kind of call. The reads of a script are of kind `Read`, the writes of an output of kind `Write`.
#[derive(Clone, Copy, Debug, PartialEq, Eq)]
pub enum Call {
    List,
    Start,
    Read,
    Create,
    Write,
    End,
}

/// The call of that kind and number fails. An object counts the calls of each kind from 1.
#[derive(Clone, Copy, Debug)]
pub struct Failing {
    pub call: Call,
    pub nth: u64,
}

/// The calls of an object that are to fail. With an empty plan none does.
pub type Plan = Seq<Failing>;

/// That call of each object that is made for the address fails.
#[derive(Debug, Drop)]
pub struct FailingAt {
    pub address: Address,
    pub call: Call,
    pub nth: u64,
}

impl Call {
    fn is(self, other: Call) -> bool
        ensures { result ≡ same_call self other }
    {
        self == other
    }
}

impl Failing {
    /// Whether it is the next call of that kind.
    fn is_due(self, call: Call) -> bool
        ensures { result ≡ is_due call self }
    {
        self.call.is(call) && self.nth == 1
    }

    /// The same call, counted from the one after a call of that kind.
    fn passed(self, call: Call) -> Failing
        ensures { result ≡ passed call self }
    {
        if !self.call.is(call) {
            return self;
        }
        Failing {
            call: self.call,
            nth: self.nth.saturating_sub(1),
        }
    }
}

/// The calls that are to fail, counted from the next one on, and how often the object has failed.
#[derive(Drop)]
pub(crate) struct Meter {
    pub failing: Vec<Failing>,
    pub faults: u64,
}

impl Meter {
    pub fn new(plan: Plan) -> Meter
        ensures plan { result.failing.items ≡ plan }
        ensures faults { result.faults ≡ 0 }
    {
        Meter {
            failing: plan.into_vec(),
            faults: 0,
        }
    }

    /// Counts a call, and answers whether it is to fail.
    #[tactic(auto, using(crate::proofs::Plans::unplanned_map, crate::proofs::Plans::none_due))]
    pub fn fails(&mut self, call: Call) -> bool
        ensures due { result ≡ is_due_in call self.old.failing.items }
        ensures passed { self.new.failing.items ≡ map (passed call) self.old.failing.items }
        ensures plan { is_unplanned self.new.failing.items ≡ is_unplanned self.old.failing.items }
        ensures cause { HasCause self.old.faults self.new.faults result }
        ensures steady { result ≡ false → self.new.faults ≡ self.old.faults }
        ensures sure { ServesAll (is_unplanned self.old.failing.items) self.old.faults self.new.faults result }
    {
        let due = is_due_in(&self.failing, call);
        pass(&mut self.failing, call);
        if due {
            self.fault();
        }
        due
    }

    /// Counts a failure.
    pub fn fault(&mut self)
        ensures plan { self.new.failing.items ≡ self.old.failing.items }
        ensures cause { HasCause self.old.faults self.new.faults true }
    {
        self.faults = self.faults.saturating_add(1);
    }
}

/// Whether one of them is the next call of that kind.
fn is_due_in(failing: &[Failing], call: Call) -> bool
    ensures { result ≡ is_due_in call failing.now }
{
    failing.iter().any(|entry| entry.is_due(call))
}

/// Counts a call.
fn pass(failing: &mut [Failing], call: Call)
    ensures { failing.new ≡ map (passed call) failing.old }
{
    for entry in failing.iter_mut() {
        *entry = entry.passed(call);
    }
}

/// The calls that are to fail at that address.
pub(crate) fn plan_at(
    alloc: Global,
    plan: &[FailingAt],
    address: &Address,
) -> Result<Plan, AllocError>
    ensures { IfOk result (λ calls. calls ≡ plan_at address.now plan.now) }
{
    let mut calls = Seq::new(alloc);
    for entry in plan {
        if entry.address == *address {
            calls.push(Failing {
                call: entry.call,
                nth: entry.nth,
            })?;
        }
    }
    Ok(calls)
}
