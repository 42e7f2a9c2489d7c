//! Which calls of a container in memory fail, and what each leaves.
ghost use Rattle.std.specs.Prelude.{◌≡◌, ◌==◌, ◌&&◌, IfOk, Some};
ghost use Rattle.esr_memdepot.specs.Plan.{is_for, is_new, planned, numbers_of};

use esr_seq::Seq;
use std::alloc::{AllocError, Global};

/// A kind of call. Those of a container are counted from 1, each kind for itself, and only where memory isn't wanting;
/// the writes of a stage and the reads of a fetch are counted by it.
#[derive(Clone, Copy, Debug, PartialEq, Eq)]
pub enum Call {
    Begin,
    Commit,
    Replace,
    Fetch,
    List,
    Remove,
    ReadRecord,
    SwapRecord,
    /// A write of the stage that the begin of that number gave.
    StageWrite { begin: u64 },
    /// A read of what the fetch of that number gave.
    FetchRead { fetch: u64 },
}

/// What a call that fails, or that a crash cuts off, leaves: the old state, the new one, or the first so many names of a
/// removal gone. `First` of any other call is the old state.
#[derive(Clone, Copy, Debug, PartialEq, Eq)]
pub enum Leaves {
    Old,
    New,
    First(u64),
}

/// The call of that kind and number fails, and leaves that.
#[derive(Clone, Copy, Debug, PartialEq, Eq)]
pub struct Failing {
    pub call: Call,
    pub nth: u64,
    pub leaves: Leaves,
}

/// The calls that fail. Of two entries for one call the first counts.
pub type Plan = Seq<Failing>;

impl Leaves {
    pub(crate) fn is_new(self) -> bool
        ensures { result ≡ is_new self }
    {
        matches!(self, Leaves::New)
    }
}

impl Failing {
    fn is_for(&self, call: Call, nth: u64) -> bool
        ensures { result ≡ is_for call nth self.now }
    {
        self.call == call && self.nth == nth
    }
}

/// What the call leaves where it is to fail.
pub fn planned_failure(plan: &Plan, call: Call, nth: u64) -> Option<Leaves>
    ensures { result ≡ planned plan.now call nth }
{
    for entry in plan.as_slice() {
        if entry.is_for(call, nth) {
            return Some(entry.leaves);
        }
    }
    None
}

/// The numbers of the calls of that kind that are to fail.
pub fn failing_numbers(alloc: Global, plan: &Plan, call: Call) -> Result<Seq<u64>, AllocError>
    ensures { IfOk result (λ v. v ≡ numbers_of plan.now call) }
{
    let mut numbers = Seq::new(alloc);
    for entry in plan.as_slice() {
        if entry.call == call {
            numbers.push(entry.nth)?;
        }
    }
    Ok(numbers)
}
