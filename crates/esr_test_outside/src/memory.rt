//! A container in memory, as a subject.
use crate::calls::say_call;
use crate::plan::{failing_of, leaves_of, number_of, plan_of};
use esr_memdepot::MemDepot;
use esr_scenes::{Subject, cut, say};
use std::alloc::{AllocError, Global};

/// A container in memory, of which the calls fail that a scene plans.
#[derive(Drop)]
pub(crate) struct Memory {
    depot: MemDepot,
}

impl Memory {
    /// An empty container for a scene of these lines.
    pub fn new(alloc: Global, lines: &str) -> Result<Memory, AllocError> {
        let depot = MemDepot::new(alloc, plan_of(alloc, lines)?);
        Ok(Memory { depot })
    }

    /// Says what is held after a crash at the moment `MOMENT leaving LEAVES`.
    fn say_crash(&self, alloc: Global, words: &str, line: &mut String) {
        let (moment, rest) = cut(words);
        let (_, leaves) = cut(rest);
        let (Some(moment), Some(leaves)) = (number_of(moment), leaves_of(leaves)) else {
            return say(line, "no such crash");
        };
        match self.depot.cut(alloc, moment, leaves) {
            Ok(mut left) => say_call(alloc, &mut left, "held", line),
            Err(_) => say(line, "no memory"),
        }
    }
}

impl Subject for Memory {
    fn call(&mut self, alloc: Global, call: &str, line: &mut String) {
        let (verb, rest) = cut(call);
        match verb {
            "fails" if failing_of(rest).is_some() => {}
            "crash-at" => self.say_crash(alloc, rest, line),
            _ => say_call(alloc, &mut self.depot, call, line),
        }
    }
}
