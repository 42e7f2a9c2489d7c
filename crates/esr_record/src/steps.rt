//! The swaps of a record's numbers.
ghost use Rattle.std.specs.Prelude.{◌≡◌, ◌<ℤ◌, ◌≤ℤ◌, ◌+ℤ◌, ◌+◌, pos, IfOk, OnErr, OnOk};
ghost use Rattle.esr_record.specs.Steps.{raised, settled, elected};

use crate::ClusterRecord;
use thiserror::Error;

/// Why a record refused a swap.
#[derive(Clone, Copy, Debug, Error)]
pub enum RecordRefusal {
    /// The term is no longer the caller's own.
    #[error("term {own} is over, now it is {now}")]
    StaleTerm { own: u64, now: u64 },
    /// The last generation, 2^63 - 1, was given out.
    #[error("no generation is left after {number}")]
    GenerationsSpent { number: i64 },
    /// The last term, 2^63 - 1, has come.
    #[error("no term is left after {number}")]
    TermsSpent { number: u64 },
}

impl ClusterRecord {
    /// Gives out the generation after `pending`, to a master of the term `own`. A refusal leaves the
    /// record.
    pub fn raise(&mut self, own: u64) -> Result<i64, RecordRefusal>
        ensures answer { result ≡ raised own self.old }
        ensures ok { IfOk result (λ n. (n ≡ self.old.pending +ℤ pos 1) × (self.new ≡ record self.old { pending = n })) }
        ensures err { OnErr result (self.new ≡ self.old) }
    {
        if own != self.term {
            return Err(RecordRefusal::StaleTerm {
                own,
                now: self.term,
            });
        }
        if self.pending == i64::MAX {
            return Err(RecordRefusal::GenerationsSpent {
                number: self.pending,
            });
        }
        self.pending += 1;
        Ok(self.pending)
    }

    /// Makes a generation that was given out the safe one, for a master of the term `own`. A refusal
    /// leaves the record.
    pub fn settle(&mut self, own: u64, n: i64) -> Result<(), RecordRefusal>
        requires above { own ≡ self.old.term → self.old.safe <ℤ n }
        requires given { own ≡ self.old.term → n ≤ℤ self.old.pending }
        ensures answer { result ≡ settled own self.old }
        ensures ok { OnOk result (self.new ≡ record self.old { safe = n }) }
        ensures err { OnErr result (self.new ≡ self.old) }
    {
        if own == self.term {
            self.safe = n;
            Ok(())
        } else {
            Err(RecordRefusal::StaleTerm {
                own,
                now: self.term,
            })
        }
    }

    /// Begins the next term. A refusal leaves the record.
    pub fn elect(&mut self) -> Result<u64, RecordRefusal>
        ensures answer { result ≡ elected self.old }
        ensures ok { IfOk result (λ t. (t ≡ self.old.term + 1) × (self.new ≡ record self.old { term = t })) }
        ensures err { OnErr result (self.new ≡ self.old) }
    {
        if self.term == i64::MAX as u64 {
            return Err(RecordRefusal::TermsSpent { number: self.term });
        }
        self.term += 1;
        Ok(self.term)
    }
}
