//! The names of test blobs.
ghost use Rattle.std.specs.Prelude.{◌≡◌, ◌≤◌, map, IfErr, IfOk};
ghost use Rattle.esr_formats.specs.Names.{name_of};
ghost use Rattle.esr_desk.specs.declared.refusal.StepRefusal.TheVariants.{Memory};
ghost use Rattle.esr_verify.specs.Steps.{test_names};
ghost use Rattle.esr_verify.specs.Tests.{AreTests};

use esr_desk::StepRefusal;
use esr_names::{BlobName, Id};
use esr_seq::Seq;
use std::alloc::Global;

/// The names of the test blobs under the id: the master's, and one for each worker from 0.
pub fn list_names(alloc: Global, id: Id, workers: u32) -> Result<Seq<BlobName>, StepRefusal>
    requires { workers ≤ 64 }
    ensures names { IfOk result (λ ns. map name_of ns ≡ test_names id.number workers) }
    ensures tests { IfOk result (λ ns. AreTests id.number ns) }
    ensures wanting { IfErr result (λ e. e ≡ Memory) }
{
    let mut names = Seq::new(alloc);
    names.push(BlobName::TestMaster(id))?;
    for worker in 0..workers {
        names.push(BlobName::TestNode(id, worker))?;
    }
    Ok(names)
}
