//! What a shard's unit hands over where it fails.
ghost use Rattle.std.specs.Prelude.{◌≡◌};
ghost use Rattle.esr_upload.specs.Ended.{ended_by};

use esr_desk::{By, FailedObject, Why};
use esr_unit::Ending;

/// The ending, in which the shard is handed over where it is the shard that failed. `S` is the type of stages, `F` that of
/// fetches, `H` that of shards, `T` that of targets.
pub(crate) fn with_shard<S: Drop, F: Drop, H: Drop, T: Drop>(
    shard: H,
    ending: Ending<S, F, H, T>,
) -> Ending<S, F, H, T>
    ensures { result ≡ ended_by shard ending }
{
    match ending {
        Ending::Own => {
            let object = FailedObject::Shard { shard };
            Ending::Failed {
                why: Why::Source,
                by: By::Object { object },
            }
        }
        Ending::Failed { why, by } => Ending::Failed { why, by },
        Ending::Stale => Ending::Stale,
        Ending::Stopped(refusal) => Ending::Stopped(refusal),
    }
}
