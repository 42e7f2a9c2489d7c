//! The fetch of an opening that failed.
ghost use Rattle.std.specs.Prelude.{◌≡◌, ◌<◌, [], vec_len, vec_capacity, IfOk};
ghost use Rattle.esr_run.specs.Faults.{listed};

use esr_desk::{FailedObject, Fault, Faults};
use esr_seq::Seq;
use std::alloc::{AllocError, Global};

/// Room for the fetch of an opening.
pub(crate) fn room_for_one<S, F, H, T>(alloc: Global) -> Result<Vec<Fault<S, F, H, T>>, AllocError>
    ensures empty { IfOk result (λ room. room.items ≡ []) }
    ensures room { IfOk result (λ room. vec_len room < vec_capacity room) }
{
    Vec::with_capacity(alloc, 1)
}

/// The list of the fetch that failed, if one did.
pub(crate) fn faults_of<S, F, H, T>(
    mut room: Vec<Fault<S, F, H, T>>,
    fetch: Option<F>,
) -> Faults<S, F, H, T>
    requires empty { room.items ≡ [] }
    requires room { vec_len room < vec_capacity room }
    ensures { result ≡ listed fetch }
{
    if let Some(fetch) = fetch {
        room.push_reserved(Fault {
            entry: None,
            object: FailedObject::Fetch { fetch },
        });
    }
    Seq::from_vec(room)
}
