//! What sources in memory tell a run.
ghost use Rattle.std.specs.Prelude.{◌≡◌, ℕ, true};
ghost use Rattle.esr_model.specs.Values.{Bytes};
ghost use Rattle.esr_run.specs.Start.{telling, known_by};

use esr_source::{MemSources, Sources};

/// Sources in memory tell the files of every place, or that it isn't there: so the clauses of a run on contents hold of them.
pub fn sources_in_memory_tell_all(sources: &MemSources)
    ensures { (place name : Bytes) (number : ℕ)
        → known_by (telling (⟦<MemSources as Sources>⟧.told sources.now) (record { tells = true; is_quiet = true })) place name number ≡ true }
{
    let _ = sources;
}
