//! What was told of the container when it was opened.
ghost use Rattle.std.specs.Prelude.{ℕ, None, false};
ghost use Rattle.std.specs.FinMap as fin;
ghost use Rattle.esr_core.specs.World.{opened, no_record, no_root};
ghost use Rattle.esr_depot.specs.Image.{Image};
ghost use Rattle.esr_desk.specs.Start.{Start};

use std::marker::Brand;

/// What was told of the container when it was opened. Each run picks it.
pub trait Told {
    ghost start: { Start };

    /// The clock of the container at the start.
    ghost clock: { ℕ };

    /// The container's count of faults at the start.
    ghost faults: { ℕ };

    /// What a crash before the start might have left, since a moment.
    ghost past: { ℕ → Image → Type 0 };
}

impl Told for Brand {
    ghost start = { record {
      known = λ _ _ _. false;
      told = λ _ _ _. None;
      part_size = 1;
      tells = false;
      quiet = false;
      steady = λ _ _ _. false;
      targets_tell = false;
      sure_targets = false;
      alone = false;
      earlier_turns = 0;
      world = opened fin.empty no_record no_root;
    } };

    ghost clock = { 0 };

    ghost faults = { 0 };

    ghost past = { λ _ _. ⊥ };
}
