//! What agreement means.
ghost use Rattle.std.specs.Prelude.{◌≡◌, true};
ghost use Rattle.esr_model.specs.Values.{RootSnap, RootData, SnapInfo, IsOneEach};
ghost use Rattle.esr_agreement.specs.Agreement.{agrees, Agrees};

/// An info that passes the test agrees with its root, and where the root has one index to each id, an info that agrees passes.
pub fn agreement_is()
    ensures holds { (root : RootData) (snap : RootSnap) (info : SnapInfo) → agrees root snap info ≡ true → Agrees root snap info }
    ensures only { (root : RootData) (snap : RootSnap) (info : SnapInfo) → IsOneEach root.indices → Agrees root snap info → agrees root snap info ≡ true }
{}
