//! What leaves the list of ops.
ghost use Rattle.std.specs.Prelude.{ℕ, List};
ghost use Rattle.esr_model.specs.Image.{Blobs};
ghost use Rattle.esr_core.specs.Entry.{Entry};
ghost use Rattle.esr_core.specs.World.{World, Caller};
ghost use Rattle.esr_ops.specs.Plan.{Plan, IsPlanOf};

/// An election leaves the list, and so does what changes no op and no ticket: blobs, what who 0 has done, what was done so far.
pub fn others_leave_the_list()
    ensures elections { (w : World) (p : Plan) (term next_id : ℕ) → IsPlanOf w p → IsPlanOf (record w { term = term; next_id = next_id }) p }
    ensures entries { (w : World) (p : Plan) (blobs : Blobs) (caller : Caller) (entries : List Entry) → IsPlanOf w p → IsPlanOf (record w { blobs = blobs; caller = caller; entries = entries }) p }
{}
