//! Laws of histories over a kept container that tells, whatever calls fail.
ghost use Rattle.esr_core.specs.Entry.{Moment};
ghost use Rattle.std.specs.Prelude.{List};
ghost use Rattle.esr_desk.specs.declared.fault.Fault.{Fault};
ghost use Rattle.esr_desk.specs.declared.hand.Hand.TheVariants as hands;
ghost use Rattle.esr_desk.specs.Start.{Start};
ghost use Rattle.esr_desk.specs.Once.{NoneTwice};
ghost use Rattle.esr_desk.specs.Evidence.{Evidence};
ghost use Rattle.esr_quiet.specs.Caused.{AreCaused};
ghost use Rattle.esr_quiet.specs.OverKept.{OverKept, IsLawful};
ghost use Rattle.esr_quiet.specs.Undamaged.{NoUnitFindsDamage, NoRestoreFindsDamage, NoDeleteFindsDamage, NoCheckFindsDamage};
ghost use Rattle.esr_quiet.specs.Untaken.{NoneTaken};

/// No unit of a snapshot or of a clone fails for damage: what it may fetch is there, and reads.
pub fn no_unit_finds_damage<S, F, H, T>()
    ensures { (e : Evidence S F H T) (s : Start) (log : List Moment) (faults : List (Fault S F H T)) → OverKept s log → AreCaused hands.Unit e s log faults → NoUnitFindsDamage log }
{
    each_world_is_lawful();
}

/// No shard of a restore does: what its ticket may read is there, reads, and has the stated print.
pub fn no_restore_finds_damage<S, F, H, T>()
    ensures { (e : Evidence S F H T) (s : Start) (log : List Moment) (faults : List (Fault S F H T)) → OverKept s log → AreCaused hands.Restore e s log faults → NoRestoreFindsDamage log }
{
    each_world_is_lawful();
    esr_core::opened_restores_are_lawful();
    esr_core::each_history_keeps_restores();
    esr_core::each_reader_is_served();
}

/// No delete or cleanup does, unless its ticket is stale: each index that it reads is there, and reads.
pub fn no_delete_finds_damage<S, F, H, T>()
    ensures { (e : Evidence S F H T) (s : Start) (log : List Moment) (faults : List (Fault S F H T)) → OverKept s log → AreCaused hands.Delete e s log faults → NoDeleteFindsDamage s log }
{
    each_world_is_lawful();
}

/// No check does: the safe root stands, so each blob that it reaches is there and reads, and no two disagree.
pub fn no_check_finds_damage<S, F, H, T>()
    ensures { (e : Evidence S F H T) (s : Start) (log : List Moment) (faults : List (Fault S F H T)) → OverKept s log → AreCaused hands.Check e s log faults → NoCheckFindsDamage log }
{
    each_world_is_lawful();
    esr_core::opened_restores_are_lawful();
    esr_core::each_history_keeps_restores();
    esr_core::each_reader_is_served();
}

/// No commit of a ticket finds its name taken, where no ticket makes a step twice.
pub fn no_name_is_taken()
    ensures { (s : Start) (log : List Moment) → OverKept s log → NoneTwice log → NoneTaken log }
{
    each_world_is_lawful();
}

/// Each world of such a history is lawful.
pub(crate) fn each_world_is_lawful()
    ensures { (s : Start) (log : List Moment) → OverKept s log → IsLawful s log }
{
    esr_core::each_history_is_lawful();
}
