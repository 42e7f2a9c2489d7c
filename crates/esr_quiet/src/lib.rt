//! What histories are over a kept container that tells, above all where nothing fails: laws over the definitions alone.
#![tactic(auto)]

mod damage;
mod law;
mod number;

pub use damage::{
    no_check_finds_damage, no_delete_finds_damage, no_name_is_taken, no_restore_finds_damage,
    no_unit_finds_damage,
};
pub use law::{
    each_fetch_finds_its_blob, no_check_fails, no_delete_fails, no_restore_fails,
    no_unasked_restore_fails, no_unit_fails, no_verification_fails,
    nothing_is_ready_after_an_empty_take, only_rules_refuse, other_tickets_stay,
    work_leaves_the_caller,
};
pub use number::tickets_are_numbered;
