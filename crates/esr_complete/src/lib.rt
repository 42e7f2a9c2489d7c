//! Completeness: where nothing fails each line of a script is answered well.
#![tactic(auto)]

mod law;
mod short;

pub use law::smooth_runs_are_answered;
pub use short::{
    each_command_is_asked, smooth_runs_are_short, smooth_runs_ask_for_few_ids,
    smooth_runs_clone_few, smooth_runs_lose_nothing, smooth_runs_restore_few,
};
