//! Tests as text: scenes, whose lines are calls with the answers that are wanted, are played over a subject, and cases by their kinds.
#![tactic(auto)]

mod answers;
mod cases;
mod lists;
mod play;
mod scene;
mod sources;
mod words;

pub use answers::{say, say_bytes, say_faults, say_length, say_number, say_success};
pub use cases::{CasePlayer, container_lines, play_cases};
pub use lists::one;
pub use play::{Player, Subject, Tally, complain, exit_of, play_scenes};
pub use scene::{Scene, cut, unquoted};
pub use sources::{SourceLine, source_line, source_of};
pub use words::{Unread, Words, is_among};
