//! The words of the command line and the lines of a script.
#![tactic(auto)]

mod item;
mod job;
mod line;
mod names;
mod number;
mod parts;
mod program;
mod refusal;
mod script;
mod words;

pub use item::{AskedIndex, AskedIndices, Item, Kind, Script, ScriptLine};
pub use job::{Job, JobWork, Options};
pub use refusal::{ScriptRefusal, Why, WordsRefusal};
pub use script::script_read;
pub use words::{Words, repo_place, words_read};
