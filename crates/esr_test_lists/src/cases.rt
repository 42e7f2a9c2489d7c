//! What answers the lines of cases, by their kinds.
use crate::histories::Told;
use crate::lists::Listing;
use crate::replies;
use crate::roots::Growing;
use crate::told::say_trouble;
use crate::trouble::{Done, Trouble};
use esr_scenes::{CasePlayer, container_lines};
use std::alloc::Global;

/// What a case has come to, by its kind.
#[derive(Drop)]
pub(crate) enum Player {
    Reply,
    History { told: Told },
    List { listing: Listing },
    Root { growing: Growing },
    Unknown,
}

/// Says what a line of a list is answered. `as NAME` stands for the lines of that container, which ask for nothing.
fn say_list_answer(
    alloc: Global,
    listing: &mut Listing,
    cases: &str,
    line: &str,
    said: &mut String,
) -> Done {
    let Some(name) = line.strip_prefix("as ") else {
        return listing.say_answer(alloc, line, said);
    };
    let Some(lines) = container_lines(cases, name) else {
        return Err(Trouble::Unread("no such container"));
    };
    for line in lines.lines() {
        listing.say_answer(alloc, line, said)?;
        said.clear();
    }
    Ok(())
}

impl Player {
    fn new(alloc: Global, kind: &str) -> Player {
        match kind {
            "reply" => Player::Reply,
            "history" => Player::History {
                told: Told::new(alloc),
            },
            "list" => Player::List {
                listing: Listing::new(alloc),
            },
            "root" => Player::Root {
                growing: Growing::new(alloc),
            },
            _ => Player::Unknown,
        }
    }

    fn say(&mut self, alloc: Global, cases: &str, line: &str, said: &mut String) -> Done {
        match self {
            Player::Reply => replies::say_answer(alloc, line, said),
            Player::History { told } => told.say_answer(alloc, line, said),
            Player::List { listing } => say_list_answer(alloc, listing, cases, line, said),
            Player::Root { growing } => growing.say_answer(alloc, line, said),
            Player::Unknown => Err(Trouble::Unread(
                "not a case with a kind, a name and a sentence",
            )),
        }
    }
}

impl CasePlayer for Player {
    fn begin(&mut self, alloc: Global, kind: &str) {
        *self = Player::new(alloc, kind);
    }

    /// Says what a line is answered, or why it has no answer.
    fn answer(&mut self, alloc: Global, cases: &str, line: &str, said: &mut String) {
        if let Err(trouble) = self.say(alloc, cases, line, said) {
            say_trouble(said, trouble);
        }
    }
}
