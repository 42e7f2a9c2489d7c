//! Cases of kind `list`: what a container opens to, and what its list of open ops answers.
//!
//! The container is empty at first. What changes it:
//!
//! - `fails CALL NTH`, before all else: this call of the container fails (`read-record`, `list`, `fetch`, `swap-record`, or a `read`
//!   of the first fetch);
//! - `put NAME TEXT` puts a blob, `record TEXT` swaps the record in;
//! - `open` is answered by `opened`, or by why not: `damaged NAME` and what is wrong with it, `terms spent`, `failed call` or
//!   `failed read`.
//!
//! What is asked of an opened one: its `record`, how many `infos` were read and the last `info`, how many `snapshots` its root lists,
//! its `term`, the `next` id, the `next-op`, and the `ops` of the list as the record tells them, each ended by a `;`, or `none`. An id
//! stands as its term and its counter: `1.8`.
//!
//! What the list is asked for: `snapshot`, `clone`, `delete`, `restore` or `cleanup`, as a line of a script does, which is answered by its
//! `op` (a snapshot with how many ids it `drew`) or by the rule that refuses it; `would LINE` is answered alike and changes nothing;
//! `many COUNT` asks for so many snapshots `x0`, `x1`, .., of no index.
//!
//! What is done with the list: `take` is answered by the unit that is given, or by `nothing`; `done TICKET GENERATION`, `failed TICKET`,
//! `delete-failed TICKET`, `raised TICKET GENERATION`, `settled TICKET`, `delete-settled TICKET`, `ended TICKET`, `dropped TICKET` and
//! `shard-read TICKET` are what units report; `skip-to ID` is a later next id, and `elect` begins the next term.
use crate::asking::{asked, many, would};
use crate::board::{Board, board_of};
use crate::containers::{failing, put, say_record, say_refused};
use crate::told::say_unit;
use crate::trouble::{Done, Trouble};
use crate::words::id_of;
use esr_depot::Depot;
use esr_memdepot::MemDepot;
use esr_opening::open_container;
use esr_scenes::{Words, is_among, say};
use esr_seq::Seq;
use std::alloc::Global;

/// The words that ask for an op.
static COMMANDS: [&str; 5] = ["snapshot", "clone", "delete", "restore", "cleanup"];

/// What a case has come to.
#[derive(Drop)]
pub(crate) struct Listing {
    depot: Option<MemDepot>,
    board: Option<Board>,
}

fn take(alloc: Global, board: &mut Board, said: &mut String) -> Done {
    match board.take(alloc)? {
        Some(unit) => say_unit(said, &unit),
        None => say(said, "nothing"),
    }
    Ok(())
}

fn done(alloc: Global, board: &mut Board, ticket: u64, words: &mut Words) -> Done {
    let generation = id_of(words);
    board.shard_done(alloc, ticket, words.end(generation)?)
}

fn raised(alloc: Global, board: &mut Board, ticket: u64, words: &mut Words) -> Done {
    let generation = words.number();
    board.raised(alloc, ticket, words.end(generation)?)
}

/// What a ticket reports.
fn tell_ticket(alloc: Global, board: &mut Board, what: &str, words: &mut Words) -> Done {
    let ticket = words.number();
    let ticket = words.end(ticket)?;
    match what {
        "done" => done(alloc, board, ticket, words),
        "raised" => raised(alloc, board, ticket, words),
        "settled" => board.settled(alloc, ticket),
        "delete-settled" => board.delete_settled(alloc, ticket),
        "failed" => board.unit_failed(alloc, ticket),
        "delete-failed" => board.delete_failed(alloc, ticket),
        "ended" => board.ended(alloc, ticket),
        "dropped" => board.dropped(alloc, ticket),
        _ => board.shard_read(alloc, ticket),
    }
}

/// What a line is answered that the list of ops is asked or told.
fn say_list_answer(alloc: Global, board: &mut Board, line: &str, said: &mut String) -> Done {
    let mut words = Words::new(line);
    let what = words.word();
    match what {
        "would" => would(alloc, board, words.rest(), said),
        "many" => many(alloc, board, &mut words, said),
        "take" => take(alloc, board, said),
        "skip-to" => {
            let next = id_of(&mut words);
            board.skip_to(words.end(next)?)
        }
        "elect" => board.elect(),
        _ if is_among(COMMANDS.as_slice(), what) => asked(alloc, board, line, said),
        "done"
        | "raised"
        | "failed"
        | "delete-failed"
        | "settled"
        | "delete-settled"
        | "ended"
        | "dropped"
        | "shard-read" => tell_ticket(alloc, board, what, &mut words),
        _ => Ok(board.say(alloc, what, said)?),
    }
}

/// Swaps a text into the record, or says the record where there is none.
fn record_answer(alloc: Global, depot: &mut MemDepot, text: &str, said: &mut String) -> Done {
    if text.is_empty() {
        return say_record(alloc, depot, said);
    }
    Ok(depot.swap_record(alloc, text.as_bytes())?)
}

impl Listing {
    pub(crate) fn new(alloc: Global) -> Listing {
        Listing {
            depot: Some(MemDepot::new(alloc, Seq::new(alloc))),
            board: None,
        }
    }

    /// Opens the container, and says what comes of it.
    fn open(&mut self, alloc: Global, said: &mut String) -> Done {
        let Some(depot) = self.depot.take() else {
            return Err(Trouble::Unread("no container is there"));
        };
        match open_container(alloc, depot) {
            Ok(opening) => {
                let (board, depot) = board_of(opening)?;
                say(said, "opened");
                self.depot = Some(depot);
                self.board = Some(board);
            }
            Err((depot, refusal)) => {
                say_refused(said, &refusal);
                self.depot = Some(depot);
                self.board = None;
            }
        }
        Ok(())
    }

    /// Changes the container, or says its record.
    fn change(&mut self, alloc: Global, what: &str, words: &mut Words, said: &mut String) -> Done {
        let Some(depot) = &mut self.depot else {
            return Err(Trouble::Unread("no container is there"));
        };
        match what {
            "put" => {
                let name = words.word();
                put(alloc, depot, name, words.rest().as_bytes())
            }
            _ => record_answer(alloc, depot, words.rest(), said),
        }
    }

    /// Says what a line of a case is answered.
    pub(crate) fn say_answer(&mut self, alloc: Global, line: &str, said: &mut String) -> Done {
        let mut words = Words::new(line);
        let what = words.word();
        match what {
            "open" => self.open(alloc, said),
            "fails" => {
                self.depot = Some(failing(alloc, &mut words)?);
                Ok(())
            }
            "put" | "record" => self.change(alloc, what, &mut words, said),
            _ => match &mut self.board {
                Some(board) => say_list_answer(alloc, board, line, said),
                None => Err(Trouble::Unread("no container is open")),
            },
        }
    }
}
