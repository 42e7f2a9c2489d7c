//! Calls of any container, as words, and what they answer.
ghost use Rattle.std.specs.Prelude.{◌≡◌, ◌≤◌, ◌+◌, length, IfOk, IfSome};

use crate::client::{PutError, put_and_record};
use crate::plan::number_of;
use esr_depot::{CallError, Commit, Counted, Depot, Fetch, Listed, Names, PAGE, Stage};
use esr_scenes::{
    cut, one, say, say_bytes, say_faults, say_length, say_number, say_success, unquoted,
};
use esr_seq::{Seq, Text, TryClone};
use std::alloc::{AllocError, Global};

/// What a call says in a word, after what it has added to a line.
type Said = Result<&'static str, CallError>;

/// What a test makes of a container, of which it knows no more than that the calls can be made.
pub(crate) trait Calls: Counted + Drop {
    fn commit_text(&mut self, alloc: Global, name: &str, text: &str) -> Said;

    fn replace_text(&mut self, alloc: Global, name: &str, text: &str) -> Said;

    /// Commits a blob in up to three pieces, with bars between them.
    fn commit_pieces(&mut self, alloc: Global, name: &str, text: &str, line: &mut String) -> Said;

    /// Commits a blob of two pieces and then puts the record, by the client of any container.
    fn put(&mut self, alloc: Global, name: &str, texts: &str) -> Said;

    /// Takes away one blob, or two.
    fn take_away(&mut self, alloc: Global, first: &str, second: &str) -> Said;

    fn put_text(&mut self, alloc: Global, text: &str) -> Said;

    fn say_blob(&mut self, alloc: Global, name: &str, line: &mut String) -> Said;

    /// The names after that one, or from the first on where there is none.
    fn page(&mut self, alloc: Global, after: &str) -> Result<Seq<Listed>, CallError>;

    /// Says the text of the record after a word, or the other word where there is none.
    fn say_record(&mut self, alloc: Global, words: (&str, &'static str), line: &mut String) -> Said;
}

/// Writes a blob in one piece.
fn staged<D: Depot>(
    alloc: Global,
    depot: &mut D,
    name: &str,
    text: &str,
) -> Result<D::Stage, CallError> {
    let mut stage = depot.begin(alloc, name, text.len())?;
    stage.write(text.as_bytes())?;
    Ok(stage)
}

fn word_of(answer: Result<Commit, CallError>) -> Said {
    match answer {
        Ok(Commit::Done) => Ok("Done"),
        Ok(Commit::Exists) => Ok("Exists"),
        Err(error) => Err(error),
    }
}

/// Writes a piece if there is one, and says whether that failed.
fn write<S: Stage>(stage: &mut S, piece: &str, line: &mut String)
    requires { length piece.now ≤ S.room stage.old }
    ensures { S.room stage.old ≤ S.room stage.new + length piece.now }
{
    if !piece.is_empty() {
        say_success(line, stage.write(piece.as_bytes()).is_ok());
    }
}

/// The room that is just enough for three pieces, if there is so much.
fn room_of(first: &str, second: &str, third: &str) -> Option<usize>
    ensures { IfSome result (λ room. room ≡ length first.now + length second.now + length third.now) }
{
    let room = first.len().checked_add(second.len())?;
    room.checked_add(third.len())
}

/// Writes a blob in up to three pieces, with bars between them, for which its room is just enough.
fn in_pieces<D: Depot>(
    alloc: Global,
    depot: &mut D,
    name: &str,
    text: &str,
    line: &mut String,
) -> Result<D::Stage, CallError> {
    let (first, rest) = text.split_once('|').unwrap_or((text, ""));
    let (second, third) = rest.split_once('|').unwrap_or((rest, ""));
    let Some(room) = room_of(first, second, third) else {
        return Err(CallError::Failed);
    };
    let mut stage = depot.begin(alloc, name, room)?;
    write(&mut stage, first, line);
    write(&mut stage, second, line);
    write(&mut stage, third, line);
    say_faults(line, stage.fault_count());
    say(line, " ");
    Ok(stage)
}

/// Says what reads of two bytes give, of which a failed one is `!`.
fn say_reads<F: Fetch>(mut fetch: F, line: &mut String) {
    let mut buf = [0u8; 2];
    for _ in 0..20 {
        match fetch.read(&mut buf) {
            Ok(count) => say_bytes(line, &buf[..count]),
            Err(_) => say(line, "!"),
        }
    }
    if fetch.fault_count() > 0 {
        say(line, " ");
        say_faults(line, fetch.fault_count());
    }
}

/// One name, or two.
fn names_of(alloc: Global, first: &str, second: &str) -> Result<Names, AllocError>
    ensures { IfOk result (λ names. length names ≤ 1000) }
{
    let mut names = one(alloc, Text::from_str(alloc, first)?)?;
    if !second.is_empty() {
        names.push(Text::from_str(alloc, second)?)?;
    }
    Ok(names)
}

impl<D: Depot> Calls for D {
    fn commit_text(&mut self, alloc: Global, name: &str, text: &str) -> Said {
        let stage = staged(alloc, self, name, text)?;
        word_of(self.commit(alloc, stage))
    }

    fn replace_text(&mut self, alloc: Global, name: &str, text: &str) -> Said {
        let stage = staged(alloc, self, name, text)?;
        self.replace(alloc, stage)?;
        Ok("ok")
    }

    fn commit_pieces(&mut self, alloc: Global, name: &str, text: &str, line: &mut String) -> Said {
        let stage = in_pieces(alloc, self, name, text, line)?;
        word_of(self.commit(alloc, stage))
    }

    fn put(&mut self, alloc: Global, name: &str, texts: &str) -> Said {
        let (first, rest) = cut(texts);
        let (second, text) = cut(rest);
        let text = unquoted(text);
        if first.len().checked_add(second.len()).is_none() {
            return Err(CallError::Failed);
        }
        let (first, second, text) = (first.as_bytes(), second.as_bytes(), text.as_bytes());
        match put_and_record(alloc, self, name, first, second, text) {
            Ok(commit) => word_of(Ok(commit)),
            Err(PutError::Memory) => Err(CallError::Memory),
            Err(PutError::Depot) => Err(CallError::Failed),
            Err(PutError::Stage(_)) => Ok("stage failed"),
        }
    }

    fn take_away(&mut self, alloc: Global, first: &str, second: &str) -> Said {
        let names = names_of(alloc, first, second)?;
        self.remove(&names)?;
        Ok("ok")
    }

    fn put_text(&mut self, alloc: Global, text: &str) -> Said {
        self.swap_record(alloc, text.as_bytes())?;
        Ok("ok")
    }

    fn say_blob(&mut self, alloc: Global, name: &str, line: &mut String) -> Said {
        match self.fetch(alloc, name)? {
            Some(fetch) => {
                say_reads(fetch, line);
                Ok("")
            }
            None => Ok("none"),
        }
    }

    fn page(&mut self, alloc: Global, after: &str) -> Result<Seq<Listed>, CallError> {
        let after = (!after.is_empty()).then_some(after);
        Ok(self.list(alloc, after)?.page)
    }

    fn say_record(
        &mut self,
        alloc: Global,
        words: (&str, &'static str),
        line: &mut String,
    ) -> Said {
        let Some(text) = self.read_record(alloc)? else {
            return Ok(words.1);
        };
        say(line, words.0);
        say_bytes(line, text.as_slice());
        Ok("")
    }
}

/// Commits so many empty blobs of a folder, of the names 1000, 1001 and so on.
fn fill<C: Calls>(alloc: Global, depot: &mut C, folder: &str, count: &str) -> Said {
    let mut line = String::new(alloc);
    for number in 0..number_of(count).unwrap_or(0) {
        let number = number.saturating_add(1000);
        let name = format!(in alloc; "{folder}/{number}")?;
        depot.commit_pieces(alloc, name.as_str(), "", &mut line)?;
    }
    Ok("ok")
}

/// Says the names of a page, with their lengths.
fn say_lengths(page: &[Listed], line: &mut String) {
    for listed in page {
        say_length(line, listed.name.as_str(), listed.length);
    }
}

fn list<C: Calls>(alloc: Global, depot: &mut C, after: &str, line: &mut String) -> Said {
    let page = depot.page(alloc, after)?;
    say_lengths(page.as_slice(), line);
    Ok("")
}

/// Says of a page how many names it has, and the first and the last of them.
fn say_page(page: &[Listed], line: &mut String) {
    say_number(line, page.len() as u64);
    if let (Some(first), Some(last)) = (page.first(), page.last()) {
        say(line, " ");
        say(line, first.name.as_str());
        say(line, " ");
        say(line, last.name.as_str());
    }
}

/// Lists a page, and answers its last name if it is full.
fn say_next_page<C: Calls>(
    alloc: Global,
    depot: &mut C,
    after: &str,
    line: &mut String,
) -> Result<Option<Text>, CallError> {
    let page = depot.page(alloc, after)?;
    say_page(page.as_slice(), line);
    match page.as_slice().last() {
        Some(last) if page.len() == PAGE => Ok(Some(last.name.try_clone(alloc)?)),
        _ => Ok(None),
    }
}

/// Lists page after page, until one that isn't full.
fn pages<C: Calls>(alloc: Global, depot: &mut C, after: &str, line: &mut String) -> Said {
    let mut after = Text::from_str(alloc, after)?;
    for _ in 0..100 {
        match say_next_page(alloc, depot, after.as_str(), line)? {
            Some(next) => after = next,
            None => return Ok(""),
        }
        say(line, ", ");
    }
    Ok("and more")
}

/// Says names with their blobs.
fn say_blobs<C: Calls>(
    alloc: Global,
    depot: &mut C,
    page: &[Listed],
    line: &mut String,
) -> Result<(), CallError> {
    for listed in page {
        say(line, listed.name.as_str());
        say(line, "=");
        depot.say_blob(alloc, listed.name.as_str(), line)?;
        say(line, " ");
    }
    Ok(())
}

/// Says the names of the first page with their blobs, and the record where there is one.
fn held<C: Calls>(alloc: Global, depot: &mut C, line: &mut String) -> Said {
    let page = depot.page(alloc, "")?;
    say_blobs(alloc, depot, page.as_slice(), line)?;
    depot.say_record(alloc, ("record=", ""), line)
}

/// A call that looks at what is there.
fn look<C: Calls>(alloc: Global, depot: &mut C, call: &str, line: &mut String) -> Said {
    let (verb, rest) = cut(call);
    match verb {
        "fetch" => depot.say_blob(alloc, unquoted(rest), line),
        "list" => list(alloc, depot, rest, line),
        "pages" => pages(alloc, depot, rest, line),
        "read-record" => depot.say_record(alloc, ("", "none"), line),
        "held" => held(alloc, depot, line),
        "faults" => {
            say_number(line, depot.fault_count());
            Ok("")
        }
        _ => Ok("no such call"),
    }
}

/// A call.
fn answer<C: Calls>(alloc: Global, depot: &mut C, call: &str, line: &mut String) -> Said {
    let (verb, rest) = cut(call);
    let (name, text) = cut(rest);
    let text = unquoted(text);
    match verb {
        "commit" => depot.commit_text(alloc, name, text),
        "replace" => depot.replace_text(alloc, name, text),
        "commit-pieces" => depot.commit_pieces(alloc, name, text, line),
        "put" => depot.put(alloc, name, text),
        "fill" => fill(alloc, depot, name, text),
        "remove" => depot.take_away(alloc, name, text),
        "swap-record" => depot.put_text(alloc, unquoted(rest)),
        _ => look(alloc, depot, call, line),
    }
}

/// Makes a call of a container, and says what it answers:
///
/// | Call | What it does | Answers |
/// |---|---|---|
/// | `commit NAME TEXT`, `replace NAME TEXT` | of a blob of the text, in one piece | `Done`, `Exists` or `ok` |
/// | `commit-pieces NAME TEXT` | of a blob in the pieces of the text, with bars between them | each write, the faults of the stage, and the commit |
/// | `put NAME FIRST SECOND TEXT` | commits a blob of two pieces, and swaps the record | `Done`, `Exists` or `stage failed` |
/// | `fill FOLDER COUNT` | commits so many empty blobs of the folder, from `FOLDER/1000` on | `ok` |
/// | `remove NAME OTHER` | of one name, or of two | `ok` |
/// | `swap-record TEXT` | | `ok` |
/// | `fetch NAME` | by reads of two bytes, of which a failed one is `!` | the blob, or `none` |
/// | `list`, `list NAME` | the first page, or the one after that name | names with lengths |
/// | `pages`, `pages NAME` | page after page, from the first one on or after that name | of each how many names it has, the first and the last |
/// | `read-record` | | its text, or `none` |
/// | `held` | lists a page, fetches each and reads the record | names with blobs, and the record where there is one |
/// | `faults` | | how often the container has failed |
///
/// Each answers `failed` where a call of the container does.
pub(crate) fn say_call<C: Calls>(alloc: Global, depot: &mut C, call: &str, line: &mut String) {
    let word = match answer(alloc, depot, call, line) {
        Ok(word) => word,
        Err(CallError::Failed) => "failed",
        Err(CallError::Memory) => "no memory",
    };
    say(line, word);
}
