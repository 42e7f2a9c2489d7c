//! How a run ended.
ghost use Rattle.std.specs.Prelude.{◌≡◌, map, option_map, length};
ghost use Rattle.std.specs.List.{list_any};
ghost use Rattle.esr_formats.specs.Names.{name_of};
ghost use Rattle.esr_report.specs.Status.{is_deposed, damaged_name, first_damaged, is_spent, is_ok, are_ok, ending, status_of};
ghost use Rattle.esr_report.specs.Replies.{replies};
ghost use Rattle.esr_report.specs.Code.{reply_of, ending_of};

use crate::history::{has_fallen, is_short};
use crate::{Replies, Reply};
use esr_desk::{EntryRefusal, History, Why};
use esr_names::BlobName;
use esr_script::Script;

/// How a run ended that opened the container; the first that holds.
#[derive(Clone, Copy)]
pub enum Ending {
    /// A record swap failed.
    SwapFailed,
    /// A blob was absent, damaged or at odds with another, the first in the order of lines.
    BlobDamaged { name: BlobName },
    /// Numbers are spent, or turns may be, or a line has no answer.
    NumbersSpent,
    /// A command was refused or aborted, or it failed.
    SomeRefused,
    /// Every line was answered as it asked.
    AllOk,
}

impl Ending {
    /// The exit status.
    pub fn status(self) -> u8
        ensures { result ≡ status_of (ending_of self) }
    {
        match self {
            Ending::SwapFailed => 3,
            Ending::BlobDamaged { name: _ } => 4,
            Ending::NumbersSpent => 7,
            Ending::SomeRefused => 1,
            Ending::AllOk => 0,
        }
    }
}

fn is_deposed(reply: &Reply) -> bool
    ensures { result ≡ is_deposed (reply_of reply.now) }
{
    matches!(reply, Reply::Deposed)
}

fn any_deposed(replies: &[Reply]) -> bool
    ensures { result ≡ list_any is_deposed (map reply_of replies.now) }
{
    for reply in replies {
        if is_deposed(reply) {
            return true;
        }
    }
    false
}

fn damaged_name(reply: &Reply) -> Option<BlobName>
    ensures { option_map name_of result ≡ damaged_name (reply_of reply.now) }
{
    match reply {
        Reply::Failed { why, op: _ } => match why {
            Why::Absent { name } => Some(*name),
            Why::Unreadable { name, reason: _ } => Some(*name),
            Why::Ahead { name, id: _ } => Some(*name),
            Why::Misprinted { name, .. } => Some(*name),
            Why::Disagreeing { name, other: _ } => Some(*name),
            _ => None,
        },
        _ => None,
    }
}

fn first_damaged(replies: &[Reply]) -> Option<BlobName>
    ensures { option_map name_of result ≡ first_damaged (map reply_of replies.now) }
{
    for reply in replies {
        let name = damaged_name(reply);
        if name.is_some() {
            return name;
        }
    }
    None
}

fn is_spent(reply: &Reply) -> bool
    ensures { result ≡ is_spent (reply_of reply.now) }
{
    match reply {
        Reply::Refused { refusal } => matches!(
            refusal,
            EntryRefusal::GenerationsSpent { .. }
                | EntryRefusal::TermsSpent { .. }
                | EntryRefusal::IdsSpent { .. }
        ),
        Reply::Failed { why, op: _ } => {
            matches!(why, Why::IdsSpent { .. } | Why::GenerationsSpent { .. })
        }
        _ => false,
    }
}

fn any_spent(replies: &[Reply]) -> bool
    ensures { result ≡ list_any is_spent (map reply_of replies.now) }
{
    for reply in replies {
        if is_spent(reply) {
            return true;
        }
    }
    false
}

fn is_ok(reply: &Reply) -> bool
    ensures { result ≡ is_ok (reply_of reply.now) }
{
    match reply {
        Reply::Refused { .. } | Reply::Failed { .. } | Reply::Aborted { .. } | Reply::Deposed =>
            false,
        _ => true,
    }
}

fn are_ok(replies: &[Reply]) -> bool
    ensures { result ≡ are_ok (map reply_of replies.now) }
{
    for reply in replies {
        if !is_ok(reply) {
            return false;
        }
    }
    true
}

/// How a run ended whose lines have these replies.
#[tactic(auto, unfolding(crate::specs::Status::ending))]
pub fn end_of_run(script: &Script, history: &History, answers: &Replies) -> Ending
    requires { map reply_of answers.now ≡ replies script.now history.now }
    ensures { ending_of result ≡ ending script.now history.now }
{
    let answers = answers.as_slice();
    let entries = history.as_slice();
    if has_fallen(entries) || any_deposed(answers) {
        return Ending::SwapFailed;
    }
    if let Some(name) = first_damaged(answers) {
        return Ending::BlobDamaged { name };
    }
    if any_spent(answers) || answers.len() < script.len() || !is_short(entries) {
        return Ending::NumbersSpent;
    }
    if are_ok(answers) {
        Ending::AllOk
    } else {
        Ending::SomeRefused
    }
}
