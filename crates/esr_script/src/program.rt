//! The command line of the program, as `clap` takes it.
ghost use Rattle.std.specs.Prelude.{◌≡◌, false, fold, map, IfOk};
ghost use Rattle.clap.specs.Words.{app_of};
ghost use Rattle.clap.specs.declared.builder.command.Command.TheViews.{out-Command as fields_of};
ghost use Rattle.esr_script.specs.Program.{bare, options, program, verb_app, verbs, with_option, with_verb};

use clap::{Arg, Command};
use std::alloc::{AllocError, Global};

static OPTIONS: [&str; 3] = ["repo", "workers", "chunk-size"];

static VERBS: [&str; 10] = [
    "run", "snapshot", "clone", "delete", "restore", "cleanup", "list", "check", "verify",
    "generate",
];

fn bare<'a>(alloc: Global) -> Command<'a>
    ensures { app_of result ≡ bare }
{
    Command::new(alloc, "esrepo")
        .no_binary_name(true)
        .subcommand_required(true)
}

fn with_option<'a>(
    alloc: Global,
    command: Command<'a>,
    name: &'a str,
) -> Result<Command<'a>, AllocError>
    ensures { IfOk result (λ c. app_of c ≡ with_option (app_of command.entry) name.entry.now) }
{
    command.arg(Arg::new(alloc, name).long(name))
}

fn verb_command<'a>(alloc: Global, verb: &'a str) -> Result<Command<'a>, AllocError>
    ensures app { IfOk result (λ c. app_of c ≡ verb_app verb.entry.now) }
    ensures globals { IfOk result (λ c. (fields_of c).has_globals ≡ false) }
{
    Command::new(alloc, verb).arg(Arg::new(alloc, "words").num_args(0..))
}

fn with_verb<'a>(
    alloc: Global,
    command: Command<'a>,
    verb: &'a str,
) -> Result<Command<'a>, AllocError>
    ensures { IfOk result (λ c. app_of c ≡ with_verb (app_of command.entry) verb.entry.now) }
{
    let sub = verb_command(alloc, verb)?;
    command.subcommand(sub)
}

fn with_options<'a>(
    alloc: Global,
    command: Command<'a>,
    names: &[&'a str],
) -> Result<Command<'a>, AllocError>
    ensures { IfOk result (λ c. app_of c ≡ fold with_option (app_of command.entry) (map (λ n. n.now) names.now)) }
{
    let mut command = command;
    for name in names {
        command = with_option(alloc, command, name)?;
    }
    Ok(command)
}

fn with_verbs<'a>(
    alloc: Global,
    command: Command<'a>,
    verbs: &[&'a str],
) -> Result<Command<'a>, AllocError>
    ensures { IfOk result (λ c. app_of c ≡ fold with_verb (app_of command.entry) (map (λ v. v.now) verbs.now)) }
{
    let mut command = command;
    for verb in verbs {
        command = with_verb(alloc, command, verb)?;
    }
    Ok(command)
}

/// `esrepo [--repo DIR] [--workers N] [--chunk-size N] VERB WORD ..`
#[tactic(auto, unfolding(crate::specs::Program::program))]
pub(crate) fn program<'a>(alloc: Global) -> Result<Command<'a>, AllocError>
    ensures { IfOk result (λ c. app_of c ≡ program) }
{
    let command = with_options(alloc, bare(alloc), OPTIONS.as_slice())?;
    with_verbs(alloc, command, VERBS.as_slice())
}
