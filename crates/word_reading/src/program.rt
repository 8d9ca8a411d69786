//! The words behind the command's own as `clap` reads them: options, and up to four names.
ghost use Rattle.std.specs.Prelude.{◌≡◌, ◌∷◌, IfOk, [], false, map};
ghost use Rattle.clap.specs.Simple.{new_rule};
ghost use Rattle.clap.specs.Words.{app_of, rule_of, with_rule};
ghost use Rattle.clap.specs.declared.builder.command.Command.TheViews.{out-Command as fields_of};
ghost use Rattle.word_reading.specs.Words.{budget_rule, depth_rule, option_rules, tries_rule, workers_rule};
ghost use Rattle.word_reading.specs.Inner.Program.{bare as bare_app, clap_option, name_ids, number_rule, program as program_app, with_rules};

use crate::options::{
    LEAST_BUDGET, LEAST_WORKERS, MOST_BUDGET, MOST_DEPTH, MOST_MERGE, MOST_PERTURB, MOST_SHIFT,
    MOST_TRIES, MOST_WORK, MOST_WORKERS,
};
use clap::builder::ValueParser;
use clap::{Arg, Command};
use std::alloc::{AllocError, Global};

// An option whose value is a number from `least` to `most`.
fn option<'a>(alloc: Global, key: &'a str, least: u64, most: u64) -> Arg<'a>
    ensures rule { rule_of result ≡ number_rule key.entry.now least most }
    ensures own { result.global ≡ false }
{
    Arg::new(alloc, key)
        .long(key)
        .value_parser(ValueParser::unsigned(least, most))
}

// The command with one more argument.
fn with<'a>(command: Command<'a>, arg: Arg<'a>) -> Result<Command<'a>, AllocError>
    requires { arg.global ≡ false }
    ensures shape { IfOk result (λ r. app_of r ≡ with_rule (app_of command.entry) (rule_of arg.entry)) }
    ensures globals { IfOk result (λ r. (fields_of r).has_globals ≡ (fields_of command.entry).has_globals) }
{
    command.arg(arg)
}

// The command with the options of the settings.
fn with_settings<'a>(alloc: Global, command: Command<'a>) -> Result<Command<'a>, AllocError>
    ensures shape { IfOk result (λ r. app_of r ≡ with_rules (app_of command.entry) (map clap_option (depth_rule ∷ budget_rule ∷ tries_rule ∷ workers_rule ∷ []))) }
    ensures globals { IfOk result (λ r. (fields_of r).has_globals ≡ (fields_of command.entry).has_globals) }
{
    let depth = option(alloc, "depth", 0, u64::from(MOST_DEPTH));
    let budget = option(
        alloc,
        "budget",
        u64::from(LEAST_BUDGET),
        u64::from(MOST_BUDGET),
    );
    let tries = option(alloc, "tries", 0, u64::from(MOST_TRIES));
    let workers = option(
        alloc,
        "workers",
        u64::from(LEAST_WORKERS),
        u64::from(MOST_WORKERS),
    );
    let command = with(command, depth)?;
    let command = with(command, budget)?;
    let command = with(command, tries)?;
    with(command, workers)
}

fn with_options<'a>(alloc: Global, command: Command<'a>) -> Result<Command<'a>, AllocError>
    ensures shape { IfOk result (λ r. app_of r ≡ with_rules (app_of command.entry) (map clap_option option_rules)) }
    ensures globals { IfOk result (λ r. (fields_of r).has_globals ≡ (fields_of command.entry).has_globals) }
{
    let command = with_settings(alloc, command)?;
    let merge = option(alloc, "merge", 0, u64::from(MOST_MERGE));
    let perturb = option(alloc, "perturb", 0, u64::from(MOST_PERTURB));
    let work = option(alloc, "work", 0, u64::from(MOST_WORK));
    let shift = option(alloc, "shift", 0, u64::from(MOST_SHIFT));
    let command = with(command, merge)?;
    let command = with(command, perturb)?;
    let command = with(command, work)?;
    with(command, shift)
}

fn with_names<'a>(alloc: Global, command: Command<'a>) -> Result<Command<'a>, AllocError>
    ensures shape { IfOk result (λ r. app_of r ≡ with_rules (app_of command.entry) (map new_rule name_ids)) }
    ensures globals { IfOk result (λ r. (fields_of r).has_globals ≡ (fields_of command.entry).has_globals) }
{
    let command = with(command, Arg::new(alloc, "first"))?;
    let command = with(command, Arg::new(alloc, "second"))?;
    let command = with(command, Arg::new(alloc, "third"))?;
    with(command, Arg::new(alloc, "fourth"))
}

fn bare<'a>(alloc: Global) -> Command<'a>
    ensures shape { app_of result ≡ bare_app }
    ensures globals { (fields_of result).has_globals ≡ false }
{
    Command::new(alloc, "rambo")
        .no_binary_name(true)
        .disable_help_flag(true)
        .disable_help_subcommand(true)
}

pub(crate) fn program<'a>(alloc: Global) -> Result<Command<'a>, AllocError>
    ensures shape { IfOk result (λ r. app_of r ≡ program_app) }
    ensures globals { IfOk result (λ r. (fields_of r).has_globals ≡ false) }
{
    with_names(alloc, with_options(alloc, bare(alloc))?)
}
