ghost use Rattle.std.specs.Prelude.{◌≡◌, IfOk, false};
ghost use Rattle.clap.specs.Words.{app_of, rule_of};
ghost use Rattle.emu_words.specs.Line.{emu_app, flag_rule, option_rule, with_flags, with_options};

use clap::{Arg, ArgAction, Command};
use std::alloc::{AllocError, Global};

/// The command: a mode, four options and four flags.
pub fn emu<'a>(alloc: Global) -> Result<Command<'a>, AllocError>
    ensures { IfOk result (λ command. app_of command ≡ emu_app) }
{
    let mode = Arg::new(alloc, "mode").required(true);
    let command = Command::new(alloc, "emu").no_binary_name(true);
    add_flags(alloc, add_options(alloc, command.arg(mode)?)?)
}

fn add_options<'a>(alloc: Global, command: Command<'a>) -> Result<Command<'a>, AllocError>
    ensures { IfOk result (λ more. app_of more ≡ with_options (app_of command.entry)) }
{
    command
        .arg(option(alloc, "nodelets"))?
        .arg(option(alloc, "turns"))?
        .arg(option(alloc, "serial"))?
        .arg(option(alloc, "workload"))
}

fn add_flags<'a>(alloc: Global, command: Command<'a>) -> Result<Command<'a>, AllocError>
    ensures { IfOk result (λ more. app_of more ≡ with_flags (app_of command.entry)) }
{
    command
        .arg(flag(alloc, "report"))?
        .arg(flag(alloc, "memory"))?
        .arg(flag(alloc, "record"))?
        .arg(flag(alloc, "watch"))
}

/// An option with one value.
fn option<'a>(alloc: Global, name: &'a str) -> Arg<'a>
    ensures rule { rule_of result ≡ option_rule name.entry.now }
    ensures local { result.global ≡ false }
{
    Arg::new(alloc, name).long(name)
}

fn flag<'a>(alloc: Global, name: &'a str) -> Arg<'a>
    ensures rule { rule_of result ≡ flag_rule name.entry.now }
    ensures local { result.global ≡ false }
{
    Arg::new(alloc, name).long(name).action(ArgAction::SetTrue)
}
