ghost use Rattle.std.specs.Prelude.{◌≡◌, [], true, false, map, option_map, string_bytes, unwrap_or, IfOk};
ghost use Rattle.clap.specs.Walk.{first_of, rows_of, rule_of};
ghost use Rattle.clap.specs.Matches.{found_of};
ghost use Rattle.clap.specs.Simple.{app_of, with_rule};
ghost use Rattle.clap.specs.Faults.{is_simple_and_free};
ghost use Rattle.m2v_tool.specs.Simple.{flag, flag_option, number_in, number_option, number_or, number_word, required, required_option, simple, stands_alone, taken, text_option};

use clap::error::ErrorKind;
use clap::{Arg, ArgAction, ArgMatches, Command, value_parser};
use std::alloc::{AllocError, Global};

/// What clap finds in the words, where it takes them.
#[tactic(auto, unfolding(crate::specs::Simple::taken))]
pub(crate) fn taken<'a>(
    command: Command<'a>,
    words: &'a [String],
) -> Result<Option<ArgMatches<'a>>, AllocError>
    requires { is_simple_and_free (app_of command) ≡ true }
    ensures { IfOk result (λ o. option_map (λ m. rows_of (found_of m)) o
        ≡ taken (app_of command.entry) (map string_bytes words.now)) }
{
    match command.try_get_matches_from(words) {
        Ok(matches) => Ok(Some(matches)),
        Err(error) => match error.kind() {
            ErrorKind::OutOfMemory => Err(AllocError),
            _ => Ok(None),
        },
    }
}

/// The number that was given under a name, where there is one.
#[tactic(auto, unfolding(crate::specs::Simple::number_in))]
pub(crate) fn number(matches: &ArgMatches, id: &str) -> Option<u32>
    ensures { result ≡ number_in id.now (rows_of (found_of matches.now)) }
{
    matches.get_one::<u32>(id)
}

/// The number of a word that is required: clap takes no words without it.
#[tactic(auto, unfolding(crate::specs::Simple::required))]
pub(crate) fn required(matches: &ArgMatches, id: &str) -> u32
    ensures { result ≡ required id.now (rows_of (found_of matches.now)) }
{
    number(matches, id).unwrap_or(0)
}

/// The number that was given under a name, or this one.
#[tactic(auto, unfolding(crate::specs::Simple::number_or))]
pub(crate) fn number_or(matches: &ArgMatches, id: &str, otherwise: u32) -> u32
    ensures { result ≡ number_or id.now otherwise (rows_of (found_of matches.now)) }
{
    number(matches, id).unwrap_or(otherwise)
}

/// The text that was given under a name, where there is one.
pub(crate) fn text<'a>(matches: &ArgMatches<'a>, id: &str) -> Option<&'a str>
    ensures { option_map (λ s. s.now) result ≡ first_of id.now (rows_of (found_of matches.now)) }
{
    matches.get_str(id)
}

/// The name of a file that was given under a name, where there is one.
pub(crate) fn file_named(
    alloc: Global,
    matches: &ArgMatches,
    id: &str,
) -> Result<Option<String>, AllocError>
    ensures { IfOk result (λ f. option_map string_bytes f
        ≡ first_of id.now (rows_of (found_of matches.now))) }
{
    match text(matches, id) {
        Some(name) => Ok(Some(String::from_str(alloc, name)?)),
        None => Ok(None),
    }
}

/// The text that was given under a name, or this one.
pub(crate) fn text_or<'a>(matches: &ArgMatches<'a>, id: &str, otherwise: &'a str) -> &'a str
    ensures { result.now
        ≡ unwrap_or (first_of id.now (rows_of (found_of matches.now))) otherwise.now }
{
    match text(matches, id) {
        Some(text) => text,
        None => otherwise,
    }
}

/// Whether a flag was given.
#[tactic(auto, unfolding(crate::specs::Simple::flag))]
pub(crate) fn flag(matches: &ArgMatches, id: &str) -> bool
    ensures { result ≡ flag id.now (rows_of (found_of matches.now)) }
{
    text_or(matches, id, "false") == "true"
}

/// A command without a name before its words and without `--help`.
pub(crate) fn simple<'a>(alloc: Global, name: &'a str) -> Command<'a>
    ensures { app_of result ≡ simple name.entry.now [] }
{
    Command::new(alloc, name)
        .no_binary_name(true)
        .disable_help_flag(true)
}

/// Whether a command that has no words behind its name takes these: none, but what clap passes over.
#[tactic(auto, unfolding(crate::specs::Simple::stands_alone))]
pub(crate) fn stands_alone<'a>(
    alloc: Global,
    name: &'a str,
    words: &'a [String],
) -> Result<bool, AllocError>
    ensures { IfOk result (λ b. b ≡ stands_alone name.entry.now (map string_bytes words.now)) }
{
    Ok(taken(simple(alloc, name), words)?.is_some())
}

/// The command with one argument more.
pub(crate) fn with<'a>(command: Command<'a>, arg: Arg<'a>) -> Result<Command<'a>, AllocError>
    requires { arg.global ≡ false }
    ensures { IfOk result (λ c. app_of c ≡ with_rule (app_of command.entry) (rule_of arg.entry)) }
{
    command.arg(arg)
}

/// A required word that is a number.
pub(crate) fn number_word<'a>(alloc: Global, id: &'a str) -> Arg<'a>
    ensures rule { rule_of result ≡ number_word id.entry.now }
    ensures local { result.global ≡ false }
{
    Arg::new(alloc, id)
        .required(true)
        .value_parser(value_parser!(u32))
}

/// An option `--id TEXT` that may be given.
pub(crate) fn text_option<'a>(alloc: Global, id: &'a str) -> Arg<'a>
    ensures rule { rule_of result ≡ text_option id.entry.now }
    ensures local { result.global ≡ false }
{
    Arg::new(alloc, id).long(id)
}

/// An option `--id N` that may be given.
pub(crate) fn number_option<'a>(alloc: Global, id: &'a str) -> Arg<'a>
    ensures rule { rule_of result ≡ number_option id.entry.now }
    ensures local { result.global ≡ false }
{
    text_option(alloc, id).value_parser(value_parser!(u32))
}

/// An option `--id N` that is required.
pub(crate) fn required_option<'a>(alloc: Global, id: &'a str) -> Arg<'a>
    ensures rule { rule_of result ≡ required_option id.entry.now }
    ensures local { result.global ≡ false }
{
    number_option(alloc, id).required(true)
}

/// A flag `--id`.
pub(crate) fn flag_option<'a>(alloc: Global, id: &'a str) -> Arg<'a>
    ensures rule { rule_of result ≡ flag_option id.entry.now }
    ensures local { result.global ≡ false }
{
    text_option(alloc, id).action(ArgAction::SetTrue)
}
