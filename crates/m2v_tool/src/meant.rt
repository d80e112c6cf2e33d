// What the words behind each command's name mean, where `clap` takes them.
ghost use Rattle.std.specs.Prelude.{◌≡◌, ◌++◌, false, codes, map, option_map, string_bytes, IfOk};
ghost use Rattle.clap.specs.Walk.{rows_of, rule_of};
ghost use Rattle.clap.specs.Matches.{found_of};
ghost use Rattle.clap.specs.Simple.{app_of};
ghost use Rattle.m2v_tool.specs.Simple.{simple, stands_alone, with_rules};
ghost use Rattle.m2v_tool.specs.Words.{flat_app, flat_meant, flat_of};
ghost use Rattle.m2v_tool.specs.EncodeWords.{encode_app, encode_meant, needed, numbers, others, level_named, meant_of, plan_named, scan_named, settings_of, words_of};
ghost use Rattle.m2v_tool.specs.Y4mWords.{y4m_app, y4m_meant};
ghost use Rattle.m2v_tool.specs.Decoding.{decode_app, decode_meant};
ghost use Rattle.m2v_tool.specs.Auditing.{audit_app, audit_meant, audit_of, rules_named};
ghost use Rattle.m2v_tool.specs.Mending.{list_named, mend_app, mend_meant};
ghost use Rattle.m2v_tool.specs.Cutting.{cut_app, cut_meant, cut_of};
ghost use Rattle.m2v_tool.specs.Making.{make_app, make_meant, seed_in, seed_word};
ghost use Rattle.m2v_tool.specs.Packing.{header_of, pack_app, pack_meant};

use crate::cut::CutWords;
use crate::encode::EncodeWords;
use crate::flat::FlatWords;
use crate::mend::MendWords;
use crate::words::{
    file_named, flag, flag_option, number, number_option, number_or, number_word, required,
    required_option, simple, stands_alone, taken, text_option, text_or, with,
};
use clap::{Arg, ArgMatches, Command, value_parser};
use m2v_audit::{Asked, RuleSet};
use m2v_set::{Level, Planning, Scan, Settings};
use m2v_y4m::Y4mHeader;
use std::alloc::{AllocError, Global};

// ---- flat

/// The words behind `flat`: W H CODE Q.
fn flat_command<'a>(alloc: Global) -> Result<Command<'a>, AllocError>
    ensures { IfOk result (λ c. app_of c ≡ flat_app) }
{
    simple(alloc, "flat")
        .arg(number_word(alloc, "W"))?
        .arg(number_word(alloc, "H"))?
        .arg(number_word(alloc, "CODE"))?
        .arg(number_word(alloc, "Q"))
}

/// The numbers of the words behind `flat`.
#[tactic(auto, unfolding(crate::specs::Words::flat_of))]
fn flat_of(matches: &ArgMatches) -> FlatWords
    ensures { result ≡ flat_of (rows_of (found_of matches.now)) }
{
    FlatWords {
        width: required(matches, "W"),
        height: required(matches, "H"),
        rate_code: required(matches, "CODE"),
        quantiser: required(matches, "Q"),
    }
}

/// What the words behind `flat` mean, where they are taken.
pub(crate) fn flat_words(alloc: Global, words: &[String]) -> Result<Option<FlatWords>, AllocError>
    ensures { IfOk result (λ w. w ≡ flat_meant (map string_bytes words.now)) }
{
    match taken(flat_command(alloc)?, words)? {
        Some(matches) => Ok(Some(flat_of(&matches))),
        None => Ok(None),
    }
}

// ---- encode and encode-y4m

/// How frames are scanned, by its word.
#[tactic(auto, unfolding(crate::specs::EncodeWords::scan_named))]
fn scan_named(word: &str) -> Option<Scan>
    ensures { result ≡ scan_named word.now }
{
    match word {
        "progressive" => Some(Scan::Progressive),
        "frames" => Some(Scan::Frames),
        "fields" => Some(Scan::Fields),
        _ => None,
    }
}

/// A level, by its word.
#[tactic(auto, unfolding(crate::specs::EncodeWords::level_named))]
fn level_named(word: &str) -> Option<Level>
    ensures { result ≡ level_named word.now }
{
    match word {
        "main" => Some(Level::Main),
        "high1440" => Some(Level::High1440),
        "high" => Some(Level::High),
        _ => None,
    }
}

/// How bits are shared, by its word.
#[tactic(auto, unfolding(crate::specs::EncodeWords::plan_named))]
fn plan_named(word: &str) -> Option<Planning>
    ensures { result ≡ plan_named word.now }
{
    match word {
        "weights" => Some(Planning::Weights),
        "even" => Some(Planning::Even),
        _ => None,
    }
}

/// The settings, with the numbers that stand where none is given.
#[tactic(auto, unfolding(crate::specs::EncodeWords::settings_of))]
fn settings_of(matches: &ArgMatches, scan: Scan, level: Level, planning: Planning) -> Settings
    ensures { result ≡ settings_of (rows_of (found_of matches.now)) scan level planning }
{
    Settings {
        width: required(matches, "width"),
        height: required(matches, "height"),
        rate_code: required(matches, "rate"),
        bits: required(matches, "bits"),
        buffer: required(matches, "buffer"),
        delay: number(matches, "delay"),
        group: number_or(matches, "group", 12),
        step: number_or(matches, "step", 3),
        closed: flag(matches, "closed"),
        scan,
        search: number_or(matches, "search", 15),
        aspect: number_or(matches, "aspect", 2),
        workers: number_or(matches, "workers", 1),
        pulldown: flag(matches, "pulldown"),
        level,
        planning,
    }
}

/// The command with the numbers that are required.
fn with_needed<'a>(alloc: Global) -> Result<Command<'a>, AllocError>
    ensures { IfOk result (λ c. app_of c ≡ simple (codes "encode") needed) }
{
    let command = simple(alloc, "encode");
    let command = with(command, required_option(alloc, "width"))?;
    let command = with(command, required_option(alloc, "height"))?;
    let command = with(command, required_option(alloc, "rate"))?;
    let command = with(command, required_option(alloc, "bits"))?;
    with(command, required_option(alloc, "buffer"))
}

/// The command with the numbers that may be given.
fn with_numbers<'a>(alloc: Global, command: Command<'a>) -> Result<Command<'a>, AllocError>
    ensures { IfOk result (λ c. app_of c ≡ with_rules (app_of command.entry) numbers) }
{
    let command = with(command, number_option(alloc, "delay"))?;
    let command = with(command, number_option(alloc, "group"))?;
    let command = with(command, number_option(alloc, "step"))?;
    let command = with(command, number_option(alloc, "search"))?;
    let command = with(command, number_option(alloc, "aspect"))?;
    with(command, number_option(alloc, "workers"))
}

/// The command with all options that needn't be given.
fn with_options<'a>(alloc: Global, command: Command<'a>) -> Result<Command<'a>, AllocError>
    ensures { IfOk result (λ c. app_of c ≡ with_rules (app_of command.entry) (numbers ++ others)) }
{
    let command = with_numbers(alloc, command)?;
    let command = with(command, text_option(alloc, "scan"))?;
    let command = with(command, text_option(alloc, "level"))?;
    let command = with(command, text_option(alloc, "plan"))?;
    let command = with(command, flag_option(alloc, "closed"))?;
    let command = with(command, flag_option(alloc, "pulldown"))?;
    with(command, text_option(alloc, "recon"))
}

/// The options behind `encode`.
fn encode_command<'a>(alloc: Global) -> Result<Command<'a>, AllocError>
    ensures { IfOk result (λ c. app_of c ≡ encode_app) }
{
    let command = with_needed(alloc)?;
    with_options(alloc, command)
}

/// What was found in the words behind `encode`.
#[tactic(auto, unfolding(crate::specs::EncodeWords::meant_of, crate::specs::EncodeWords::scan_in, crate::specs::EncodeWords::level_in, crate::specs::EncodeWords::plan_in))]
fn meant_of(alloc: Global, matches: &ArgMatches) -> Result<Option<EncodeWords>, AllocError>
    ensures { IfOk result (λ w. option_map words_of w ≡ meant_of (rows_of (found_of matches.now))) }
{
    let Some(scan) = scan_named(text_or(matches, "scan", "progressive")) else {
        return Ok(None);
    };
    let Some(level) = level_named(text_or(matches, "level", "main")) else {
        return Ok(None);
    };
    let Some(planning) = plan_named(text_or(matches, "plan", "weights")) else {
        return Ok(None);
    };
    let recon = file_named(alloc, matches, "recon")?;
    Ok(Some(EncodeWords {
        settings: settings_of(matches, scan, level, planning),
        recon,
    }))
}

/// What the words behind `encode` mean, where they are taken.
pub(crate) fn encode_words(
    alloc: Global,
    words: &[String],
) -> Result<Option<EncodeWords>, AllocError>
    ensures { IfOk result (λ w. option_map words_of w ≡ encode_meant (map string_bytes words.now)) }
{
    match taken(encode_command(alloc)?, words)? {
        Some(matches) => meant_of(alloc, &matches),
        None => Ok(None),
    }
}

/// The options behind `encode-y4m`; the sizes and the rate come from the text.
fn y4m_command<'a>(alloc: Global) -> Result<Command<'a>, AllocError>
    ensures { IfOk result (λ c. app_of c ≡ y4m_app) }
{
    let command = simple(alloc, "encode-y4m");
    let command = with(command, required_option(alloc, "bits"))?;
    let command = with(command, required_option(alloc, "buffer"))?;
    with_options(alloc, command)
}

/// What the words behind `encode-y4m` mean, where they are taken; the sizes and the rate are 0 in it.
pub(crate) fn y4m_words(alloc: Global, words: &[String]) -> Result<Option<EncodeWords>, AllocError>
    ensures { IfOk result (λ w. option_map words_of w ≡ y4m_meant (map string_bytes words.now)) }
{
    match taken(y4m_command(alloc)?, words)? {
        Some(matches) => meant_of(alloc, &matches),
        None => Ok(None),
    }
}

// ---- decode, check and audit

/// The option behind `decode`: how many workers decode.
fn decode_command<'a>(alloc: Global) -> Result<Command<'a>, AllocError>
    ensures { IfOk result (λ c. app_of c ≡ decode_app) }
{
    simple(alloc, "decode").arg(number_option(alloc, "workers"))
}

/// How many workers the words behind `decode` ask for, where they are taken: 1 where they don't say.
pub(crate) fn decode_words(alloc: Global, words: &[String]) -> Result<Option<u32>, AllocError>
    ensures { IfOk result (λ w. w ≡ decode_meant (map string_bytes words.now)) }
{
    match taken(decode_command(alloc)?, words)? {
        Some(matches) => Ok(Some(number_or(&matches, "workers", 1))),
        None => Ok(None),
    }
}

/// Whether the words behind `check` are taken.
pub(crate) fn check_words(alloc: Global, words: &[String]) -> Result<bool, AllocError>
    ensures { IfOk result (λ b. b ≡ stands_alone (codes "check") (map string_bytes words.now)) }
{
    stands_alone(alloc, "check", words)
}

/// The options behind `audit`.
fn audit_command<'a>(alloc: Global) -> Result<Command<'a>, AllocError>
    ensures { IfOk result (λ c. app_of c ≡ audit_app) }
{
    simple(alloc, "audit")
        .arg(text_option(alloc, "for"))?
        .arg(flag_option(alloc, "pictures"))
}

/// A rule set, by its name.
#[tactic(auto, unfolding(crate::specs::Auditing::rules_named))]
fn rules_named(word: &str) -> Option<RuleSet>
    ensures { result ≡ rules_named word.now }
{
    match word {
        "main" => Some(RuleSet::Main),
        "dvd" => Some(RuleSet::Dvd),
        "dvb" => Some(RuleSet::Dvb),
        "atsc" => Some(RuleSet::Atsc),
        _ => None,
    }
}

/// What was found in the words behind `audit`.
#[tactic(auto, unfolding(crate::specs::Auditing::audit_of, crate::specs::Auditing::rules_in))]
fn audit_of(matches: &ArgMatches) -> Option<Asked>
    ensures { result ≡ audit_of (rows_of (found_of matches.now)) }
{
    match rules_named(text_or(matches, "for", "main")) {
        Some(rules) => Some(Asked {
            rules,
            pictures: flag(matches, "pictures"),
            first: None,
        }),
        None => None,
    }
}

/// What the words behind `audit` mean, where they are taken.
pub(crate) fn audit_words(alloc: Global, words: &[String]) -> Result<Option<Asked>, AllocError>
    ensures { IfOk result (λ w. w ≡ audit_meant (map string_bytes words.now)) }
{
    match taken(audit_command(alloc)?, words)? {
        Some(matches) => Ok(audit_of(&matches)),
        None => Ok(None),
    }
}

// ---- mend and cut

/// The options behind `mend`.
fn mend_command<'a>(alloc: Global) -> Result<Command<'a>, AllocError>
    ensures { IfOk result (λ c. app_of c ≡ mend_app) }
{
    simple(alloc, "mend").arg(text_option(alloc, "list"))
}

/// What the words behind `mend` mean, where they are taken.
pub(crate) fn mend_words(alloc: Global, words: &[String]) -> Result<Option<MendWords>, AllocError>
    ensures { IfOk result (λ w. option_map list_named w
        ≡ mend_meant (map string_bytes words.now)) }
{
    match taken(mend_command(alloc)?, words)? {
        Some(matches) => {
            let list = file_named(alloc, &matches, "list")?;
            Ok(Some(MendWords { list }))
        }
        None => Ok(None),
    }
}

/// The words behind `cut`: FROM COUNT.
fn cut_command<'a>(alloc: Global) -> Result<Command<'a>, AllocError>
    ensures { IfOk result (λ c. app_of c ≡ cut_app) }
{
    simple(alloc, "cut")
        .arg(number_word(alloc, "FROM"))?
        .arg(number_word(alloc, "COUNT"))
}

/// The numbers of the words behind `cut`.
#[tactic(auto, unfolding(crate::specs::Cutting::cut_of))]
fn cut_of(matches: &ArgMatches) -> CutWords
    ensures { result ≡ cut_of (rows_of (found_of matches.now)) }
{
    CutWords {
        from: required(matches, "FROM"),
        count: required(matches, "COUNT"),
    }
}

/// What the words behind `cut` mean, where they are taken.
pub(crate) fn cut_words(alloc: Global, words: &[String]) -> Result<Option<CutWords>, AllocError>
    ensures { IfOk result (λ w. w ≡ cut_meant (map string_bytes words.now)) }
{
    match taken(cut_command(alloc)?, words)? {
        Some(matches) => Ok(Some(cut_of(&matches))),
        None => Ok(None),
    }
}

// ---- make, pack and unpack

/// The word behind `make`: a seed of 64 bits.
fn seed_word<'a>(alloc: Global) -> Arg<'a>
    ensures rule { rule_of result ≡ seed_word }
    ensures local { result.global ≡ false }
{
    Arg::new(alloc, "SEED")
        .required(true)
        .value_parser(value_parser!(u64))
}

/// The words behind `make`.
fn make_command<'a>(alloc: Global) -> Result<Command<'a>, AllocError>
    ensures { IfOk result (λ c. app_of c ≡ make_app) }
{
    simple(alloc, "make").arg(seed_word(alloc))
}

/// The seed that was given: clap takes no words without it.
#[tactic(auto, unfolding(crate::specs::Making::seed_in))]
fn seed_in(matches: &ArgMatches) -> u64
    ensures { result ≡ seed_in (rows_of (found_of matches.now)) }
{
    matches.get_one::<u64>("SEED").unwrap_or(0)
}

/// What the words behind `make` mean, where they are taken.
pub(crate) fn make_words(alloc: Global, words: &[String]) -> Result<Option<u64>, AllocError>
    ensures { IfOk result (λ w. w ≡ make_meant (map string_bytes words.now)) }
{
    match taken(make_command(alloc)?, words)? {
        Some(matches) => Ok(Some(seed_in(&matches))),
        None => Ok(None),
    }
}

/// The words behind `pack`: W H CODE, and the flag `--top`.
fn pack_command<'a>(alloc: Global) -> Result<Command<'a>, AllocError>
    ensures { IfOk result (λ c. app_of c ≡ pack_app) }
{
    let command = simple(alloc, "pack");
    let command = with(command, number_word(alloc, "W"))?;
    let command = with(command, number_word(alloc, "H"))?;
    let command = with(command, number_word(alloc, "CODE"))?;
    with(command, flag_option(alloc, "top"))
}

/// The header that the words behind `pack` are.
#[tactic(auto, unfolding(crate::specs::Packing::header_of))]
fn header_of(matches: &ArgMatches) -> Y4mHeader
    ensures { result ≡ header_of (rows_of (found_of matches.now)) }
{
    Y4mHeader {
        width: required(matches, "W"),
        height: required(matches, "H"),
        rate_code: required(matches, "CODE"),
        top: flag(matches, "top"),
    }
}

/// What the words behind `pack` mean, where they are taken.
pub(crate) fn pack_words(alloc: Global, words: &[String]) -> Result<Option<Y4mHeader>, AllocError>
    ensures { IfOk result (λ w. w ≡ pack_meant (map string_bytes words.now)) }
{
    match taken(pack_command(alloc)?, words)? {
        Some(matches) => Ok(Some(header_of(&matches))),
        None => Ok(None),
    }
}

/// Whether the words behind `unpack` are taken.
pub(crate) fn unpack_words(alloc: Global, words: &[String]) -> Result<bool, AllocError>
    ensures { IfOk result (λ b. b ≡ stands_alone (codes "unpack") (map string_bytes words.now)) }
{
    stands_alone(alloc, "unpack", words)
}
