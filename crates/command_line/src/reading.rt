//! From words to a command: what `clap` finds among the words, and the project's own tests of it.

ghost use Rattle.std.specs.Prelude.{◌≡◌, ◌≢◌, ◌≤◌, ◌<◌, ◌^◌, IsTrue, IfOk, IfSome, IsErrOf, Some, None, [], false, map, codes, option_map, option_and_then, string_bytes};
ghost use Rattle.std.specs.Char.{is_ascii_digit};
ghost use Rattle.std.specs.List.{list_all};
ghost use Rattle.clap.specs.Words.{fault_of, first_of, found_of, rows_of, subcommand_of, subcommand_rows_of};
ghost use Rattle.clap.specs.Walk.{is_empty};
ghost use Rattle.clap.specs.Values.{kind_of};
ghost use Rattle.clap.specs.declared.error.kind.ErrorKind.TheVariants.{OutOfMemory};
ghost use Rattle.command_line.specs.Words.{number_within};
ghost use Rattle.command_line.specs.Words as word;
ghost use Rattle.command_line.specs.Grammar.{grammar};
ghost use Rattle.command_line.specs.CommandLine as line;

use crate::asking::AskWords;
use crate::commands::{
    CheckWords, Command, DemoWords, EncodeWords, ProveWords, SolveWords, TrimWords, VerifyWords,
};
use crate::file_name::FileName;
use crate::grammar::whole_grammar;
use crate::pairs::Pairs;
use clap::error::ErrorKind;
use clap::{ArgMatches, Error};
use graph_theory::embedding::Maps;
use graph_theory::lad_text::LadKind;
use log_theory::Profile;
use std::alloc::{AllocError, Global};

/// The largest seed.
const LARGEST_SEED: u64 = 18_446_744_073_709_551_615;

/// The largest budget, which is the default too.
const MOST_FAILS: u64 = 9_223_372_036_854_775_807;

/// The most workers.
const MOST_THREADS: u32 = 64;

/// The most rows that the workers share.
const MOST_ROWS: u32 = 4_194_304;

/// How many rows the workers share where no number is named.
const ROWS: u32 = 65_536;

/// Why there is no command.
#[derive(Clone, Copy, PartialEq, Eq, Debug)]
pub enum Refusal {
    /// The words are no command.
    NotACommand,
    /// Memory was refused.
    NoMemory,
}

impl From<AllocError> for Refusal {
    ghost use Rattle.std.specs.Prelude.{◌≡◌};
    ghost use Rattle.command_line.specs.declared.reading.Refusal.TheVariants.{NoMemory};

    ghost from_gives = { λ _ e. e ≡ NoMemory };

    fn from(_: AllocError) -> Refusal {
        Refusal::NoMemory
    }
}

/// Whether the text has no byte other than decimal digits.
fn is_all_digits(text: &str) -> bool
    ensures { result ≡ list_all is_ascii_digit text.now }
{
    text.as_bytes().iter().all(|byte| byte.is_ascii_digit())
}

/// The number that a word writes, where it is within its range.
#[tactic(auto, using(crate::proofs::Numbers::each_digit))]
fn number_of(text: &str, least: u64, most: u64) -> Option<u64>
    ensures value { result ≡ number_within least most text.now }
    ensures range { IfSome result (λ n. (least ≤ n) × (n ≤ most)) }
{
    if !is_all_digits(text) {
        return None;
    }
    let number: u64 = match text.parse() {
        Ok(number) => number,
        Err(_) => return None,
    };
    if number < least || most < number {
        return None;
    }
    Some(number)
}

/// The same of a number that is written with at most 32 bits.
pub(crate) fn small_number_of(text: &str, least: u32, most: u32) -> Option<u32>
    ensures value { result ≡ number_within least most text.now }
    ensures range { IfSome result (λ n. (least ≤ n) × (n ≤ most)) }
{
    match number_of(text, u64::from(least), u64::from(most)) {
        Some(number) => Some(number as u32),
        None => None,
    }
}

/// The format that a word names.
fn format_named(text: &str) -> Option<LadKind>
    ensures { result ≡ word.format text.now }
{
    if text == "lad" {
        Some(LadKind::Lad)
    } else if text == "vertexlabelledlad" {
        Some(LadKind::VertexLabelledLad)
    } else if text == "directedlad" {
        Some(LadKind::DirectedLad)
    } else if text == "labelledlad" {
        Some(LadKind::LabelledLad)
    } else {
        None
    }
}

/// The kind of maps that a word names.
fn maps_named(text: &str) -> Option<Maps>
    ensures { result ≡ word.maps text.now }
{
    if text == "injective" {
        Some(Maps::Injective)
    } else if text == "local" {
        Some(Maps::Local)
    } else if text == "any" {
        Some(Maps::Any)
    } else {
        None
    }
}

/// The word that was found for an argument.
fn word_at<'a>(matches: &ArgMatches<'a>, id: &str) -> Option<&'a str>
    ensures { option_map (λ s. s.now) result ≡ first_of id.now (rows_of (found_of matches.now)) }
{
    matches.get_str(id)
}

/// The name of a file that was found for an argument.
pub(crate) fn name_at<'a>(matches: &ArgMatches<'a>, id: &str) -> Option<FileName<'a>>
    ensures { result ≡ line.name_at id.now (rows_of (found_of matches.now)) }
{
    match word_at(matches, id) {
        Some(text) => FileName::new(text),
        None => None,
    }
}

/// Whether the flag stands among the words.
fn flag_at(matches: &ArgMatches, id: &str) -> bool
    ensures { result ≡ line.flag_at id.now (rows_of (found_of matches.now)) }
{
    match word_at(matches, id) {
        Some(text) => text == "true",
        None => false,
    }
}

/// The format of both graphs.
pub(crate) fn format_at(matches: &ArgMatches) -> Option<LadKind>
    ensures { result ≡ line.format_at (rows_of (found_of matches.now)) }
{
    match word_at(matches, "format") {
        Some(text) => format_named(text),
        None => Some(LadKind::Lad),
    }
}

/// Which images have to differ.
fn maps_at(matches: &ArgMatches) -> Option<Maps>
    ensures { result ≡ line.maps_at (rows_of (found_of matches.now)) }
{
    match word_at(matches, "map") {
        Some(text) => maps_named(text),
        None => Some(Maps::Injective),
    }
}

/// The pairs that are to be in order.
fn less_at(matches: &ArgMatches) -> Option<Pairs>
    ensures { result ≡ line.less_at (rows_of (found_of matches.now)) }
{
    match word_at(matches, "less") {
        Some(text) => Pairs::named(text),
        None => Some(Pairs::none()),
    }
}

/// What the words ask.
fn question_at(matches: &ArgMatches) -> Option<AskWords>
    ensures { result ≡ line.question_at (rows_of (found_of matches.now)) }
{
    let induced = flag_at(matches, "induced");
    let maps = maps_at(matches)?;
    let less = less_at(matches)?;
    let format = format_at(matches)?;
    AskWords::new(induced, maps, less, format)
}

/// The seed.
pub(crate) fn seed_at(matches: &ArgMatches) -> Option<u64>
    ensures { result ≡ line.seed_at (rows_of (found_of matches.now)) }
{
    match word_at(matches, "seed") {
        Some(text) => number_of(text, 0, LARGEST_SEED),
        None => Some(0),
    }
}

/// The seed that stands in its place.
fn given_seed(matches: &ArgMatches) -> Option<u64>
    ensures { result ≡ option_and_then word.seed (first_of (codes "seed") (rows_of
        (found_of matches.now))) }
{
    match word_at(matches, "seed") {
        Some(text) => number_of(text, 0, LARGEST_SEED),
        None => None,
    }
}

/// The budget.
pub(crate) fn budget_at(matches: &ArgMatches) -> Option<u64>
    ensures value { result ≡ line.budget_at (rows_of (found_of matches.now)) }
    ensures range { IfSome result (λ n. (1 ≤ n) × (n < 2 ^ 63)) }
{
    match word_at(matches, "budget") {
        Some(text) => number_of(text, 1, MOST_FAILS),
        None => Some(MOST_FAILS),
    }
}

/// How many workers search.
pub(crate) fn threads_at(matches: &ArgMatches) -> Option<u32>
    ensures value { result ≡ line.threads_at (rows_of (found_of matches.now)) }
    ensures range { IfSome result (λ n. (1 ≤ n) × (n ≤ 64)) }
{
    match word_at(matches, "threads") {
        Some(text) => small_number_of(text, 1, MOST_THREADS),
        None => Some(1),
    }
}

/// How many rows the workers share.
pub(crate) fn book_at(matches: &ArgMatches) -> Option<u32>
    ensures value { result ≡ line.book_at (rows_of (found_of matches.now)) }
    ensures range { IfSome result (λ n. n ≤ 4194304) }
{
    match word_at(matches, "book") {
        Some(text) => small_number_of(text, 0, MOST_ROWS),
        None => Some(ROWS),
    }
}

/// The profile that a word numbers.
fn profile_numbered(text: &str) -> Option<Profile>
    ensures { result ≡ word.profile text.now }
{
    match number_of(text, 1, 2) {
        Some(2) => Some(Profile::Plain),
        Some(_) => Some(Profile::Hinted),
        None => None,
    }
}

/// The profile of a log.
fn profile_from(text: Option<&str>) -> Option<Profile>
    ensures { result ≡ line.profile_from (option_map (λ s. s.now) text.entry) }
{
    match text {
        Some(text) => profile_numbered(text),
        None => Some(Profile::Hinted),
    }
}

/// The files of a proof, by both of their words, and the profile of its log.
fn prove_named<'a>(
    encoding: &'a str,
    log: &'a str,
    profile: Option<Profile>,
) -> Option<Option<ProveWords<'a>>>
    ensures { result
        ≡ line.prove_named (word.file_name encoding.entry.now) (word.file_name log.entry.now)
        profile }
{
    let encoding = FileName::new(encoding)?;
    let log = FileName::new(log)?;
    let profile = profile?;
    Some(Some(ProveWords {
        encoding,
        log,
        profile,
    }))
}

/// The files of a proof, where both are named, or that none is asked for.
fn prove_at<'a>(matches: &ArgMatches<'a>) -> Option<Option<ProveWords<'a>>>
    ensures { result ≡ line.prove_at (rows_of (found_of matches.now)) }
{
    let profile = word_at(matches, "profile");
    match (word_at(matches, "prove"), word_at(matches, "log")) {
        (None, None) => match profile {
            Some(_) => None,
            None => Some(None),
        },
        (Some(encoding), Some(log)) => prove_named(encoding, log, profile_from(profile)),
        (Some(_), None) | (None, Some(_)) => None,
    }
}

/// Whether the files of a proof differ from each other, and from the pattern's and the target's.
fn are_apart(pattern: &FileName, target: &FileName, prove: &Option<ProveWords>) -> bool
    ensures answer { result ≡ line.are_apart pattern.now target.now prove.now }
    ensures apart { IsTrue result
        → IfSome prove.now (λ p. line.IsProveInRange pattern.now target.now p) }
{
    let Some(words) = prove else {
        return true;
    };
    let (pattern, target) = (pattern.as_str(), target.as_str());
    let (encoding, log) = (words.encoding.as_str(), words.log.as_str());
    encoding != log && encoding != pattern && encoding != target && log != pattern && log != target
}

/// The solve that was found.
fn solve_words<'a>(matches: &ArgMatches<'a>) -> Option<Command<'a>>
    ensures words { result ≡ line.solve_of (rows_of (found_of matches.now)) }
    ensures ranges { IfSome result line.IsInRange }
{
    let pattern = name_at(matches, "pattern")?;
    let target = name_at(matches, "target")?;
    let ask = question_at(matches)?;
    let threads = threads_at(matches)?;
    let seed = seed_at(matches)?;
    let budget = budget_at(matches)?;
    let book = book_at(matches)?;
    let prove = prove_at(matches)?;
    if !are_apart(&pattern, &target, &prove) {
        return None;
    }
    Some(Command::Solve(SolveWords {
        pattern,
        target,
        ask,
        threads,
        seed,
        budget,
        book,
        prove,
    }))
}

/// The verify that was found.
fn verify_words<'a>(matches: &ArgMatches<'a>) -> Option<Command<'a>>
    ensures words { result ≡ line.verify_of (rows_of (found_of matches.now)) }
    ensures ranges { IfSome result line.IsInRange }
{
    let pattern = name_at(matches, "pattern")?;
    let target = name_at(matches, "target")?;
    let mapping = name_at(matches, "mapping")?;
    let ask = question_at(matches)?;
    Some(Command::Verify(VerifyWords {
        pattern,
        target,
        mapping,
        ask,
    }))
}

/// The encode that was found.
fn encode_words<'a>(matches: &ArgMatches<'a>) -> Option<Command<'a>>
    ensures words { result ≡ line.encode_of (rows_of (found_of matches.now)) }
    ensures ranges { IfSome result line.IsInRange }
{
    let pattern = name_at(matches, "pattern")?;
    let target = name_at(matches, "target")?;
    let ask = question_at(matches)?;
    Some(Command::Encode(EncodeWords {
        pattern,
        target,
        ask,
    }))
}

/// The check that was found.
fn check_words<'a>(matches: &ArgMatches<'a>) -> Option<Command<'a>>
    ensures { result ≡ line.check_of (rows_of (found_of matches.now)) }
{
    let encoding = name_at(matches, "encoding")?;
    let log = name_at(matches, "log")?;
    Some(Command::Check(CheckWords { encoding, log }))
}

/// The trim that was found.
fn trim_words<'a>(matches: &ArgMatches<'a>) -> Option<Command<'a>>
    ensures words { result ≡ line.trim_of (rows_of (found_of matches.now)) }
    ensures ranges { IfSome result line.IsInRange }
{
    let encoding = name_at(matches, "encoding")?;
    let log = name_at(matches, "log")?;
    let out = name_at(matches, "out")?;
    if out.as_str() == encoding.as_str() || out.as_str() == log.as_str() {
        return None;
    }
    Some(Command::Trim(TrimWords { encoding, log, out }))
}

/// The demo that was found.
fn demo_words<'a>(matches: &ArgMatches<'a>) -> Option<Command<'a>>
    ensures words { result ≡ line.demo_of (rows_of (found_of matches.now)) }
    ensures ranges { IfSome result line.IsInRange }
{
    let seed = given_seed(matches)?;
    let threads = threads_at(matches)?;
    let budget = budget_at(matches)?;
    Some(Command::Demo(DemoWords {
        seed,
        threads,
        budget,
    }))
}

/// The command of this name, with what was found for it.
fn named_command<'a>(name: &str, matches: &ArgMatches<'a>) -> Option<Command<'a>>
    ensures words { result ≡ line.named_command name.now (rows_of (found_of matches.now)) }
    ensures ranges { IfSome result line.IsInRange }
{
    if name == "solve" {
        solve_words(matches)
    } else if name == "verify" {
        verify_words(matches)
    } else if name == "encode" {
        encode_words(matches)
    } else if name == "check" {
        check_words(matches)
    } else if name == "trim" {
        trim_words(matches)
    } else if name == "demo" {
        demo_words(matches)
    } else {
        None
    }
}

/// The command that a parse entered.
fn entered_command<'a>(matches: &ArgMatches<'a>) -> Option<Command<'a>>
    ensures words { result ≡ line.entered_command (subcommand_rows_of matches.now) }
    ensures ranges { IfSome result line.IsInRange }
{
    match matches.subcommand() {
        Some((name, inner)) => named_command(name, inner),
        None => None,
    }
}

/// Why a parse that failed gives no command.
fn refusal_of(error: &Error) -> Refusal
    ensures { result ≡ Refusal.NotACommand → kind_of error.now ≢ OutOfMemory }
{
    match error.kind() {
        ErrorKind::OutOfMemory => Refusal::NoMemory,
        _ => Refusal::NotACommand,
    }
}

/// What `clap` finds among the words.
pub(crate) fn parsed<'a>(alloc: Global, words: &'a [String]) -> Result<ArgMatches<'a>, Refusal>
    ensures ok { IfOk result (λ m. (fault_of grammar (map string_bytes words.entry.now) ≡ [])
        × (subcommand_rows_of m ≡ subcommand_of grammar (map string_bytes words.entry.now))) }
    ensures refused { IsErrOf result Refusal.NotACommand
        → is_empty (fault_of grammar (map string_bytes words.entry.now)) ≡ false }
{
    let parser = whole_grammar(alloc)?;
    match parser.try_get_matches_from(words) {
        Ok(matches) => Ok(matches),
        Err(error) => Err(refusal_of(&error)),
    }
}

/// The command that the words are, the program's name first among them. What it gives borrows from the words. It takes
/// memory for the grammar and for what stands among the words, and gives it back.
#[tactic(auto, unfolding(crate::specs::CommandLine::command))]
pub fn command_of<'a>(alloc: Global, words: &'a [String]) -> Result<Command<'a>, Refusal>
    ensures given { IfOk result (λ c. line.command (map string_bytes words.entry.now) ≡ Some c) }
    ensures ranges { IfOk result line.IsInRange }
    ensures refused { IsErrOf result Refusal.NotACommand
        → line.command (map string_bytes words.entry.now) ≡ None }
{
    match parsed(alloc, words) {
        Ok(matches) => match entered_command(&matches) {
            Some(command) => Ok(command),
            None => Err(Refusal::NotACommand),
        },
        Err(refusal) => Err(refusal),
    }
}
