//! The grammar of the words, built for `clap`.

ghost use Rattle.std.specs.Prelude.{◌≡◌, false, codes};
ghost use Rattle.clap.specs.Words.{App, Rule, app_of, rule_of, with_rule, with_subcommand};
ghost use Rattle.command_line.specs.Grammar.{Makes, IsLocal};
ghost use Rattle.command_line.specs.Grammar as spec;

use clap::{Arg, ArgAction, Command};
use std::alloc::{AllocError, Global};

/// A command as far as it was made, or that memory was refused for it.
type Made<'a> = Result<Command<'a>, AllocError>;

/// The command with one more argument.
fn add<'a>(made: Made<'a>, arg: Arg<'a>) -> Made<'a>
    requires { arg.global ≡ false }
    ensures app { (a : App) → (r : Rule) → Makes a made.entry → rule_of arg.entry ≡ r
        → Makes (with_rule a r) result }
    ensures local { IsLocal made.entry → IsLocal result }
{
    made?.arg(arg)
}

/// The command with one more word that must be there, in its place.
fn add_positional<'a>(alloc: Global, made: Made<'a>, name: &'a str) -> Made<'a>
    ensures app { (a : App) → Makes a made.entry
        → Makes (with_rule a (spec.positional name.entry.now)) result }
    ensures local { IsLocal made.entry → IsLocal result }
{
    add(
        made,
        Arg::new(alloc, name).required(true).action(ArgAction::Set),
    )
}

/// The command with one more option, which has one word after it.
fn add_option<'a>(alloc: Global, made: Made<'a>, name: &'a str) -> Made<'a>
    ensures app { (a : App) → Makes a made.entry
        → Makes (with_rule a (spec.option name.entry.now)) result }
    ensures local { IsLocal made.entry → IsLocal result }
{
    add(
        made,
        Arg::new(alloc, name).long(name).action(ArgAction::Set),
    )
}

/// The command with one more option, which has no word after it.
fn add_flag<'a>(alloc: Global, made: Made<'a>, name: &'a str) -> Made<'a>
    ensures app { (a : App) → Makes a made.entry
        → Makes (with_rule a (spec.flag name.entry.now)) result }
    ensures local { IsLocal made.entry → IsLocal result }
{
    add(
        made,
        Arg::new(alloc, name).long(name).action(ArgAction::SetTrue),
    )
}

/// The command with the two graphs.
#[tactic(auto, unfolding(crate::specs::Grammar::with_graphs))]
fn add_graphs<'a>(alloc: Global, made: Made<'a>) -> Made<'a>
    ensures app { (a : App) → Makes a made.entry → Makes (spec.with_graphs a) result }
    ensures local { IsLocal made.entry → IsLocal result }
{
    let with_pattern = add_positional(alloc, made, "pattern");
    add_positional(alloc, with_pattern, "target")
}

/// The command with what is asked of a map, and the format.
#[tactic(auto, unfolding(crate::specs::Grammar::with_question))]
fn add_question<'a>(alloc: Global, made: Made<'a>) -> Made<'a>
    ensures app { (a : App) → Makes a made.entry → Makes (spec.with_question a) result }
    ensures local { IsLocal made.entry → IsLocal result }
{
    let with_induced = add_flag(alloc, made, "induced");
    let with_map = add_option(alloc, with_induced, "map");
    let with_less = add_option(alloc, with_map, "less");
    add_option(alloc, with_less, "format")
}

/// The command with the mapping.
#[tactic(auto, unfolding(crate::specs::Grammar::with_mapping))]
fn add_mapping<'a>(alloc: Global, made: Made<'a>) -> Made<'a>
    ensures app { (a : App) → Makes a made.entry → Makes (spec.with_mapping a) result }
    ensures local { IsLocal made.entry → IsLocal result }
{
    add_positional(alloc, made, "mapping")
}

/// The command with what steers the search and bounds it.
#[tactic(auto, unfolding(crate::specs::Grammar::with_search))]
fn add_search<'a>(alloc: Global, made: Made<'a>) -> Made<'a>
    ensures app { (a : App) → Makes a made.entry → Makes (spec.with_search a) result }
    ensures local { IsLocal made.entry → IsLocal result }
{
    let with_threads = add_option(alloc, made, "threads");
    let with_seed = add_option(alloc, with_threads, "seed");
    add_option(alloc, with_seed, "budget")
}

/// The command with the files of a proof, and the profile of its log.
#[tactic(auto, unfolding(crate::specs::Grammar::with_proof))]
fn add_proof<'a>(alloc: Global, made: Made<'a>) -> Made<'a>
    ensures app { (a : App) → Makes a made.entry → Makes (spec.with_proof a) result }
    ensures local { IsLocal made.entry → IsLocal result }
{
    let with_prove = add_option(alloc, made, "prove");
    let with_log = add_option(alloc, with_prove, "log");
    add_option(alloc, with_log, "profile")
}

/// `solve P T [--induced] [--map M] [--less L] [--format F] [--threads N] [--seed N] [--budget N] [--book N] [--prove ENC --log LOG [--profile N]]`
#[tactic(auto, unfolding(crate::specs::Grammar::solve_grammar))]
fn solve_command<'a>(alloc: Global) -> Made<'a>
    ensures app { Makes spec.solve_grammar result }
    ensures local { IsLocal result }
{
    let with_graphs = add_graphs(alloc, Ok(Command::new(alloc, "solve")));
    let with_question = add_question(alloc, with_graphs);
    let with_search = add_search(alloc, with_question);
    let with_book = add_option(alloc, with_search, "book");
    add_proof(alloc, with_book)
}

/// `verify P T MAP [--induced] [--map M] [--less L] [--format F]`
#[tactic(auto, unfolding(crate::specs::Grammar::verify_grammar))]
fn verify_command<'a>(alloc: Global) -> Made<'a>
    ensures app { Makes spec.verify_grammar result }
    ensures local { IsLocal result }
{
    let with_graphs = add_graphs(alloc, Ok(Command::new(alloc, "verify")));
    let with_mapping = add_mapping(alloc, with_graphs);
    add_question(alloc, with_mapping)
}

/// `encode P T [--induced] [--map M] [--less L] [--format F]`
#[tactic(auto, unfolding(crate::specs::Grammar::encode_grammar))]
fn encode_command<'a>(alloc: Global) -> Made<'a>
    ensures app { Makes spec.encode_grammar result }
    ensures local { IsLocal result }
{
    let with_graphs = add_graphs(alloc, Ok(Command::new(alloc, "encode")));
    add_question(alloc, with_graphs)
}

/// `check ENC LOG`
#[tactic(auto, unfolding(crate::specs::Grammar::check_grammar))]
fn check_command<'a>(alloc: Global) -> Made<'a>
    ensures app { Makes spec.check_grammar result }
    ensures local { IsLocal result }
{
    let with_encoding = add_positional(alloc, Ok(Command::new(alloc, "check")), "encoding");
    add_positional(alloc, with_encoding, "log")
}

/// `trim ENC LOG OUT`
#[tactic(auto, unfolding(crate::specs::Grammar::trim_grammar))]
fn trim_command<'a>(alloc: Global) -> Made<'a>
    ensures app { Makes spec.trim_grammar result }
    ensures local { IsLocal result }
{
    let with_encoding = add_positional(alloc, Ok(Command::new(alloc, "trim")), "encoding");
    let with_log = add_positional(alloc, with_encoding, "log");
    add_positional(alloc, with_log, "out")
}

/// `demo K [--threads N] [--budget N]`
#[tactic(auto, unfolding(crate::specs::Grammar::demo_grammar))]
fn demo_command<'a>(alloc: Global) -> Made<'a>
    ensures app { Makes spec.demo_grammar result }
    ensures local { IsLocal result }
{
    let with_seed = add_positional(alloc, Ok(Command::new(alloc, "demo")), "seed");
    let with_threads = add_option(alloc, with_seed, "threads");
    add_option(alloc, with_threads, "budget")
}

/// `batch LIST [--format F] [--threads N] [--seed N] [--budget N] [--book N]`
#[tactic(auto, unfolding(crate::specs::Grammar::batch_grammar))]
fn batch_command<'a>(alloc: Global) -> Made<'a>
    ensures app { Makes spec.batch_grammar result }
    ensures local { IsLocal result }
{
    let with_list = add_positional(alloc, Ok(Command::new(alloc, "batch")), "list");
    let with_format = add_option(alloc, with_list, "format");
    let with_search = add_search(alloc, with_format);
    add_option(alloc, with_search, "book")
}

/// The command without help and version, which its subcommands take from it.
fn quiet<'a>(command: Command<'a>) -> Command<'a>
    ensures { app_of result ≡ spec.quiet (app_of command.entry) }
{
    command
        .disable_help_flag(true)
        .disable_help_subcommand(true)
        .disable_version_flag(true)
}

/// The command with one more subcommand.
fn enter<'a>(made: Made<'a>, entered: Made<'a>) -> Made<'a>
    requires { IsLocal entered }
    ensures { (a : App) → (e : App) → Makes a made.entry → Makes e entered.entry
        → Makes (with_subcommand a e.top) result }
{
    let command = made?;
    command.subcommand(entered?)
}

/// The commands that answer questions of a pattern and a target.
#[tactic(auto, unfolding(crate::specs::Grammar::answering))]
fn answering<'a>(alloc: Global) -> Made<'a>
    ensures { Makes spec.answering result }
{
    let none = quiet(Command::new(alloc, "subgraph"));
    let with_solve = enter(Ok(none), solve_command(alloc));
    enter(with_solve, verify_command(alloc))
}

/// The commands that read files.
#[tactic(auto, unfolding(crate::specs::Grammar::reading))]
fn reading<'a>(alloc: Global) -> Made<'a>
    ensures { Makes spec.reading result }
{
    let with_encode = enter(answering(alloc), encode_command(alloc));
    enter(with_encode, check_command(alloc))
}

/// The commands that read files, and `trim`, which writes one.
#[tactic(auto, unfolding(crate::specs::Grammar::trimming))]
fn trimming<'a>(alloc: Global) -> Made<'a>
    ensures { Makes spec.trimming result }
{
    enter(reading(alloc), trim_command(alloc))
}

/// All commands. It takes memory for each argument, and is to be built once a run.
/// Where memory is refused for one part, those behind it are still made, and are dropped.
#[tactic(auto, unfolding(crate::specs::Grammar::grammar))]
pub(crate) fn whole_grammar<'a>(alloc: Global) -> Result<Command<'a>, AllocError>
    ensures { Makes spec.grammar result }
{
    let with_demo = enter(trimming(alloc), demo_command(alloc));
    enter(with_demo, batch_command(alloc))
}
