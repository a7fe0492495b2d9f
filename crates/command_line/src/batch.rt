//! The words of a batch of problems.

ghost use Rattle.std.specs.Prelude.{◌≡◌, Some, None, map, string_bytes, IfOk, IfSome, IsErrOf};
ghost use Rattle.clap.specs.Words.{found_of, rows_of, subcommand_rows_of};
ghost use Rattle.command_line.specs.Batch as line;
ghost use Rattle.command_line.specs.CommandLine as single;

use crate::file_name::FileName;
use crate::reading::{
    Refusal, book_at, budget_at, format_at, name_at, parsed, seed_at, threads_at,
};
use clap::ArgMatches;
use graph_theory::lad_text::LadKind;
use std::alloc::Global;

/// What the words of `batch` tell.
#[derive(Drop)]
pub struct BatchWords<'a> {
    /// The file that lists the jobs.
    pub list: FileName<'a>,
    /// The format of all graphs.
    pub format: LadKind,
    /// How many jobs are decided beside each other, from 1 to 64; one worker searches for each.
    pub threads: u32,
    /// Where the choices of values begin in each job, from 0 to 2^64 - 1.
    pub seed: u64,
    /// How many fails may be spent on each job, from 1 to 2^63 - 1.
    pub budget: u64,
    /// How many rows of nogoods the search of each job may keep, up to 4,194,304.
    pub book: u32,
}

/// The batch that was found.
fn batch_words<'a>(matches: &ArgMatches<'a>) -> Option<BatchWords<'a>>
    ensures words { result ≡ line.batch_in (rows_of (found_of matches.now)) }
    ensures ranges { IfSome result line.IsBatchInRange }
{
    let list = name_at(matches, "list")?;
    let format = format_at(matches)?;
    let threads = threads_at(matches)?;
    let seed = seed_at(matches)?;
    let budget = budget_at(matches)?;
    let book = book_at(matches)?;
    Some(BatchWords {
        list,
        format,
        threads,
        seed,
        budget,
        book,
    })
}

/// The batch of this name, with what was found for it.
fn named_batch<'a>(name: &str, matches: &ArgMatches<'a>) -> Option<BatchWords<'a>>
    ensures words { result ≡ line.named_batch name.now (rows_of (found_of matches.now)) }
    ensures ranges { IfSome result line.IsBatchInRange }
{
    if name == "batch" {
        batch_words(matches)
    } else {
        None
    }
}

/// The batch that a parse entered.
fn entered_batch<'a>(matches: &ArgMatches<'a>) -> Option<BatchWords<'a>>
    ensures words { result ≡ line.entered_batch (subcommand_rows_of matches.now) }
    ensures ranges { IfSome result line.IsBatchInRange }
{
    match matches.subcommand() {
        Some((name, inner)) => named_batch(name, inner),
        None => None,
    }
}

/// The batch that the words are, the program's name first among them. What it gives borrows from the words. It takes
/// memory for the grammar and for what stands among the words, and gives it back.
#[tactic(auto, unfolding(crate::specs::Batch::batch))]
pub fn batch_of<'a>(alloc: Global, words: &'a [String]) -> Result<BatchWords<'a>, Refusal>
    ensures given { IfOk result (λ w. line.batch (map string_bytes words.entry.now) ≡ Some w) }
    ensures ranges { IfOk result line.IsBatchInRange }
    ensures no_command { IfOk result
        (λ _. single.command (map string_bytes words.entry.now) ≡ None) }
    ensures refused { IsErrOf result Refusal.NotACommand
        → line.batch (map string_bytes words.entry.now) ≡ None }
{
    match parsed(alloc, words) {
        Ok(matches) => match entered_batch(&matches) {
            Some(batch) => Ok(batch),
            None => Err(Refusal::NotACommand),
        },
        Err(refusal) => Err(refusal),
    }
}
