//! What is decided of the problems of a batch, before it is told.

ghost use Rattle.std.specs.Prelude.{◌≡◌, ◌++◌, ◌≤◌, [], IfOk, IfErr, length, map};
ghost use Rattle.command_line.specs.Batch.{IsBatchInRange};
ghost use Rattle.whole_program.specs.Verdicts.{AreRight, verdict_of, accounts_of, accounts_in};

use crate::verdict::JobVerdict;
use crate::work::{Deciding, answers_to};
use command_line::BatchWords;
use fail_account::account::Account;
use graph_rows::problem::Problem;
use parallel_solve::Solved;
use std::alloc::Global;
use std::sync::Wait;
use std::thread::Threads;
use subgraph_cli::stop::Stop;

/// The verdict of an answer. The account of an undecided job goes to `spent`.
fn verdict(answer: Solved, spent: &mut Vec<Account>) -> Result<JobVerdict, Stop>
    ensures verdict { IfOk result (λ v. v ≡ verdict_of answer) }
    ensures kept { IfOk result (λ _. spent.new.items ≡ spent.old.items ++ accounts_of answer) }
    ensures memory { IfErr result (λ stop. stop ≡ Stop.NoMemory) }
{
    match answer {
        Solved::Yes(map) => Ok(JobVerdict::Yes(map)),
        Solved::NoEmbedding(_) => Ok(JobVerdict::Nothing),
        Solved::Unknown(mut accounts) => match spent.append(&mut accounts) {
            Ok(()) => Ok(JobVerdict::Unknown),
            Err(_) => Err(Stop::NoMemory),
        },
        Solved::NoMemory => Err(Stop::NoMemory),
    }
}

/// The verdicts of answers, in their order. The accounts of undecided jobs go to `spent`.
fn verdicts(
    alloc: Global,
    answers: Vec<Solved>,
    spent: &mut Vec<Account>,
) -> Result<Vec<JobVerdict>, Stop>
    ensures verdicts { IfOk result (λ v. v.items ≡ map verdict_of answers.items) }
    ensures kept { IfOk result (λ _. spent.new.items ≡ spent.old.items
        ++ accounts_in answers.items) }
    ensures memory { IfErr result (λ stop. stop ≡ Stop.NoMemory) }
{
    let mut told = Vec::new(alloc);
    for answer in answers {
        let one = match verdict(answer, spent) {
            Ok(one) => one,
            Err(_) => return Err(Stop::NoMemory),
        };
        match told.push(one) {
            Ok(()) => {}
            Err(_) => return Err(Stop::NoMemory),
        }
    }
    Ok(told)
}

/// Decides the problems beside each other, each by one worker. The accounts of undecided ones go to `spent`, in order.
pub(crate) fn decide_all<R: Threads + Wait + Sync>(
    rt: &R,
    alloc: Global,
    problems: Vec<Problem>,
    words: &BatchWords,
    spent: &mut Vec<Account>,
) -> Result<Vec<JobVerdict>, Stop>
    requires ranges { IsBatchInRange words.now }
    requires few { length problems.items ≤ 1000 }
    requires empty { spent.old.items ≡ [] }
    ensures right { IfOk result (λ v. AreRight words.now.budget problems.items v.items
        spent.new.items) }
    ensures memory { IfErr result (λ stop. stop ≡ Stop.NoMemory) }
{
    let work = Deciding::new(alloc, words.seed, words.budget, words.book);
    match answers_to(rt, alloc, problems, words.threads, &work) {
        Ok(answers) => verdicts(alloc, answers, spent),
        Err(_) => Err(Stop::NoMemory),
    }
}
