//! What the outcomes of all workers say together.

ghost use Rattle.std.specs.Prelude.{◌≡◌, [], ◌∷◌, ◌++◌, ◌≤◌, ◌<◌, ◌+◌, length, map, All, IfSome, vec_capacity};
ghost use Rattle.nogood_book.specs.Seats.{IsHonest, IsSeatOf};
ghost use Rattle.restart_search.specs.Searching.{Ends};
ghost use Rattle.proof_collection.specs.Making.{AreBy, AreOfOwners};
ghost use Rattle.parallel_solve.specs.Concluding.{HasHeard, IsConclusion, IsToldBy};
ghost use Rattle.parallel_solve.specs.Gathering.{HasMade, Keeps, RowsCame, TookIn};
ghost use Rattle.parallel_solve.specs.Solving.{IsSolved};
ghost use Rattle.parallel_solve.specs.Teaming.{HasRun, HaveEnded, IsRefuter, IsTally, map_by, refuted_by, spent_by, StaysBeside, StaysWithoutOwn};

use crate::answers::Solved;
use crate::running::Done;
use crate::team::Root;
use fail_account::account::Account;
use graph_rows::Problem;
use nogood_book::{BookSeat, Row, RowBook, RowSeat};
use proof_collection::ProofMaker;
use proof_logger::ProofLogger;
use restart_search::Outcome;
use std::alloc::Global;

/// What was heard of the workers so far: an embedding, the number of the first that refuted the problem, whether all were spent, and all
/// accounts.
#[derive(Drop)]
pub(crate) struct Tally {
    pub(crate) map: Option<Vec<u32>>,
    pub(crate) refuted: Option<u8>,
    pub(crate) spent: bool,
    pub(crate) accounts: Vec<Account>,
}

/// Adds what the outcome of the worker of this number says.
fn hear(tally: &mut Tally, q: &Problem, budget: u64, number: u8, account: Account, outcome: Outcome)
    requires tally { IsTally q.now budget tally.old }
    requires ends { Ends outcome q.now account }
    requires budget { account.budget ≡ budget }
    requires room { length tally.old.accounts.items < vec_capacity tally.old.accounts }
    ensures tally { IsTally q.now budget tally.new }
    ensures map { tally.new.map ≡ map_by tally.old.map outcome.entry }
    ensures refuted { tally.new.refuted ≡ refuted_by tally.old.refuted number outcome.entry }
    ensures spent { tally.new.spent ≡ spent_by tally.old.spent outcome.entry }
    ensures count { length tally.new.accounts.items ≡ length tally.old.accounts.items + 1 }
    ensures room { vec_capacity tally.new.accounts ≡ vec_capacity tally.old.accounts }
{
    tally.accounts.push_reserved(account);
    match outcome {
        Outcome::Spent => return,
        Outcome::Found(map) => tally.map = Some(map),
        Outcome::Refuted => tally.refuted = Some(tally.refuted.unwrap_or(number)),
        Outcome::Stopped(_) => (),
        Outcome::Interrupted => (),
        Outcome::NoMemory => (),
    }
    tally.spent = false;
}

/// Takes a worker's seat into the first one, without the rows that it keeps for itself. It takes no memory.
fn take_in(book: &RowBook, first: &mut BookSeat, seat: BookSeat)
    requires first { IsSeatOf book.now first.old }
    requires told { IsHonest first.old }
    requires seat { IsSeatOf book.now seat }
    ensures first { IsSeatOf book.now first.new }
    ensures told { IsHonest first.new }
    ensures taken { TookIn seat first.new }
    ensures kept { Keeps first.old first.new }
{
    let _rows = seat.rows();
    book.gather(first, seat);
    let _all = first.rows();
}

/// Takes the seat of one worker into the first one, hears its outcome and takes its log.
fn take_one<'a, L: ProofLogger>(
    q: &Problem,
    budget: u64,
    book: &RowBook,
    first: &mut BookSeat,
    tally: &mut Tally,
    logs: &mut Vec<L>,
    one: Done<'a, L>,
)
    requires tally { IsTally q.now budget tally.old }
    requires room { length tally.old.accounts.items < vec_capacity tally.old.accounts }
    requires log_room { length logs.old.items < vec_capacity logs.old }
    requires of { IsSeatOf book.now first.old }
    requires honest { IsHonest first.old }
    requires ran { HasRun L.owner L.steps L.refutes book.now q.now budget one.worker one.outcome }
    ensures tally { IsTally q.now budget tally.new }
    ensures map { tally.new.map ≡ map_by tally.old.map one.entry.outcome }
    ensures refuted { tally.new.refuted
        ≡ refuted_by tally.old.refuted one.entry.worker.number one.entry.outcome }
    ensures spent { tally.new.spent ≡ spent_by tally.old.spent one.entry.outcome }
    ensures count { length tally.new.accounts.items ≡ length tally.old.accounts.items + 1 }
    ensures room { vec_capacity tally.new.accounts ≡ vec_capacity tally.old.accounts }
    ensures logs { logs.new.items ≡ logs.old.items ++ one.entry.worker.log ∷ [] }
    ensures log_room { vec_capacity logs.new ≡ vec_capacity logs.old }
    ensures of { IsSeatOf book.now first.new }
    ensures honest { IsHonest first.new }
    ensures taken { TookIn one.entry.worker.seat first.new }
    ensures kept { Keeps first.old first.new }
{
    let Done { worker, outcome } = one;
    let number = worker.number();
    let (account, seat, log) = worker.into_parts();
    take_in(book, first, seat);
    logs.push_reserved(log);
    hear(tally, q, budget, number, account, outcome);
}

/// Takes all seats into the first one, hears all outcomes and takes all logs, in the workers' order.
fn gather_all<'a, L: ProofLogger>(
    q: &Problem,
    budget: u64,
    book: &RowBook,
    first: &mut BookSeat,
    accounts: Vec<Account>,
    logs: &mut Vec<L>,
    done: Vec<Done<'a, L>>,
) -> Tally
    requires none { length accounts.items ≡ 0 }
    requires room { length done.items ≤ vec_capacity accounts }
    requires no_logs { logs.old.items ≡ [] }
    requires log_room { length done.items ≤ vec_capacity logs.old }
    requires of { IsSeatOf book.now first.old }
    requires made { HasMade (length done.items + 1) first.old }
    requires ran { All
        (λ d. HasRun L.owner L.steps L.refutes book.now q.now budget d.worker d.outcome)
        done.items }
    requires numbers { AreOfOwners (λ d. d.worker.number) done.items }
    ensures tally { IsTally q.now budget result }
    ensures count { length result.accounts.items ≡ length done.entry.items }
    ensures logs { logs.new.items ≡ map (λ d. d.worker.log) done.entry.items }
    ensures refuter { IfSome result.refuted
        (IsRefuter (λ d. L.refutes d.worker.log q.now d.worker.facts.seen) done.entry.items) }
    ensures heard { HasHeard (λ d. d.outcome) done.entry.items result }
    ensures of { IsSeatOf book.now first.new }
    ensures alone { first.new.own ≡ [] }
    ensures grown { All (λ d. RowsCame first.new.view.seen d.worker) done.entry.items }
    ensures authors { AreBy (length done.entry.items) first.new.view.seen }
{
    let _rows = first.rows();
    let mut tally = Tally {
        map: None,
        refuted: None,
        spent: true,
        accounts,
    };
    for one in done {
        take_one(q, budget, book, first, &mut tally, logs, one);
    }
    tally
}

/// That what each log says stays so as rows of others come, and without the rows that its owner keeps for itself. Cost: none.
fn all_stay<L: ProofLogger>(logs: &[L])
    ensures steps { All (λ l. StaysBeside (L.owner l) (L.steps l)) logs.now }
    ensures refutes { All (λ l. StaysBeside (L.owner l) (L.refutes l)) logs.now }
    ensures steps_alone { All (λ l. StaysWithoutOwn (L.owner l) (L.steps l)) logs.now }
    ensures refutes_alone { All (λ l. StaysWithoutOwn (L.owner l) (L.refutes l)) logs.now }
{
    for log in logs {
        log.stays();
    }
}

/// The answer that the outcomes give: an embedding before a refutation, and this before the spent accounts. A refutation comes with its
/// proof, made of the logs and of these rows, all that the workers share.
fn answer<L: ProofLogger, M: ProofMaker<L>>(
    alloc: Global,
    q: &Problem,
    budget: u64,
    maker: &M,
    rows: &[Row],
    logs: Vec<L>,
    tally: Tally,
) -> Solved
    requires tally { IsTally q.now budget tally }
    requires some { 0 < length tally.accounts.items }
    requires maker { M.problem maker.now ≡ q.now }
    requires few { length logs.items ≤ 64 }
    requires fit { length rows.now ≤ 4194304 }
    requires owners { AreOfOwners L.owner logs.items }
    requires authors { AreBy (length logs.items) rows.now }
    requires steps { All (λ l. L.steps l q.now rows.now) logs.items }
    requires refuter { IfSome tally.refuted
        (IsRefuter (λ l. L.refutes l q.now rows.now) logs.items) }
    ensures solved { IsSolved result q.now (length tally.accounts.items) budget
        (M.logged maker.now) }
    ensures told { IsToldBy tally result }
{
    let Tally {
        map,
        refuted,
        spent,
        accounts,
    } = tally;
    if let Some(map) = map {
        return Solved::Yes(map);
    }
    if let Some(finisher) = refuted {
        return match maker.of_workers(alloc, rows, logs, finisher) {
            Ok(proof) => Solved::NoEmbedding(proof),
            Err(_) => Solved::NoMemory,
        };
    }
    if spent {
        return Solved::Unknown(accounts);
    }
    Solved::NoMemory
}

/// The answer of workers that have run. All memory but a proof's was taken before.
pub(crate) fn conclude<'a, L: ProofLogger, M: ProofMaker<L>>(
    root: &Root<'_, 'a, M>,
    book: &RowBook,
    first: &mut BookSeat,
    accounts: Vec<Account>,
    logs: Vec<L>,
    done: Vec<Done<'a, L>>,
) -> Solved
    requires maker { M.problem root.now.maker.now ≡ root.now.q.now }
    requires none { length accounts.items ≡ 0 }
    requires room { length done.items ≤ vec_capacity accounts }
    requires no_logs { logs.items ≡ [] }
    requires log_room { length done.items ≤ vec_capacity logs }
    requires some { 0 < length done.items }
    requires few { length done.items ≤ 64 }
    requires of { IsSeatOf book.now first.old }
    requires made { HasMade (length done.items + 1) first.old }
    requires ran { All
        (λ d. HasRun L.owner L.steps L.refutes book.now root.now.q.now
        root.now.settings.now.budget d.worker d.outcome)
        done.items }
    requires numbers { AreOfOwners (λ d. d.worker.number) done.items }
    requires ended { HaveEnded (λ d. d.outcome) done.items }
    ensures solved { IsSolved result root.now.q.now (length done.entry.items)
        root.now.settings.now.budget (M.logged root.now.maker.now) }
    ensures concluded { IsConclusion (λ d. d.outcome) done.entry.items result }
{
    let q = root.q;
    let budget = root.settings.budget;
    let mut logs = logs;
    let tally = gather_all(q, budget, book, first, accounts, &mut logs, done);
    all_stay(&logs);
    answer(root.alloc, q, budget, root.maker, first.rows(), logs, tally)
}
