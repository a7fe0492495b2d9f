//! The choice of a value among those that are untried: biased to the values of many neighbours in the target, or uniform.
//!
//! The bias sends all workers into the same values first, where they refute the same before they have read of each other. So every other
//! worker gives all values the same weight: two workers beside each other begin apart, and what each publishes is new to the other.
//! Worker 1 is biased, so that one thread searches as by itself. (Workers that differ in how they choose, and not in where they look:
//! the portfolios of Hamadi, Jabbour and Sais 2009.)

ghost use Rattle.std.specs.Prelude.{◌≡◌, ℕ, ◌<◌, ◌≤◌, ◌%◌, ◌&&◌, true, false, not, length, IfOk};
ghost use Rattle.graph_theory.specs.Graph.{size};
ghost use Rattle.graph_theory.specs.Path.{NotOn};
ghost use Rattle.bit_rows.specs.BitRows.{has, words_for};
ghost use Rattle.domain_bits.specs.Removals.{in_domain};
ghost use Rattle.search_theory.specs.Account.{path, NotAmong};

use crate::degrees::either_degree;
use biased_choice::Chooser;
use domain_bits::{Domains, Trail};
use fail_account::Account;
use graph_rows::Problem;
use std::alloc::{AllocError, Global};
use std::marker::Model;

/// What a worker chooses values with: the degree that it weighs each target vertex by, which is the number of its neighbours in either
/// direction, and its stream of words. Contracts see how many target vertices there are.
#[derive(Drop)]
pub struct ValueChoice {
    degrees: Vec<u16>,
    chooser: Chooser,
}

impl Model for ValueChoice {
    ghost use Rattle.std.specs.Prelude.{ℕ, length};

    ghost Value = { ℕ };

    ghost view = { λ v. length v.degrees.items };
}

/// The degree that a worker weighs a value of this degree by: a worker of even number weighs all alike.
fn weighed(worker: u8, degree: u16) -> u16
    ensures odd { worker % 2 ≡ 1 → result ≡ degree }
    ensures even { worker % 2 ≡ 0 → result ≡ 0 }
{
    if worker % 2 == 0 { 0 } else { degree }
}

impl ValueChoice {
    /// The choice of the worker of this number, from 1, whose stream is that of the seed after as many jumps as there are workers before
    /// it: biased where the number is odd, and uniform where it is even. Cost: one step for each target vertex, where edges are not known to
    /// stand both ways one for each word of a row, and for each jump some hundred.
    pub fn new(alloc: Global, q: &Problem, seed: u64, worker: u8) -> Result<ValueChoice, AllocError>
        requires { 1 ≤ worker }
        ensures { IfOk result (λ v. v ≡ size q.now.target) }
    {
        let target = q.target();
        let mut degrees = Vec::new(alloc);
        for t in 0..target.size() {
            degrees.push(weighed(worker, either_degree(target, t)))?;
        }
        let chooser = Chooser::new(seed, u32::from(worker));
        Ok(ValueChoice { degrees, chooser })
    }

    /// The value that the next word of the stream chooses among the members of a row. Cost: three steps for each member
    /// and for each word of the row.
    pub fn choose(&mut self, row: &[u64]) -> u16
        requires some { (t : ℕ) × (has row.now t ≡ true) }
        requires short { length row.now ≤ 1024 }
        requires within { (t : ℕ) → has row.now t ≡ true → t < self.old }
        ensures member { has row.now result ≡ true }
        ensures same { self.new ≡ self.old }
    {
        self.chooser.choose(row, &self.degrees)
    }
}

/// Fills the row with the values of the domain of `p` that are not refuted at the level after the path. Cost: the words
/// of a row.
pub(crate) fn fill_untried<T: Trail>(d: &Domains<T>, account: &Account, p: u16, row: &mut [u64])
    requires p_in { p < d.now.vertices }
    requires off_path { NotOn (path account.now) p }
    requires some { (t : ℕ) × (in_domain d.now p t ≡ true) }
    requires vertices { account.now.pattern ≡ d.now.vertices }
    requires values { account.now.target ≡ d.now.values }
    requires long { length row.old ≡ words_for d.now.values }
    ensures untried { (t : ℕ) → has row.new t ≡ true → (in_domain d.now p t ≡ true)
        × NotAmong account.now.refuted t }
    ensures all { (t : ℕ) → in_domain d.now p t ≡ true → NotAmong account.now.refuted t
        → has row.new t ≡ true }
    ensures long { length row.new ≡ words_for d.now.values }
    ensures short { length row.new ≤ 1024 }
{
    let _vertices = d.vertices();
    let depth = account.path().len();
    let (_, refuted) = account.level(depth as u16);
    put_without(d.row(p), refuted, row);
}

/// Writes into a row what one row has and another has not. Cost: one step for each word.
fn put_without(from: &[u64], out: &[u64], row: &mut [u64])
    requires same_length { length from.now ≡ length row.old }
    requires out_length { length from.now ≡ length out.now }
    ensures members { (t : ℕ) → has row.new t ≡ (has from.now t && not (has out.now t)) }
    ensures long { length row.new ≡ length row.old }
{
    for place in 0..row.len() {
        row[place] = from[place] & !out[place];
    }
}

/// Whether a row has a value. Cost: the words up to the first one that has.
pub(crate) fn has_value(row: &[u64]) -> bool
    ensures some { result ≡ true → (t : ℕ) × (has row.now t ≡ true) }
    ensures none { result ≡ false → (t : ℕ) → has row.now t ≡ false }
{
    for place in 0..row.len() {
        if row[place] != 0 {
            return true;
        }
    }
    false
}
