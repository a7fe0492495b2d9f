//! Domains counted together block by block: where any two images have to differ all domains are one block; by local maps those of the
//! vertices near one vertex are a block, for each that has two near it; by any maps there is none.

ghost use Rattle.std.specs.Prelude.{◌≡◌, ℕ, ◌<◌, true, Option, Some, IfErr};
ghost use Rattle.graph_theory.specs.Graph.{size};
ghost use Rattle.graph_theory.specs.Neighbours.{is_near, members as those};
ghost use Rattle.graph_theory.specs.Blocks.{has_block};
ghost use Rattle.graph_theory.specs.declared.embedding.Maps.TheVariants.{Local};
ghost use Rattle.domain_bits.specs.Removals.{State, in_domain};
ghost use Rattle.search_theory.specs.Claims.{Quiet};
ghost use Rattle.all_different.specs.Prefixes.{Balanced};
ghost use Rattle.nogood_watch.specs.Nogoods as watched;
ghost use Rattle.recorder.specs.Recording.{NoNewGuess};
ghost use Rattle.recorder.specs.Telling.{IsOf, Fails, TellsOn, block_state};
ghost use Rattle.propagation.specs.Propagation.{AreBalanced, AreNeighbourhoods, Counts, IsFor};

use crate::count_room::{CountRoom, Neighbourhoods};
use crate::removal::{prune, tell_short};
use all_different::{Pruned, Scratch, prune_of};
use domain_bits::{Domains, Trail};
use graph_rows::Problem;
use graph_theory::embedding::Maps;
use recorder::{Failure, Recorder};

/// Counts the values of the first domains of the block of `c` together, and tells what leaves the others: whether any has, or that some domains
/// have fewer values than there are of them. Cost: that of `prune_of`.
fn prune_block<T: Trail, R: Recorder>(
    q: &Problem,
    d: &mut Domains<T>,
    scratch: &mut Scratch,
    told: &mut R,
    c: u16,
    members: &[u16],
) -> Result<bool, Failure>
    requires is_of { IsOf q.now d.old }
    requires is_for { IsFor q.now scratch.old }
    requires block { has_block q.now (Some c) ≡ true }
    requires members { members.now ≡ those (is_near q.now.pattern c) (size q.now.pattern) }
    ensures counts { Counts (λ e. Balanced (block_state q.now e (Some c))) result q.now d.old
        d.new }
    ensures fails { (s : Option watched.State)
        → IfErr result (Fails q.now s d.new (R.changes told.new) (R.short told.new)) }
    ensures told { TellsOn q.now d.old (R.changes told.old) d.new (R.changes told.new) }
    ensures guesses { NoNewGuess (R.changes told.old) (R.changes told.new) }
    ensures is_for { IsFor q.now scratch.new }
{
    let _vertices = d.vertices();
    let from = d.mark();
    match prune_of(d, scratch, members) {
        Pruned::Quiet => Ok(false),
        Pruned::Hall => {
            told.counted(Some(c), scratch.set(), scratch.values(), from);
            Ok(true)
        }
        Pruned::Fail => {
            tell_short(d, scratch, told, Some(c));
            Err(Failure::Short(scratch.set().len() as u16))
        }
    }
}

/// The same at a vertex near which there are two, and nothing at others.
fn prune_near<T: Trail, R: Recorder>(
    q: &Problem,
    d: &mut Domains<T>,
    scratch: &mut Scratch,
    told: &mut R,
    c: u16,
    members: &[u16],
) -> Result<bool, Failure>
    requires is_of { IsOf q.now d.old }
    requires is_for { IsFor q.now scratch.old }
    requires local { q.now.maps ≡ Local }
    requires c_in { c < size q.now.pattern }
    requires members { members.now ≡ those (is_near q.now.pattern c) (size q.now.pattern) }
    ensures counts { Counts (λ e. has_block q.now (Some c) ≡ true
        → Balanced (block_state q.now e (Some c))) result q.now d.old d.new }
    ensures fails { (s : Option watched.State)
        → IfErr result (Fails q.now s d.new (R.changes told.new) (R.short told.new)) }
    ensures told { TellsOn q.now d.old (R.changes told.old) d.new (R.changes told.new) }
    ensures guesses { NoNewGuess (R.changes told.old) (R.changes told.new) }
    ensures is_for { IsFor q.now scratch.new }
{
    if members.len() < 2 {
        return Ok(false);
    }
    prune_block(q, d, scratch, told, c, members)
}

/// The same at one vertex after another, up to the first where something leaves.
fn prune_blocks<T: Trail, R: Recorder>(
    q: &Problem,
    d: &mut Domains<T>,
    scratch: &mut Scratch,
    near: &Neighbourhoods,
    told: &mut R,
) -> Result<bool, Failure>
    requires is_of { IsOf q.now d.old }
    requires is_for { IsFor q.now scratch.old }
    requires local { q.now.maps ≡ Local }
    requires near { AreNeighbourhoods q.now near.now }
    ensures counts { Counts (AreBalanced q.now) result q.now d.old d.new }
    ensures fails { (s : Option watched.State)
        → IfErr result (Fails q.now s d.new (R.changes told.new) (R.short told.new)) }
    ensures told { TellsOn q.now d.old (R.changes told.old) d.new (R.changes told.new) }
    ensures guesses { NoNewGuess (R.changes told.old) (R.changes told.new) }
    ensures is_for { IsFor q.now scratch.new }
{
    for c in 0..q.pattern().size() {
        let members = near.of(usize::from(c));
        if prune_near(q, d, scratch, told, c, members)? {
            return Ok(true);
        }
    }
    Ok(false)
}

/// Counts the values of the first domains of each block together, where each value that is all of a domain has left the others of its blocks, and
/// tells what leaves. Cost: that of `prune_undecided` where all domains are one block, else that of `prune_of` for each block up to the first where
/// something leaves.
pub(crate) fn count_domains<T: Trail, R: Recorder>(
    q: &Problem,
    d: &mut Domains<T>,
    counting: &mut CountRoom,
    told: &mut R,
) -> Result<bool, Failure>
    requires is_of { IsOf q.now d.old }
    requires quiet { Quiet q.now (in_domain d.old) }
    requires is_for { IsFor q.now counting.old.scratch }
    requires near { AreNeighbourhoods q.now counting.old.near }
    ensures counts { Counts (AreBalanced q.now) result q.now d.old d.new }
    ensures fails { (s : Option watched.State)
        → IfErr result (Fails q.now s d.new (R.changes told.new) (R.short told.new)) }
    ensures told { TellsOn q.now d.old (R.changes told.old) d.new (R.changes told.new) }
    ensures guesses { NoNewGuess (R.changes told.old) (R.changes told.new) }
    ensures is_for { IsFor q.now counting.new.scratch }
    ensures near { counting.new.near ≡ counting.old.near }
{
    match q.maps() {
        Maps::Injective => prune(q, d, &mut counting.scratch, told),
        Maps::Local => prune_blocks(q, d, &mut counting.scratch, &counting.near, told),
        Maps::Any => Ok(false),
    }
}
