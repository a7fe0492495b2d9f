//! Lists of watches by index: the head of each list, and for each watch the next one. Each watch is in one list, or in none.

ghost use Rattle.std.specs.Prelude.{◌≡◌, ℕ, ◌<◌, ◌≤◌, List, length, slice_index};
ghost use Rattle.nogood_watch.specs.Lists.{Chained, moved, renamed, no_watch};

/// Stands where a list ends.
pub(crate) const END: u32 = u32::MAX;

/// Puts a watch that is in no list in front of one. Cost: one step.
pub(crate) fn link(heads: &mut [u32], next: &mut [u32], to: usize, x: u32)
    requires to_in { to < length heads.old }
    requires x_in { x < length next.old }
    ensures chained { (home : ℕ → ℕ) → Chained home heads.old next.old → length heads.old ≤ home x
        → Chained (moved home x to) heads.new next.new }
    ensures heads_long { length heads.new ≡ length heads.old }
    ensures next_long { length next.new ≡ length next.old }
{
    next[x as usize] = heads[to];
    heads[to] = x;
}

/// Moves the first watch of a list to the front of another. Cost: one step.
pub(crate) fn relink(heads: &mut [u32], next: &mut [u32], from: usize, to: usize, x: u32)
    requires from_in { from < length heads.old }
    requires to_in { to < length heads.old }
    requires x_in { x < length next.old }
    requires first { slice_index heads.old from ≡ x }
    ensures chained { (home : ℕ → ℕ) → Chained home heads.old next.old → home x ≡ from
        → Chained (moved home x to) heads.new next.new }
    ensures heads_long { length heads.new ≡ length heads.old }
    ensures next_long { length next.new ≡ length next.old }
{
    heads[from] = next[x as usize];
    link(heads, next, to, x);
}

/// Gives a whole list to another place, where none is. Cost: one step.
pub(crate) fn take_list(heads: &mut [u32], from: usize, to: usize)
    requires from_in { from < length heads.old }
    requires to_in { to < length heads.old }
    requires apart { from ≡ to → ⊥ }
    requires none { slice_index heads.old to ≡ no_watch }
    ensures chained { (home : ℕ → ℕ) (next : List ℕ) → Chained home heads.old next
        → Chained (renamed home from to) heads.new next }
    ensures heads_long { length heads.new ≡ length heads.old }
{
    heads[to] = heads[from];
    heads[from] = END;
}
