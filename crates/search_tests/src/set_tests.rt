//! Sets of a few numbers.

ghost use Rattle.std.specs.Prelude.{◌≡◌};

use sparse_set::SparseSet;
use std::test::Fail;

/// What is done to a set of four numbers, or found of it.
enum Act {
    /// A number leaves, or was no member.
    Removes(u16, bool),
    /// All come back but the first so many that left.
    Undoes(usize),
    /// So many have left.
    Marks(usize),
    /// A number is a member or is none.
    Has(u16, bool),
    /// There are so many members.
    Counts(usize),
    /// The members are these.
    Is(&'static [u16]),
}

/// Whether no less have left.
fn undoes(set: &mut SparseSet, mark: usize) -> bool
    ensures { set.new.count ≡ set.old.count }
{
    if mark > set.mark() {
        return false;
    }
    set.undo_to(mark);
    true
}

impl Act {
    /// Whether it can be done, or is so.
    fn holds(&self, set: &mut SparseSet) -> bool
        requires { set.old.count ≡ 4 }
        ensures { set.new.count ≡ set.old.count }
    {
        match *self {
            Act::Removes(p, was_member) => p < 4 && set.remove(p) == was_member,
            Act::Undoes(mark) => undoes(set, mark),
            Act::Marks(mark) => set.mark() == mark,
            Act::Has(p, is_member) => p < 4 && set.has(p) == is_member,
            Act::Counts(len) => set.members().len() == len,
            Act::Is(members) => set.members() == members,
        }
    }
}

/// Whether one after the other holds.
fn hold(set: &mut SparseSet, acts: &[Act]) -> bool
    requires { set.old.count ≡ 4 }
{
    for act in acts {
        if !act.holds(set) {
            return false;
        }
    }
    true
}

static LIFE: [Act; 14] = [
    Act::Counts(4),
    Act::Removes(2, true),
    Act::Removes(2, false),
    Act::Marks(1),
    Act::Removes(0, true),
    Act::Removes(3, true),
    Act::Is(&[1]),
    Act::Undoes(1),
    Act::Has(0, true),
    Act::Has(2, false),
    Act::Has(3, true),
    Act::Counts(3),
    Act::Undoes(0),
    Act::Has(2, true),
];

#[test]
fn members_leave_and_come_back(rt: HostRuntime) -> Result<(), Fail> {
    let mut set = SparseSet::new(rt.alloc(), 4)?;
    assert!(rt; hold(&mut set, &LIFE));
    Ok(())
}

#[test]
fn no_numbers_make_an_empty_set(rt: HostRuntime) -> Result<(), Fail> {
    let set = SparseSet::new(rt.alloc(), 0)?;
    assert!(rt; set.mark() == 0 && set.members().is_empty());
    Ok(())
}
