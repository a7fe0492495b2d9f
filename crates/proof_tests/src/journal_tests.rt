//! A journal of two lines is their text, and a keeper of nothing keeps nothing.

ghost use Rattle.std.specs.Prelude.{IfOk};
ghost use Rattle.journals.specs.Keeping.{IsLine};

use journals::{Journal, Keeper, NoLog};
use log_theory::{Clause, Name, Op, Ops, Ref, Refs, Step};
use proof_theory::Literal;
use std::alloc::{AllocError, Global};
use std::test::Fail;

const NO_NAME: Name = Name {
    owner: 0,
    number: 0,
};

/// The sum of constraint 1 and of 2.
fn sum(alloc: Global) -> Result<Step, AllocError>
    ensures { IfOk result IsLine }
{
    let ops = [Op::Push(Ref::Line(1)), Op::Push(Ref::Line(2)), Op::Add];
    let ops = Ops::new(Vec::from_slice(alloc, &ops)?);
    Ok(Step::P { name: NO_NAME, ops })
}

/// The clause of `~x3`, from constraint 2 and the row 5.
fn clause(alloc: Global) -> Result<Step, AllocError>
    ensures { IfOk result IsLine }
{
    let literal = Literal {
        variable: 3,
        negated: true,
    };
    let refs = [Ref::Line(2), Ref::Shared(5)];
    let lits = Clause::new(Vec::from_slice(alloc, &[literal])?);
    let refs = Refs::new(Vec::from_slice(alloc, &refs)?);
    Ok(Step::U {
        name: NO_NAME,
        lits,
        refs,
    })
}

/// Gives a keeper both, and notes the clause for row 9.
fn give<K: Keeper>(alloc: Global, keeper: &mut K) -> Result<Name, AllocError> {
    keeper.keep(sum(alloc)?)?;
    let name = keeper.keep(clause(alloc)?)?;
    keeper.room()?;
    keeper.note(9, name);
    Ok(name)
}

/// Whether a journal has the lines that it was given, and the note.
fn has_kept(journal: &Journal) -> bool {
    journal.text() == b"p 7.1 1 2 + ;\nu 7.2 ~x3 ; 2 #5 ;\n".as_slice()
        && journal.ends() == [14usize, 33].as_slice()
        && journal.notes() == [(9u32, 2u64)].as_slice()
        && journal.is_on()
}

#[test]
fn lines_are_kept_under_their_owners_names(rt: HostRuntime) -> Result<(), Fail> {
    let mut journal = Journal::new(rt.alloc(), 7);
    let name = give(rt.alloc(), &mut journal)?;
    assert!(rt; name.owner == 7 && name.number == 2 && has_kept(&journal));
    Ok(())
}

#[test]
fn nothing_is_kept_without_a_log(rt: HostRuntime) -> Result<(), Fail> {
    let mut keeper = NoLog::new(3);
    let name = give(rt.alloc(), &mut keeper)?;
    assert!(rt; name.owner == 3 && !keeper.is_on());
    Ok(())
}
