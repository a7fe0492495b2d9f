//! Unit propagation over all constraints so far, by watches and counters and on two levels: what is forced without assumptions stays from
//! line to line, and grows with the constraints; a line's own level ends with the line. Each literal is set by the constraint itself, to
//! which its watch or its counter only points. So an answer that there is a conflict stands whatever these say.

ghost use Rattle.std.specs.Prelude.{◌≡◌, ℕ, Bool, true, false, List, Option, Some, None, IfOk};
ghost use Rattle.std.specs.Bool.{OnTrue};
ghost use Rattle.proof_theory.specs.Forms.{Form};
ghost use Rattle.proof_theory.specs.Slack.{Setting, setting, negations};
ghost use Rattle.proof_theory.specs.Propagation.{closes};
ghost use Rattle.log_theory.specs.Lookups.{are_distinct, variables_of};
ghost use Rattle.log_theory.specs.Tables.{all_forms};
ghost use Rattle.pb_propagation.specs.Led.{Comes, Led, nothing};
ghost use Rattle.pb_propagation.specs.Levels.{Keeps, now, root};
ghost use Rattle.pb_propagation.specs.Rooted.{IsRooted};

use super::counters::{Counter, Counters, is_due, lower};
use super::following::follow;
use super::levels::Levels;
use super::propagate::{above, clear, negate_all};
use super::table::Table;
use super::uses::Use;
use log_theory::Ref;
use packed_terms::PackedConstraint;
use pb_terms::{Literal, Literals};
use std::alloc::{AllocError, Global};

/// The literals of a line, those on two levels, and the counters and watches of the constraints so far.
pub struct Propagator {
    /// What a line assumes or sets on its own, along references or in passes: each line clears it first.
    pub set: Literals,
    /// What the constraints so far force, which lasts, and for a line without references what it sets beside that.
    pub levels: Levels,
    counters: Counters,
}

impl Drop for Propagator {
    /// In one call, for whoever lets one go.
    fn drop(self) {
        let Propagator {
            set: _,
            levels: _,
            counters: _,
        } = self;
    }
}

impl Propagator {
    /// Nothing is set, and no constraint has a number.
    pub fn new(alloc: Global) -> Result<Propagator, AllocError>
        ensures { IfOk result (λ p. (v : ℕ) → root p.levels v ≡ None) }
    {
        let set = Literals::new(alloc, 0)?;
        Ok(Propagator {
            set,
            levels: Levels::new(alloc),
            counters: Counters::new(alloc),
        })
    }

    /// Forgets what lasts, which may have come from a constraint that was deleted. Constant; but the next line that names nothing finds it
    /// again, and where something did last it counts all that stands anew. So many deletions between many such lines are slow.
    pub fn forget(&mut self)
        ensures { (v : ℕ) → root self.new.levels v ≡ None }
    {
        self.levels.forget();
        self.counters.note_deleted();
    }
}

/// Follows the constraint of a name, unless there was a conflict before; whether there is one.
fn follow_due(
    set: &mut Levels,
    closed: bool,
    name: Option<&Ref>,
    model: &[PackedConstraint],
    table: &Table,
) -> bool
    ensures comes { (s : Setting) → Comes closed s (all_forms model.now table.now) (now set.old)
        → Comes result s (all_forms model.now table.now) (now set.new) }
    ensures kept { Keeps set.old set.new }
{
    if closed {
        return true;
    }
    let Some(name) = name else {
        return false;
    };
    let Some(next) = table.find(model, *name) else {
        return false;
    };
    follow(set, next)
}

/// Takes a false literal from the counters of all constraints in which it stands, and follows those that are due, up to a conflict.
/// Constant for each, and the terms of those that are due.
fn touch(
    set: &mut Levels,
    slacks: &mut [Counter],
    names: &[Ref],
    uses: &[Use],
    model: &[PackedConstraint],
    table: &Table,
) -> bool
    ensures comes { (s : Setting) → Led s (all_forms model.now table.now) (now set.old)
        → Comes result s (all_forms model.now table.now) (now set.new) }
    ensures kept { Keeps set.old set.new }
{
    let mut closed = false;
    for next in uses {
        if lower(slacks, *next) {
            closed = follow_due(set, closed, names.get(next.number()), model, table);
        }
    }
    closed
}

/// Lets the watches of the literal that is false where a variable has a value go on to others, and follows the constraints of
/// which something may follow, up to a conflict. Constant for each clause that is known to have a true literal, and the literals of
/// each other constraint that watches.
fn touch_watches(
    set: &mut Levels,
    counters: &mut Counters,
    variable: u32,
    value: bool,
    model: &[PackedConstraint],
    table: &Table,
) -> bool
    ensures comes { (s : Setting) → Led s (all_forms model.now table.now) (now set.old)
        → Comes result s (all_forms model.now table.now) (now set.new) }
    ensures kept { Keeps set.old set.new }
{
    let mut next = 0;
    for _ in 0..counters.watching(variable, value) {
        let Some(due) = counters.next_due(set, variable, value, next) else {
            return false;
        };
        next = due.next;
        if follow_due(set, false, counters.names.get(due.number), model, table) {
            return true;
        }
    }
    false
}

/// Propagates what is in the queue, up to a conflict: whether there is one. At most as many literals as variables.
fn run(set: &mut Levels, counters: &mut Counters, model: &[PackedConstraint], table: &Table) -> bool
    ensures comes { (s : Setting) → Led s (all_forms model.now table.now) (now set.old)
        → Comes result s (all_forms model.now table.now) (now set.new) }
    ensures kept { Keeps set.old set.new }
{
    counters.taken = 0;
    for place in 0..set.places() {
        let Some((variable, value)) = set.at(place) else {
            return false;
        };
        counters.taken = place.saturating_add(1);
        let uses = counters.uses.of(variable, value);
        if touch(
            set,
            &mut counters.slacks,
            &counters.names,
            uses,
            model,
            table,
        ) {
            return true;
        }
        if touch_watches(set, counters, variable, value, model, table) {
            return true;
        }
    }
    false
}

/// Follows each constraint from a number on that is due, up to a conflict. Constant for each, and the terms of those that are due.
fn follow_from(
    set: &mut Levels,
    slacks: &[Counter],
    names: &[Ref],
    from: usize,
    model: &[PackedConstraint],
    table: &Table,
) -> bool
    ensures comes { (s : Setting) → Led s (all_forms model.now table.now) (now set.old)
        → Comes result s (all_forms model.now table.now) (now set.new) }
    ensures kept { Keeps set.old set.new }
{
    for number in from..slacks.len() {
        if is_due(slacks, number) && follow_due(set, false, names.get(number), model, table) {
            return true;
        }
    }
    false
}

/// Sets at the root what the constraints force that came since the last line, and all that follows; whether that comes to a conflict.
/// After one, all constraints are looked at again, so that it is found in the next line too.
fn close_root(
    set: &mut Levels,
    counters: &mut Counters,
    model: &[PackedConstraint],
    table: &Table,
) -> bool
    ensures comes { (s : Setting) → Led s (all_forms model.now table.now) (now set.old)
        → Comes result s (all_forms model.now table.now) (now set.new) }
    ensures kept { Keeps set.old set.new }
{
    let from = counters.settled;
    counters.settled = 0;
    if follow_from(set, &counters.slacks, &counters.names, from, model, table) {
        counters.note_root(set);
        return true;
    }
    let closed = run(set, counters, model, table);
    counters.note_root(set);
    if !closed {
        counters.settled = counters.slacks.len();
    }
    closed
}

/// Sets a literal that is assumed, if its variable is unset; whether it is false.
fn assume(set: &mut Levels, variable: u32, value: bool) -> bool
    ensures comes { (s : Setting) → (fs : List Form) → s variable ≡ Some value
        → Led s fs (now set.old) → Comes result s fs (now set.new) }
    ensures kept { Keeps set.old set.new }
{
    if let Some(held) = set.value(variable) {
        return held != value;
    }
    if set.is_within(variable) {
        set.set(variable, value);
    }
    false
}

/// The value of a variable, if it is set.
fn value_of(set: &Literals, variable: u32) -> Option<bool>
    ensures { result ≡ setting set.now variable }
{
    match set.values().get(variable as usize) {
        Some(&value) => value,
        None => None,
    }
}

/// Sets what is assumed of the variable of a literal, as `assume`.
fn assume_of(set: &mut Levels, assumed: &Literals, variable: u32) -> bool
    ensures comes { (fs : List Form) → Led (setting assumed.now) fs (now set.old)
        → Comes result (setting assumed.now) fs (now set.new) }
    ensures kept { Keeps set.old set.new }
{
    match value_of(assumed, variable) {
        Some(value) => assume(set, variable, value),
        None => false,
    }
}

/// Sets what is assumed of the variables of literals, up to one that is false. Constant for each.
fn assume_all(set: &mut Levels, assumed: &Literals, literals: &[Literal]) -> bool
    ensures comes { (fs : List Form) → Led (setting assumed.now) fs (now set.old)
        → Comes result (setting assumed.now) fs (now set.new) }
    ensures kept { Keeps set.old set.new }
{
    for literal in literals {
        if assume_of(set, assumed, literal.variable) {
            return true;
        }
    }
    false
}

/// Whether what is assumed comes to a conflict, by what the counters point to.
fn close_line(
    set: &mut Levels,
    counters: &mut Counters,
    assumed: &Literals,
    literals: &[Literal],
    model: &[PackedConstraint],
    table: &Table,
) -> bool
    ensures comes { Led (setting assumed.now) (all_forms model.now table.now) (now set.old)
        → Comes result (setting assumed.now) (all_forms model.now table.now) (now set.new) }
    ensures kept { Keeps set.old set.new }
{
    if assume_all(set, assumed, literals) {
        return true;
    }
    let closed = run(set, counters, model, table);
    counters.undo(set);
    closed
}

/// Whether what is assumed comes to a conflict, by what the counters point to, with all that is forced without it.
fn close(
    alloc: Global,
    levels: &mut Levels,
    counters: &mut Counters,
    assumed: &Literals,
    literals: &[Literal],
    model: &[PackedConstraint],
    table: &Table,
) -> Result<bool, AllocError>
    requires { IsRooted model.now table.now levels.old }
    ensures rooted { IsRooted model.now table.now levels.new }
    ensures closed { IfOk result (λ b. OnTrue b
        (closes (setting assumed.now) (all_forms model.now table.now) ≡ true)) }
{
    counters.renew(alloc);
    levels.begin();
    counters.take_in(alloc, levels, model, table)?;
    levels.grow(counters.reach().max(above(literals) as usize))?;
    if close_root(levels, counters, model, table) {
        levels.has_root();
        return Ok(true);
    }
    levels.has_root();
    levels.leave_root();
    Ok(close_line(levels, counters, assumed, literals, model, table))
}

/// Whether watches and counters show that unit propagation from the negations of literals comes to a conflict. What the constraints force
/// without these stays for the next line. Costs the literals, the constraints that came since the last call, and the terms of those that
/// what is set may concern.
pub fn is_closed(
    alloc: Global,
    work: &mut Propagator,
    model: &[PackedConstraint],
    table: &Table,
    literals: &[Literal],
) -> Result<bool, AllocError>
    requires { IsRooted model.now table.now work.old.levels }
    ensures rooted { IsRooted model.now table.now work.new.levels }
    ensures closed { IfOk result (λ b. OnTrue b
        ((are_distinct (variables_of literals.now) ≡ true)
        × (closes (negations literals.now) (all_forms model.now table.now) ≡ true))) }
{
    clear(alloc, &mut work.set, above(literals))?;
    if !negate_all(&mut work.set, literals) {
        return Ok(false);
    }
    Ok(close(
        alloc,
        &mut work.levels,
        &mut work.counters,
        &work.set,
        literals,
        model,
        table,
    )?)
}
