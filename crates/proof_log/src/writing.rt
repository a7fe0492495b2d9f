//! The line of a step, put to a sink piece by piece.
ghost use Rattle.std.specs.Prelude.{◌≡◌, List, [], ◌∷◌, ◌++◌, Some};
ghost use Rattle.std.specs.List.{flat_map};
ghost use Rattle.outer_io.specs.KnownText.{Wrote};
ghost use Rattle.outer_io.specs.Sinks.{HasBlame};
ghost use Rattle.log_theory.specs.declared.step.Step.TheVariants.{Model as TheModel, N};
ghost use Rattle.log_theory.specs.Words.{joined, line_text};
ghost use Rattle.log_theory.specs.LogText.{name_text, ref_text, step_words, IsStep};
ghost use Rattle.log_theory.specs.Profiles.{words_in, told_in, read_in};
ghost use Rattle.log_theory.specs.declared.profile.Profile.TheVariants.{Plain};
ghost use Rattle.proof_log.specs.Writing.{op_text, spaced_ref, spaced_literal, spaced_one};

use crate::gathering::put_gathered;
use crate::word_buffer::{name_word, ref_word};
use itoa::Buffer;
use log_theory::{Name, Op, Profile, Ref, Step, profile_laws};
use outer_io::{Failed, Sink, put_all};
use proof_theory::Literal;

/// Puts a text and a name.
fn write_name<S: Sink>(front: &[u8], name: Name, sink: &mut S) -> Result<(), Failed>
    ensures text { Wrote (S.spot sink.old).steady (S.contents sink.old) (S.contents sink.new) result
        (front.now ++ name_text name) }
    ensures cause { HasBlame S.spot S.rest S.faults S.blamed sink.old sink.new result }
{
    let word = name_word(name);
    put_all(&[front, word.as_slice()], sink)
}

/// Puts a text and a reference.
fn write_ref<S: Sink>(front: &[u8], reference: Ref, sink: &mut S) -> Result<(), Failed>
    ensures text { Wrote (S.spot sink.old).steady (S.contents sink.old) (S.contents sink.new) result
        (front.now ++ ref_text reference) }
    ensures cause { HasBlame S.spot S.rest S.faults S.blamed sink.old sink.new result }
{
    let word = ref_word(reference);
    put_all(&[front, word.as_slice()], sink)
}

/// Puts a blank and a reference.
fn write_spaced_ref<S: Sink>(reference: Ref, sink: &mut S) -> Result<(), Failed>
    ensures text { Wrote (S.spot sink.old).steady (S.contents sink.old) (S.contents sink.new) result
        (spaced_ref reference) }
    ensures cause { HasBlame S.spot S.rest S.faults S.blamed sink.old sink.new result }
{
    let mut word = ref_word(reference);
    word.byte(b' ');
    sink.put(word.as_slice())
}

/// Puts a blank and a literal.
fn write_literal<S: Sink>(literal: Literal, sink: &mut S) -> Result<(), Failed>
    ensures text { Wrote (S.spot sink.old).steady (S.contents sink.old) (S.contents sink.new) result
        (spaced_literal literal) }
    ensures cause { HasBlame S.spot S.rest S.faults S.blamed sink.old sink.new result }
{
    let mut digits = Buffer::new();
    let number = digits.format(literal.variable).as_bytes();
    if literal.negated {
        put_gathered(&[b" ~x", number], sink)
    } else {
        put_gathered(&[b" x", number], sink)
    }
}

/// Puts a blank and a variable.
fn write_one<S: Sink>(variable: u32, sink: &mut S) -> Result<(), Failed>
    ensures text { Wrote (S.spot sink.old).steady (S.contents sink.old) (S.contents sink.new) result
        (spaced_one variable) }
    ensures cause { HasBlame S.spot S.rest S.faults S.blamed sink.old sink.new result }
{
    let mut digits = Buffer::new();
    put_gathered(&[b" x", digits.format(variable).as_bytes()], sink)
}

/// Puts an operation, a blank in front of each of its words.
fn write_op<S: Sink>(op: Op, sink: &mut S) -> Result<(), Failed>
    ensures text { Wrote (S.spot sink.old).steady (S.contents sink.old) (S.contents sink.new) result
        (op_text op) }
    ensures cause { HasBlame S.spot S.rest S.faults S.blamed sink.old sink.new result }
{
    let mut digits = Buffer::new();
    match op {
        Op::Push(reference) => write_spaced_ref(reference, sink),
        Op::Axiom(literal) => write_literal(literal, sink),
        Op::Add => sink.put(b" +"),
        Op::Times(number) => put_gathered(&[b" ", digits.format(number).as_bytes(), b" *"], sink),
        Op::Divide(number) => put_gathered(&[b" ", digits.format(number).as_bytes(), b" d"], sink),
        Op::Saturate => sink.put(b" s"),
    }
}

/// Puts operations.
fn write_ops<S: Sink>(ops: &[Op], sink: &mut S) -> Result<(), Failed>
    ensures text { Wrote (S.spot sink.old).steady (S.contents sink.old) (S.contents sink.new) result
        (flat_map op_text ops.now) }
    ensures cause { HasBlame S.spot S.rest S.faults S.blamed sink.old sink.new result }
{
    for op in ops {
        write_op(*op, sink)?;
    }
    Ok(())
}

/// Puts literals.
fn write_literals<S: Sink>(literals: &[Literal], sink: &mut S) -> Result<(), Failed>
    ensures text { Wrote (S.spot sink.old).steady (S.contents sink.old) (S.contents sink.new) result
        (flat_map spaced_literal literals.now) }
    ensures cause { HasBlame S.spot S.rest S.faults S.blamed sink.old sink.new result }
{
    for literal in literals {
        write_literal(*literal, sink)?;
    }
    Ok(())
}

/// Puts references.
fn write_refs<S: Sink>(refs: &[Ref], sink: &mut S) -> Result<(), Failed>
    ensures text { Wrote (S.spot sink.old).steady (S.contents sink.old) (S.contents sink.new) result
        (flat_map spaced_ref refs.now) }
    ensures cause { HasBlame S.spot S.rest S.faults S.blamed sink.old sink.new result }
{
    for reference in refs {
        write_spaced_ref(*reference, sink)?;
    }
    Ok(())
}

/// Puts variables.
fn write_ones<S: Sink>(ones: &[u32], sink: &mut S) -> Result<(), Failed>
    ensures text { Wrote (S.spot sink.old).steady (S.contents sink.old) (S.contents sink.new) result
        (flat_map spaced_one ones.now) }
    ensures cause { HasBlame S.spot S.rest S.faults S.blamed sink.old sink.new result }
{
    for one in ones {
        write_one(*one, sink)?;
    }
    Ok(())
}

/// Puts a text, a name and operations.
fn write_ops_of<S: Sink>(front: &[u8], name: Name, ops: &[Op], sink: &mut S) -> Result<(), Failed>
    ensures text { Wrote (S.spot sink.old).steady (S.contents sink.old) (S.contents sink.new) result
        ((front.now ++ name_text name) ++ flat_map op_text ops.now) }
    ensures cause { HasBlame S.spot S.rest S.faults S.blamed sink.old sink.new result }
{
    write_name(front, name, sink)?;
    write_ops(ops, sink)
}

/// Puts a line of operations between its two ends.
fn write_p<S: Sink>(
    front: &[u8],
    name: Name,
    ops: &[Op],
    end: &[u8],
    sink: &mut S,
) -> Result<(), Failed>
    ensures text { Wrote (S.spot sink.old).steady (S.contents sink.old) (S.contents sink.new) result
        (((front.now ++ name_text name) ++ flat_map op_text ops.now) ++ end.now) }
    ensures cause { HasBlame S.spot S.rest S.faults S.blamed sink.old sink.new result }
{
    write_ops_of(front, name, ops, sink)?;
    sink.put(end)
}

/// Puts a text, a name and literals.
fn write_literals_of<S: Sink>(
    front: &[u8],
    name: Name,
    lits: &[Literal],
    sink: &mut S,
) -> Result<(), Failed>
    ensures text { Wrote (S.spot sink.old).steady (S.contents sink.old) (S.contents sink.new) result
        ((front.now ++ name_text name) ++ flat_map spaced_literal lits.now) }
    ensures cause { HasBlame S.spot S.rest S.faults S.blamed sink.old sink.new result }
{
    write_name(front, name, sink)?;
    write_literals(lits, sink)
}

/// Puts a clause between its two ends.
fn write_clause<S: Sink>(
    front: &[u8],
    name: Name,
    lits: &[Literal],
    end: &[u8],
    sink: &mut S,
) -> Result<(), Failed>
    ensures text { Wrote (S.spot sink.old).steady (S.contents sink.old) (S.contents sink.new) result
        (((front.now ++ name_text name) ++ flat_map spaced_literal lits.now) ++ end.now) }
    ensures cause { HasBlame S.spot S.rest S.faults S.blamed sink.old sink.new result }
{
    write_literals_of(front, name, lits, sink)?;
    sink.put(end)
}

/// Puts references and an end.
fn write_hints<S: Sink>(refs: &[Ref], end: &[u8], sink: &mut S) -> Result<(), Failed>
    ensures text { Wrote (S.spot sink.old).steady (S.contents sink.old) (S.contents sink.new) result
        (flat_map spaced_ref refs.now ++ end.now) }
    ensures cause { HasBlame S.spot S.rest S.faults S.blamed sink.old sink.new result }
{
    write_refs(refs, sink)?;
    sink.put(end)
}

/// Puts a line of unit propagation.
fn write_u<S: Sink>(
    front: &[u8],
    name: Name,
    lits: &[Literal],
    middle: &[u8],
    refs: &[Ref],
    end: &[u8],
    sink: &mut S,
) -> Result<(), Failed>
    ensures text { Wrote (S.spot sink.old).steady (S.contents sink.old) (S.contents sink.new) result
        ((((front.now ++ name_text name) ++ flat_map spaced_literal lits.now) ++ middle.now)
        ++ (flat_map spaced_ref refs.now ++ end.now)) }
    ensures cause { HasBlame S.spot S.rest S.faults S.blamed sink.old sink.new result }
{
    write_clause(front, name, lits, middle, sink)?;
    write_hints(refs, end, sink)
}

/// Puts a line that shares a constraint.
fn write_n<S: Sink>(row: u32, name: Name, sink: &mut S) -> Result<(), Failed>
    ensures text { Wrote (S.spot sink.old).steady (S.contents sink.old) (S.contents sink.new) result
        (line_text (step_words (N row name))) }
    ensures cause { HasBlame S.spot S.rest S.faults S.blamed sink.old sink.new result }
{
    let mut digits = Buffer::new();
    let mut owner = Buffer::new();
    let mut number = Buffer::new();
    put_gathered(
        &[
            b"n ",
            digits.format(row).as_bytes(),
            b" ",
            owner.format(name.owner).as_bytes(),
            b".",
            number.format(name.number).as_bytes(),
            b"\n",
        ],
        sink,
    )
}

/// Puts a line of one reference between its two ends.
fn write_at<S: Sink>(front: &[u8], at: Ref, end: &[u8], sink: &mut S) -> Result<(), Failed>
    ensures text { Wrote (S.spot sink.old).steady (S.contents sink.old) (S.contents sink.new) result
        ((front.now ++ ref_text at) ++ end.now) }
    ensures cause { HasBlame S.spot S.rest S.faults S.blamed sink.old sink.new result }
{
    write_ref(front, at, sink)?;
    sink.put(end)
}

/// Puts a text and variables.
fn write_ones_of<S: Sink>(front: &[u8], ones: &[u32], sink: &mut S) -> Result<(), Failed>
    ensures text { Wrote (S.spot sink.old).steady (S.contents sink.old) (S.contents sink.new) result
        (front.now ++ flat_map spaced_one ones.now) }
    ensures cause { HasBlame S.spot S.rest S.faults S.blamed sink.old sink.new result }
{
    sink.put(front)?;
    write_ones(ones, sink)
}

/// Puts a last line, satisfiable, between its two ends.
fn write_y<S: Sink>(front: &[u8], ones: &[u32], end: &[u8], sink: &mut S) -> Result<(), Failed>
    ensures text { Wrote (S.spot sink.old).steady (S.contents sink.old) (S.contents sink.new) result
        ((front.now ++ flat_map spaced_one ones.now) ++ end.now) }
    ensures cause { HasBlame S.spot S.rest S.faults S.blamed sink.old sink.new result }
{
    write_ones_of(front, ones, sink)?;
    sink.put(end)
}

/// Puts the second line: how many constraints the model has.
fn write_model<S: Sink>(constraints: u64, sink: &mut S) -> Result<(), Failed>
    ensures text { Wrote (S.spot sink.old).steady (S.contents sink.old) (S.contents sink.new) result
        (line_text (step_words (TheModel constraints))) }
    ensures cause { HasBlame S.spot S.rest S.faults S.blamed sink.old sink.new result }
{
    let mut digits = Buffer::new();
    put_gathered(&[b"m ", digits.format(constraints).as_bytes(), b"\n"], sink)
}

/// Puts the line of a step in a log with hints.
fn write_hinted<S: Sink>(step: &Step, sink: &mut S) -> Result<(), Failed>
    ensures text { Wrote (S.spot sink.old).steady (S.contents sink.old) (S.contents sink.new) result
        (line_text (step_words step.now)) }
    ensures cause { HasBlame S.spot S.rest S.faults S.blamed sink.old sink.new result }
{
    match step {
        Step::Head => sink.put(b"embedding proof 1\n"),
        Step::Model(constraints) => write_model(*constraints, sink),
        Step::P { name, ops } => write_p(b"p ", *name, ops.as_slice(), b" ;\n", sink),
        Step::U { name, lits, refs } => write_u(
            b"u ",
            *name,
            lits.as_slice(),
            b" ;",
            refs.as_slice(),
            b" ;\n",
            sink,
        ),
        Step::N { row, name } => write_n(*row, *name, sink),
        Step::D { at } => write_at(b"d ", *at, b"\n", sink),
        Step::E { at } => write_at(b"e ", *at, b"\n", sink),
        Step::Y { ones } => write_y(b"y", ones.as_slice(), b"\n", sink),
        Step::Q => sink.put(b"q\n"),
    }
}

/// Puts the line of a step in a log without hints.
fn write_plain<S: Sink>(step: &Step, sink: &mut S) -> Result<(), Failed>
    ensures text { Wrote (S.spot sink.old).steady (S.contents sink.old) (S.contents sink.new) result
        (line_text (words_in Plain step.now)) }
    ensures cause { HasBlame S.spot S.rest S.faults S.blamed sink.old sink.new result }
{
    match step {
        Step::Head => sink.put(b"embedding proof 2\n"),
        Step::U { name, lits, .. } => { write_clause(b"u ", *name, lits.as_slice(), b" ;\n", sink) }
        Step::Model(_) => write_hinted(step, sink),
        Step::P { .. } => write_hinted(step, sink),
        Step::N { .. } => write_hinted(step, sink),
        Step::D { .. } => write_hinted(step, sink),
        Step::E { .. } => write_hinted(step, sink),
        Step::Y { .. } => write_hinted(step, sink),
        Step::Q => write_hinted(step, sink),
    }
}

/// Puts the line of a step in a log of a profile, with its line feed; what was put is read as that step, without hints where the profile
/// has none.
///
/// A word is put with the blank before it by one call of the sink, an operand and its sign too, and a line's first two words by two calls.
/// It takes no memory. The condition is that of `read_step`'s answers: numbers in the ranges that a line may write.
pub fn write_step<S: Sink>(profile: Profile, step: &Step, sink: &mut S) -> Result<(), Failed>
    requires { IsStep step.now }
    ensures text { Wrote (S.spot sink.old).steady (S.contents sink.old) (S.contents sink.new) result
        (line_text (words_in profile step.now)) }
    ensures read { read_in profile (joined (words_in profile step.now))
        ≡ Some (told_in profile step.now) }
    ensures cause { HasBlame S.spot S.rest S.faults S.blamed sink.old sink.new result }
{
    profile_laws();
    match profile {
        Profile::Hinted => write_hinted(step, sink),
        Profile::Plain => write_plain(step, sink),
    }
}
