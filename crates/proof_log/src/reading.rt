//! A line read in one pass over its words.
ghost use Rattle.std.specs.Prelude.{◌≡◌, ◌≢◌, ℕ, List, [], ◌∷◌, codes, Some, None, IfOk, IfErr, MatchOption};
ghost use Rattle.log_theory.specs.Words.{same_word};
ghost use Rattle.log_theory.specs.LogText.{ref_of, u_from, step_behind};
ghost use Rattle.log_theory.specs.Profiles.{plain_step, read_in, IsStepIn};
ghost use Rattle.log_theory.specs.declared.profile.Profile.TheVariants.{Hinted, Plain};
ghost use Rattle.proof_log.specs.Reading.{items_told, closed_items, IsTold};

use crate::fault::StepFault;
use crate::items::{name_in, numeral_in, ref_in, row_in};
use crate::lists::{read_literals, read_ones, read_ops, read_refs};
use crate::pieces::{Pieces, is_byte, is_word};
use log_theory::{Clause, Name, Profile, Ref, Refs, Step};
use std::alloc::Global;

/// The only word that is left.
fn last_word<'a>(words: &mut Pieces<'a>) -> Option<&'a [u8]>
    ensures { MatchOption result ((w : List ℕ) → words.old ≢ w ∷ []) (λ w. words.old ≡ w.now ∷ []) }
{
    let Some(word) = words.next() else {
        return None;
    };
    if words.is_done() { Some(word) } else { None }
}

/// The only two words that are left.
fn last_two<'a>(words: &mut Pieces<'a>) -> Option<(&'a [u8], &'a [u8])>
    ensures { MatchOption result ((v w : List ℕ) → words.old ≢ v ∷ w ∷ [])
        (λ two. words.old ≡ two.0.now ∷ two.1.now ∷ []) }
{
    let Some(first) = words.next() else {
        return None;
    };
    match last_word(words) {
        Some(second) => Some((first, second)),
        None => None,
    }
}

/// The words behind `embedding`: those of a log's first line.
fn read_head(words: &mut Pieces) -> Result<Step, StepFault>
    ensures { IsTold result (step_behind (codes "embedding") words.old) }
{
    let Some((first, second)) = last_two(words) else {
        return Err(StepFault::Form);
    };
    if !is_word(first, b"proof") {
        return Err(StepFault::Form);
    }
    if !is_byte(second, b'1') {
        return Err(StepFault::Form);
    }
    Ok(Step::Head)
}

/// The words behind `m`.
fn read_model(words: &mut Pieces) -> Result<Step, StepFault>
    ensures { IsTold result (step_behind (codes "m") words.old) }
{
    let Some(word) = last_word(words) else {
        return Err(StepFault::Form);
    };
    match numeral_in(word) {
        Some(m) => Ok(Step::Model(m)),
        None => Err(StepFault::Form),
    }
}

/// The words behind `p`.
fn read_p(alloc: Global, words: &mut Pieces) -> Result<Step, StepFault>
    ensures { IsTold result (step_behind (codes "p") words.old) }
{
    let Some(word) = words.next() else {
        return Err(StepFault::Form);
    };
    let Some(name) = name_in(word) else {
        return Err(StepFault::Form);
    };
    match read_ops(alloc, words) {
        Ok(ops) if words.is_done() => Ok(Step::P { name, ops }),
        Ok(_) => Err(StepFault::Form),
        Err(fault) => Err(fault),
    }
}

/// The references of a line of unit propagation, whose name and literals are read, and its end.
fn read_hints(
    alloc: Global,
    name: Name,
    lits: Clause,
    words: &mut Pieces,
) -> Result<Step, StepFault>
    ensures { IsTold result
        (u_from (Some name) (Some lits) (closed_items (items_told ref_of words.old))) }
{
    match read_refs(alloc, words) {
        Ok(refs) if words.is_done() => Ok(Step::U { name, lits, refs }),
        Ok(_) => Err(StepFault::Form),
        Err(fault) => Err(fault),
    }
}

/// The words behind `u`.
fn read_u(alloc: Global, words: &mut Pieces) -> Result<Step, StepFault>
    ensures { IsTold result (step_behind (codes "u") words.old) }
{
    let Some(word) = words.next() else {
        return Err(StepFault::Form);
    };
    let Some(name) = name_in(word) else {
        return Err(StepFault::Form);
    };
    match read_literals(alloc, words) {
        Ok(lits) => read_hints(alloc, name, lits, words),
        Err(fault) => Err(fault),
    }
}

/// The words behind `n`.
fn read_n(words: &mut Pieces) -> Result<Step, StepFault>
    ensures { IsTold result (step_behind (codes "n") words.old) }
{
    let Some((first, second)) = last_two(words) else {
        return Err(StepFault::Form);
    };
    match (row_in(first), name_in(second)) {
        (Some(row), Some(name)) => Ok(Step::N { row, name }),
        _ => Err(StepFault::Form),
    }
}

/// The words behind `d`: a name or a row, since no line deletes a constraint of the model.
fn read_d(words: &mut Pieces) -> Result<Step, StepFault>
    ensures { IsTold result (step_behind (codes "d") words.old) }
{
    let Some(word) = last_word(words) else {
        return Err(StepFault::Form);
    };
    match ref_in(word) {
        Some(Ref::Made(name)) => Ok(Step::D {
            at: Ref::Made(name),
        }),
        Some(Ref::Shared(row)) => Ok(Step::D {
            at: Ref::Shared(row),
        }),
        Some(Ref::Line(_)) => Err(StepFault::Form),
        None => Err(StepFault::Form),
    }
}

/// The words behind `e`.
fn read_e(words: &mut Pieces) -> Result<Step, StepFault>
    ensures { IsTold result (step_behind (codes "e") words.old) }
{
    let Some(word) = last_word(words) else {
        return Err(StepFault::Form);
    };
    match ref_in(word) {
        Some(at) => Ok(Step::E { at }),
        None => Err(StepFault::Form),
    }
}

/// The words behind `y`.
fn read_y(alloc: Global, words: &mut Pieces) -> Result<Step, StepFault>
    ensures { IsTold result (step_behind (codes "y") words.old) }
{
    let ones = read_ones(alloc, words)?;
    Ok(Step::Y { ones })
}

/// The words behind `q`: none.
fn read_q(words: &Pieces) -> Result<Step, StepFault>
    ensures { IsTold result (step_behind (codes "q") words.now) }
{
    if words.is_done() {
        Ok(Step::Q)
    } else {
        Err(StepFault::Form)
    }
}

/// The words behind the first one.
fn read_behind(alloc: Global, kind: &[u8], words: &mut Pieces) -> Result<Step, StepFault>
    ensures { IsTold result (step_behind kind.now words.old) }
{
    if is_byte(kind, b'u') {
        read_u(alloc, words)
    } else if is_byte(kind, b'p') {
        read_p(alloc, words)
    } else if is_byte(kind, b'n') {
        read_n(words)
    } else if is_byte(kind, b'd') {
        read_d(words)
    } else if is_byte(kind, b'm') {
        read_model(words)
    } else if is_byte(kind, b'e') {
        read_e(words)
    } else if is_byte(kind, b'y') {
        read_y(alloc, words)
    } else if is_byte(kind, b'q') {
        read_q(words)
    } else if is_word(kind, b"embedding") {
        read_head(words)
    } else {
        Err(StepFault::Form)
    }
}

/// No references.
fn no_refs(alloc: Global) -> Refs
    ensures { result ≡ [] }
{
    Refs::new(Vec::new(alloc))
}

/// The words behind `u` in a log without hints: a name, literals and the end.
fn read_plain_u(alloc: Global, words: &mut Pieces) -> Result<Step, StepFault>
    ensures { IsTold result (plain_step (codes "u" ∷ words.old)) }
{
    let Some(word) = words.next() else {
        return Err(StepFault::Form);
    };
    let Some(name) = name_in(word) else {
        return Err(StepFault::Form);
    };
    match read_literals(alloc, words) {
        Ok(lits) if words.is_done() => {
            let refs = no_refs(alloc);
            Ok(Step::U { name, lits, refs })
        }
        Ok(_) => Err(StepFault::Form),
        Err(fault) => Err(fault),
    }
}

/// The words behind `embedding` in a log without hints.
fn read_plain_head(words: &mut Pieces) -> Result<Step, StepFault>
    ensures { IsTold result (plain_step (codes "embedding" ∷ words.old)) }
{
    let Some((first, second)) = last_two(words) else {
        return Err(StepFault::Form);
    };
    if !is_word(first, b"proof") {
        return Err(StepFault::Form);
    }
    if !is_byte(second, b'2') {
        return Err(StepFault::Form);
    }
    Ok(Step::Head)
}

/// The words behind the first one in a log without hints.
fn read_plain_behind(alloc: Global, kind: &[u8], words: &mut Pieces) -> Result<Step, StepFault>
    ensures { IsTold result (plain_step (kind.now ∷ words.old)) }
{
    if is_byte(kind, b'u') {
        read_plain_u(alloc, words)
    } else if is_word(kind, b"embedding") {
        read_plain_head(words)
    } else {
        read_behind(alloc, kind, words)
    }
}

/// The step that a line of a log with hints tells.
fn read_hinted(alloc: Global, bytes: &[u8]) -> Result<Step, StepFault>
    ensures found { IfOk result (λ s. read_in Hinted bytes.now ≡ Some s) }
    ensures ranges { IfOk result (λ s. IsStepIn Hinted s) }
    ensures fault { IfErr result (λ e. e ≡ StepFault.Form → read_in Hinted bytes.now ≡ None) }
{
    let mut words = Pieces::new(bytes, b' ');
    match words.next() {
        Some(kind) => read_behind(alloc, kind, &mut words),
        None => Err(StepFault::Form),
    }
}

/// The step that a line of a log without hints tells.
fn read_plain(alloc: Global, bytes: &[u8]) -> Result<Step, StepFault>
    ensures found { IfOk result (λ s. read_in Plain bytes.now ≡ Some s) }
    ensures ranges { IfOk result (λ s. IsStepIn Plain s) }
    ensures fault { IfErr result (λ e. e ≡ StepFault.Form → read_in Plain bytes.now ≡ None) }
{
    let mut words = Pieces::new(bytes, b' ');
    match words.next() {
        Some(kind) => read_plain_behind(alloc, kind, &mut words),
        None => Err(StepFault::Form),
    }
}

/// The step that a line of a log of a profile tells, without the line feed that ends it, or that it tells none.
///
/// It takes the words from the left, none twice, in time linear in the bytes, whatever they are. Only the lists of the step
/// take memory.
pub fn read_step(alloc: Global, profile: Profile, bytes: &[u8]) -> Result<Step, StepFault>
    ensures found { IfOk result (λ s. read_in profile bytes.now ≡ Some s) }
    ensures ranges { IfOk result (λ s. IsStepIn profile s) }
    ensures fault { IfErr result (λ e. e ≡ StepFault.Form → read_in profile bytes.now ≡ None) }
{
    match profile {
        Profile::Hinted => read_hinted(alloc, bytes),
        Profile::Plain => read_plain(alloc, bytes),
    }
}
