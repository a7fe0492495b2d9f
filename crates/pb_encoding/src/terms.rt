//! The terms of a line, and the constraint that they make.

ghost use Rattle.std.specs.Prelude.{◌≡◌, ◌<◌, ◌≤◌, ◌+◌, ◌*◌, ◌^◌, ◌++◌, ◌∷◌, [], ℕ, ℤ, true, false, length, map, pos, negsuc, unsigned_abs, IfOk, OnOk};
ghost use Rattle.graph_theory.specs.Graph.{size};
ghost use Rattle.bit_rows.specs.BitRows.{has, word_values, words_for};
ghost use Rattle.proof_theory.specs.Forms.{form_of, size as size_of_terms};
ghost use Rattle.encoding_theory.specs.Variables.{variable as variable_of, when};
ghost use Rattle.encoding_theory.specs.Pairs.{is_compatible as is_compatible_pair};
ghost use Rattle.encoding_theory.specs.Encoding.{every, terms_where, pair_form};
ghost use Rattle.graph_theory.specs.Blocks.{in_block};
ghost use Rattle.pb_encoding.specs.Lines.{form_on, IsCentreIn, LineIsIn, is_beyond as is_beyond_place};

use crate::line::Line;
use crate::pair_tests::is_compatible;
use crate::right_row::{asks_labels, fill_right};
use bit_rows::{next_member, words_for};
use graph_rows::Problem;
use graph_rows::near::is_near;
use pb_terms::{Constraint, PbFault};
use std::alloc::{AllocError, Global};

/// A variable and its coefficient.
type Term = (u32, i128);

/// Room for the terms of a line and for a row of target vertices, which the next line uses again. What stands in it is of no meaning.
#[derive(Drop)]
pub(crate) struct Room {
    terms: Vec<Term>,
    row: Vec<u64>,
}

impl Room {
    /// Nothing yet. It takes no memory.
    pub(crate) fn new(alloc: Global) -> Room {
        Room {
            terms: Vec::new(alloc),
            row: Vec::new(alloc),
        }
    }
}

/// The variable of `p` and `t`.
fn variable(q: &Problem, p: u16, t: u16) -> u32
    requires p_in { p < size q.now.pattern }
    requires t_in { t < size q.now.target }
    ensures variable { result ≡ variable_of q.now p t }
    ensures few { result ≤ 2 ^ 23 }
{
    let _pattern = q.pattern();
    u32::from(p) * u32::from(q.target().size()) + u32::from(t) + 1
}

/// Puts the term at the end where the test is passed.
fn push_where(out: &mut Vec<Term>, passes: bool, term: Term) -> Result<(), AllocError>
    ensures { OnOk result (out.new.items ≡ out.old.items ++ when passes (term ∷ [])) }
{
    if passes {
        out.push(term)?;
    }
    Ok(())
}

/// Empties a list of terms, with room for so many.
fn begin_terms(out: &mut Vec<Term>, count: usize) -> Result<(), AllocError>
    ensures { OnOk result (out.new.items ≡ []) }
{
    out.clear();
    out.reserve(count)
}

/// All variables of a pattern vertex, with this coefficient.
fn vertex_terms(
    out: &mut Vec<Term>,
    q: &Problem,
    p: u16,
    coefficient: i128,
) -> Result<(), AllocError>
    requires p_in { p < size q.now.pattern }
    requires coefficient { unsigned_abs coefficient ≤ 1 }
    ensures few { OnOk result (size_of_terms out.new.items ≤ 2 ^ 14) }
    ensures terms { OnOk result
        (out.new.items
        ≡ terms_where coefficient every (variable_of q.now p) (size q.now.target)) }
{
    begin_terms(out, usize::from(q.target().size()))?;
    for t in 0..q.target().size() {
        out.push((variable(q, p, t), coefficient))?;
    }
    Ok(())
}

/// Whether `p` is in the block of all vertices, or in that of this centre.
fn is_member(q: &Problem, block: Option<u16>, p: u16) -> bool
    requires centre { IsCentreIn q.now block }
    requires p_in { p < size q.now.pattern }
    ensures { result ≡ in_block q.now block p }
{
    match block {
        None => true,
        Some(centre) => is_near(q.pattern(), centre, p),
    }
}

/// The variables of a block's vertices at a target vertex, with coefficient -1.
fn block_terms(
    out: &mut Vec<Term>,
    q: &Problem,
    block: Option<u16>,
    t: u16,
) -> Result<(), AllocError>
    requires t_in { t < size q.now.target }
    requires centre { IsCentreIn q.now block }
    ensures few { OnOk result (size_of_terms out.new.items ≤ 2 ^ 14) }
    ensures terms { OnOk result
        (out.new.items
        ≡ terms_where (negsuc 0) (in_block q.now block) (λ p. variable_of q.now p t)
        (size q.now.pattern)) }
{
    begin_terms(out, usize::from(q.pattern().size()))?;
    for p in 0..q.pattern().size() {
        let inside = is_member(q, block, p);
        push_where(out, inside, (variable(q, p, t), -1))?;
    }
    Ok(())
}

/// Whether `u` is past `t`, or below it.
fn is_beyond(above: bool, t: u16, u: u16) -> bool
    ensures { result ≡ is_beyond_place above t u }
{
    if above { t < u } else { u < t }
}

/// The terms by which `r` goes past `t`, or below it, where `p` goes there.
fn order_terms(
    out: &mut Vec<Term>,
    q: &Problem,
    p: u16,
    r: u16,
    t: u16,
    above: bool,
) -> Result<(), AllocError>
    requires p_in { p < size q.now.pattern }
    requires r_in { r < size q.now.pattern }
    requires t_in { t < size q.now.target }
    ensures few { OnOk result (size_of_terms out.new.items ≤ 2 ^ 14) }
    ensures terms { OnOk result
        (out.new.items ≡ (variable_of q.now p t, negsuc 0)
        ∷ terms_where (pos 1) (is_beyond_place above t) (variable_of q.now r)
        (size q.now.target)) }
{
    begin_terms(out, usize::from(q.target().size()) + 1)?;
    out.push((variable(q, p, t), -1))?;
    for u in 0..q.target().size() {
        let passes = is_beyond(above, t, u);
        push_where(out, passes, (variable(q, r, u), 1))?;
    }
    Ok(())
}

/// The variables of `r` at the members of one word of a row, where `first` is that at place 0. Cost: one step for each member.
fn push_word(out: &mut Vec<Term>, first: u32, place: usize, word: u64) -> Result<(), AllocError>
    requires few { first ≤ 2 ^ 23 }
    requires short { place < 1024 }
    ensures { OnOk result
        (out.new.items ≡ out.old.items ++ map (λ u. (first + u, pos 1)) (word_values place word)) }
{
    let start = first + 64 * place as u32;
    let mut rest = word;
    while rest != 0 {
        let bit = rest.trailing_zeros();
        out.push((start + bit, 1))?;
        rest ^= 1 << bit;
    }
    Ok(())
}

/// The variables of `r` at the members of a row. Cost: one step for each word and for each member.
fn push_members(out: &mut Vec<Term>, q: &Problem, r: u16, row: &[u64]) -> Result<(), AllocError>
    requires r_in { r < size q.now.pattern }
    requires some { 0 < size q.now.target }
    requires long { length row.now ≡ words_for (size q.now.target) }
    requires within { (u : ℕ) → has row.now u ≡ true → u < size q.now.target }
    ensures { OnOk result
        (out.new.items ≡ out.old.items
        ++ terms_where (pos 1) (has row.now) (variable_of q.now r) (size q.now.target)) }
{
    let _target = q.target();
    let first = variable(q, r, 0);
    for place in 0..row.len() {
        push_word(out, first, place, row[place])?;
    }
    Ok(())
}

/// The variables of `r` at the places that are right where `p` goes to `t`, where each of these is a member of the row. Cost: one test for
/// each member, and one step for each word.
fn push_tested(
    out: &mut Vec<Term>,
    q: &Problem,
    p: u16,
    r: u16,
    t: u16,
    near: &[u64],
) -> Result<(), AllocError>
    requires p_in { p < size q.now.pattern }
    requires r_in { r < size q.now.pattern }
    requires t_in { t < size q.now.target }
    requires targets { size q.now.target ≤ 8192 }
    requires long { length near.now ≡ words_for (size q.now.target) }
    requires within { (u : ℕ) → has near.now u ≡ true → u < size q.now.target }
    requires all { (u : ℕ) → u < size q.now.target → has near.now u ≡ false
        → is_compatible_pair q.now p t r u ≡ false }
    ensures { OnOk result
        (out.new.items ≡ out.old.items
        ++ terms_where (pos 1) (is_compatible_pair q.now p t r) (variable_of q.now r)
        (size q.now.target)) }
{
    let mut u = next_member(near, 0);
    while u < 64 * near.len() {
        let passes = is_compatible(q, p, t, r, u as u16);
        push_where(out, passes, (variable(q, r, u as u16), 1))?;
        u = next_member(near, u + 1);
    }
    Ok(())
}

/// The variables of `r` at the places that are right where `p` goes to `t`, by a row of these. Cost: a few steps for each word of the row, and
/// one for each place that is right; where a graph keeps labels of edges and one joins the two, one test for each place to which edges lead
/// as they have to.
fn push_compatible(
    out: &mut Vec<Term>,
    row: &mut Vec<u64>,
    q: &Problem,
    p: u16,
    r: u16,
    t: u16,
) -> Result<(), AllocError>
    requires p_in { p < size q.now.pattern }
    requires r_in { r < size q.now.pattern }
    requires t_in { t < size q.now.target }
    ensures { OnOk result
        (out.new.items ≡ out.old.items
        ++ terms_where (pos 1) (is_compatible_pair q.now p t r) (variable_of q.now r)
        (size q.now.target)) }
{
    row.resize(words_for(usize::from(q.target().size())), 0)?;
    let row = row.as_mut_slice();
    fill_right(q, p, t, r, row);
    if asks_labels(q, p, r) {
        push_tested(out, q, p, r, t, row)?;
    } else {
        push_members(out, q, r, row)?;
    }
    Ok(())
}

/// The terms of `p` and `r` where `p` goes to `t`, by rising variable.
fn pair_terms(room: &mut Room, q: &Problem, p: u16, r: u16, t: u16) -> Result<(), AllocError>
    requires p_in { p < size q.now.pattern }
    requires r_in { r < size q.now.pattern }
    requires t_in { t < size q.now.target }
    requires targets { size q.now.target ≤ 8192 }
    ensures few { OnOk result (size_of_terms room.new.terms.items ≤ 2 ^ 14) }
    ensures form { OnOk result
        (form_of room.new.terms.items (pos 0) ≡ pair_form q.now p r t) }
{
    let own = (variable(q, p, t), -1);
    let is_first = p < r;
    begin_terms(&mut room.terms, usize::from(q.target().size()) + 1)?;
    push_where(&mut room.terms, is_first, own)?;
    push_compatible(&mut room.terms, &mut room.row, q, p, r, t)?;
    push_where(&mut room.terms, !is_first, own)?;
    Ok(())
}

/// The constraint of few terms.
fn made(alloc: Global, terms: &[Term], bound: i128) -> Result<Constraint, AllocError>
    requires few { size_of_terms terms.now ≤ 2 ^ 14 }
    requires bound { unsigned_abs bound ≤ 1 }
    ensures { IfOk result (λ c. c ≡ form_of terms.now bound) }
{
    match Constraint::new(alloc, terms, bound) {
        Ok(constraint) => Ok(constraint),
        Err(PbFault::NoMemory) => Err(AllocError),
        Err(PbFault::Wide) => unreachable!(),
    }
}

/// All variables of a pattern vertex with this coefficient, which is the bound too: 1 where it goes somewhere, -1 where to one place at most.
fn vertex_constraint(
    alloc: Global,
    q: &Problem,
    p: u16,
    coefficient: i128,
    room: &mut Vec<Term>,
) -> Result<Constraint, AllocError>
    requires p_in { p < size q.now.pattern }
    requires coefficient { unsigned_abs coefficient ≤ 1 }
    ensures { IfOk result
        (λ c. c ≡ form_of (terms_where coefficient every (variable_of q.now p)
        (size q.now.target)) coefficient) }
{
    vertex_terms(room, q, p, coefficient)?;
    made(alloc, room, coefficient)
}

/// The constraint of a line. Cost: a few steps for each of its terms; that of a pair also as `push_compatible`. The room grows to four words
/// for each target vertex, and is not asked of again.
pub(crate) fn constraint_of(
    alloc: Global,
    q: &Problem,
    line: Line,
    room: &mut Room,
) -> Result<Constraint, AllocError>
    requires vertices { LineIsIn q.now line }
    requires targets { size q.now.target ≤ 8192 }
    ensures { IfOk result (λ c. c ≡ form_on q.now line) }
{
    match line {
        Line::AtLeast(p) => vertex_constraint(alloc, q, p, 1, &mut room.terms),
        Line::AtMost(p) => vertex_constraint(alloc, q, p, -1, &mut room.terms),
        Line::AtMostIn(block, t) => {
            block_terms(&mut room.terms, q, block, t)?;
            made(alloc, &room.terms, -1)
        }
        Line::Refused(p, t) => made(alloc, &[(variable(q, p, t), -1)], 0),
        Line::Pair(p, r, t) => {
            pair_terms(room, q, p, r, t)?;
            made(alloc, &room.terms, 0)
        }
        Line::LessFrom(a, b, t) => {
            order_terms(&mut room.terms, q, a, b, t, true)?;
            made(alloc, &room.terms, 0)
        }
        Line::LessTo(a, b, t) => {
            order_terms(&mut room.terms, q, b, a, t, false)?;
            made(alloc, &room.terms, 0)
        }
    }
}
