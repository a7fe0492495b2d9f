//! The log of a refutation, written to memory and checked.

ghost use Rattle.std.specs.Prelude.{◌≡◌, IfOk, IfErr, OnOk};
ghost use Rattle.encoding_theory.specs.Variables.{variables};
ghost use Rattle.encoding_theory.specs.Encoding.{encoding as encoding_of};
ghost use Rattle.log_theory.specs.declared.step.Verdict.TheVariants.{Unsatisfiable};
ghost use Rattle.log_theory.specs.Acceptance.{Accepts};
ghost use Rattle.log_theory.specs.Verdicts.{verdict_of};
ghost use Rattle.pb_encoding.specs.Model.{model_of};
ghost use Rattle.proof_collection.specs.Proofs.{IsProof};
ghost use Rattle.subgraph_cli.specs.Demonstrating.{IsRefutedBy, TellsRefuted, refuted_log};

use crate::stop::Stop;
use graph_rows::problem::Problem;
use log_theory::{Profile, Verdict, answer_laws};
use opb_text::Model;
use outer_io::TextBuffer;
use outer_io::fault::Failed;
use pb_encoding::Encoding;
use pb_encoding::model::encodings_are_models;
use pb_terms::Constraint;
use proof_checker::check;
use proof_collection::Logged;
use proof_files::write_refuted;
use std::alloc::{AllocError, Global};

/// The constraints of an encoding, in order.
fn constraints_of(alloc: Global, encoding: &Encoding) -> Result<Vec<Constraint>, AllocError>
    ensures { IfOk result (λ made. made.items ≡ encoding_of encoding.now) }
{
    let mut constraints = Vec::new(alloc);
    for i in 0..encoding.len() {
        let constraint = encoding.constraint(alloc, i + 1)?;
        constraints.push(constraint)?;
    }
    Ok(constraints)
}

/// The encoding as a model, for a checker that knows nothing of graphs.
fn model(alloc: Global, q: &Problem, encoding: &Encoding) -> Result<Model, AllocError>
    requires { encoding.now ≡ q.now }
    ensures { IfOk result (λ made. made ≡ model_of q.now) }
{
    encodings_are_models();
    let _pattern = q.pattern();
    let _target = q.target();
    let _less = q.less();
    let constraints = constraints_of(alloc, encoding)?;
    Ok(Model::new(encoding.variables(), constraints))
}

/// The log of a refutation, in memory.
fn log_of(
    alloc: Global,
    q: &Problem,
    encoding: &Encoding,
    parts: &Logged,
) -> Result<TextBuffer, Failed>
    requires same { encoding.now ≡ q.now }
    requires proof { IsProof q.now parts.now }
    ensures text { IfOk result (λ log. log.bytes ≡ refuted_log q.now parts.now) }
    ensures accepted { Accepts (variables q.now) (encoding_of q.now)
        (refuted_log q.now parts.now) Unsatisfiable }
{
    let mut log = TextBuffer::new(alloc);
    write_refuted(Profile::Hinted, q, encoding, parts, &mut log)?;
    Ok(log)
}

/// Whether a log refutes its model, as the checker finds. Nothing is known of the log before.
fn is_refuted(alloc: Global, model: &Model, log: &[u8]) -> Result<bool, Stop>
    ensures told { IfOk result (λ refuted. TellsRefuted refuted
        (verdict_of model.now.variables model.now.constraints log.now)) }
    ensures memory { IfErr result (λ stop. stop ≡ Stop.NoMemory) }
{
    match check(alloc, model, log) {
        Verdict::Unsatisfiable => Ok(true),
        Verdict::NoMemory => Err(Stop::NoMemory),
        Verdict::Satisfiable | Verdict::Undecided | Verdict::Refused { .. } => Ok(false),
    }
}

/// Writes the log of a refutation to memory, and checks it over the encoding of the problem, as anyone could: no answer but
/// that it refutes can come. The memory taken is that of the log, of the encoding and of what the log makes.
pub(crate) fn accept(alloc: Global, q: &Problem, parts: &Logged) -> Result<(), Stop>
    requires { IsProof q.now parts.now }
    ensures accepted { OnOk result (IsRefutedBy q.now (refuted_log q.now parts.now)) }
    ensures memory { IfErr result (λ stop. stop ≡ Stop.NoMemory) }
{
    answer_laws();
    let Ok(encoding) = Encoding::new(alloc, q) else {
        return Err(Stop::NoMemory);
    };
    let Ok(model) = model(alloc, q, &encoding) else {
        return Err(Stop::NoMemory);
    };
    let Ok(log) = log_of(alloc, q, &encoding, parts) else {
        return Err(Stop::NoMemory);
    };
    match is_refuted(alloc, &model, log.as_slice()) {
        Ok(true) => Ok(()),
        Ok(false) => unreachable!(),
        Err(_) => Err(Stop::NoMemory),
    }
}
