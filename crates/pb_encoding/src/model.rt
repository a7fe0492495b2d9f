//! That the encoding is a model of the format in which it is written.

ghost use Rattle.std.specs.Prelude.{◌≤◌, length};
ghost use Rattle.graph_theory.specs.Graph.{size};
ghost use Rattle.graph_theory.specs.Embedding.{Problem};
ghost use Rattle.log_theory.specs.OpbText.{IsOpbModel};
ghost use Rattle.pb_encoding.specs.Model.{model_of};

/// The encoding of a problem within the limits is within those of the format: its lines are sorted and narrow, and their
/// variables are among those counted. So its text, once written, is read back as it was.
pub fn encodings_are_models()
    ensures { (q : Problem) → size q.pattern ≤ 1024 → size q.target ≤ 8192 → length q.less ≤ 64
        → IsOpbModel (model_of q) }
{}
