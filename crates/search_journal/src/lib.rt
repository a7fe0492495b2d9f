//! The lines of a worker, kept as it searches.
//!
//! A search tells each dead path with what was told of its domains. This layer has the line of the path given to a journal, and keeps for each
//! refuted value of the position the number of its line: a path whose last vertex is exhausted rests on these. When a refuted value
//! becomes a row of a shared book, or one of the owner's behind it, the journal notes the number; from then on the owner's lines name the row by its line, and the rows
//! of others by the names under which they are shared. Once the empty path is dead the last line is false. Whatever a run leads to, the
//! lines and notes are a journal beside the rows, so that the journals of all workers can be merged into one log. (Nogoods from restarts:
//! C. Lecoutre, L. Sais, S. Tabary, V. Vidal 2007; proof logs of subgraph solvers: S. Gocht, C. McCreesh, J. Nordström 2020.)
#![tactic(auto)]

mod entries;
mod keeping;
mod refuted;
mod row_numbers;

pub use keeping::SearchJournal;
pub use refuted::Refuted;
