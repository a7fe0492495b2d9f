//! What a run is asked to do.

ghost use Rattle.std.specs.Prelude.{◌≡◌, ℕ, ◌+◌, ◌*◌, ◌/◌, ◌<◌, ◌≤◌};
ghost use Rattle.bit_rows.specs.BitRows.{words_for};

use bit_rows::words_for;

/// How many vertices and values the domains have.
#[derive(Clone, Copy)]
pub struct Shape {
    pub vertices: u16,
    pub values: u16,
    ghost some: { 0 < vertices },
}

impl Shape {
    /// How many words a row has.
    pub fn row_words(self) -> usize
        ensures { result ≡ words_for self.values }
    {
        words_for(usize::from(self.values))
    }
}

/// Which trail the domains have.
#[derive(Clone, Copy)]
pub enum TrailKind {
    Pairs,
    Words,
}

/// An operation on whole rows, or none, which tells what the rounds cost by themselves.
#[derive(Clone, Copy)]
pub enum Kernel {
    Nothing,
    And,
    AndNot,
    Or,
    Ones,
}

/// What a round does.
#[derive(Clone, Copy)]
pub enum Work {
    /// Intersects a domain with a row that has 31 of 32 values; each 64th round gives everything back.
    Domains,
    /// Looks at the domains all together, each of which has half of about as many values as there are vertices.
    Prune,
    /// Puts a row through an operation.
    Kernel(Kernel),
}

/// What is asked.
#[derive(Clone, Copy)]
pub struct Asked {
    pub shape: Shape,
    pub trail: TrailKind,
    pub work: Work,
    pub rounds: u32,
}

impl Asked {
    /// How many words of rows the rounds go through: pruning looks at a row for each vertex, all else at one.
    pub fn words(self) -> u64 {
        let one = self.shape.row_words() as u64;
        let round = match self.work {
            Work::Prune => one.saturating_mul(u64::from(self.shape.vertices)),
            _ => one,
        };
        round.saturating_mul(u64::from(self.rounds))
    }
}

/// So many vertices and values, if there is a vertex.
fn some_shape(vertices: u16, values: u16) -> Option<Shape> {
    if vertices == 0 {
        return None;
    }
    Some(Shape { vertices, values })
}

fn shape_of(word: &str) -> Option<Shape> {
    match word {
        "10x64" => some_shape(10, 64),
        "10x128" => some_shape(10, 128),
        "10x192" => some_shape(10, 192),
        "10x256" => some_shape(10, 256),
        "100x1000" => some_shape(100, 1000),
        "500x8192" => some_shape(500, 8192),
        _ => None,
    }
}

fn trail_of(word: &str) -> Option<TrailKind> {
    match word {
        "pairs" => Some(TrailKind::Pairs),
        "words" => Some(TrailKind::Words),
        _ => None,
    }
}

fn work_of(word: &str) -> Option<Work> {
    match word {
        "domains" => Some(Work::Domains),
        "prune" => Some(Work::Prune),
        "nothing" => Some(Work::Kernel(Kernel::Nothing)),
        "and" => Some(Work::Kernel(Kernel::And)),
        "and_not" => Some(Work::Kernel(Kernel::AndNot)),
        "or" => Some(Work::Kernel(Kernel::Or)),
        "ones" => Some(Work::Kernel(Kernel::Ones)),
        _ => None,
    }
}

/// What the program's words ask, its name first among them.
pub fn asked_by(words: &[String]) -> Option<Asked> {
    if words.len() != 5 {
        return None;
    }
    let shape = shape_of(words[1].as_str())?;
    let trail = trail_of(words[2].as_str())?;
    let work = work_of(words[3].as_str())?;
    let Ok(rounds) = words[4].as_str().parse::<u32>() else {
        return None;
    };
    Some(Asked {
        shape,
        trail,
        work,
        rounds,
    })
}
