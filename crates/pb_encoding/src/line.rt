//! Which form of the encoding stands on a line.

ghost use Rattle.std.specs.Prelude.{◌≡◌, ◌<◌, ◌≤◌, ◌+◌, ◌*◌, ◌⊎◌, true, length, slice_get, Some};
ghost use Rattle.graph_theory.specs.Graph.{size};
ghost use Rattle.encoding_theory.specs.Encoding.{encoding as encoding_of};
ghost use Rattle.graph_theory.specs.Embedding.{is_local};
ghost use Rattle.encoding_theory.specs.Places.{refused_start, edge_start, non_edge_start, less_start};
ghost use Rattle.pb_encoding.specs.Numbers.{AreNumbered, refused_numbers as refused_numbers_of, edge_numbers as edge_numbers_of, non_edge_numbers as non_edge_numbers_of, centres as centres_of, block_count};
ghost use Rattle.pb_encoding.specs.Lines.{form_on, LineIsIn};

use graph_rows::Problem;
use graph_theory::embedding::Maps;

/// A form of the encoding, by what it is of: a pattern vertex (at least one, at most one), a block, by its centre, and a target vertex, a
/// refused pair, a pair of pattern vertices and a place of the first, or a pair that is to be in order and a place of the first or of the
/// second.
#[derive(Clone, Copy)]
pub(crate) enum Line {
    AtLeast(u16),
    AtMost(u16),
    AtMostIn(Option<u16>, u16),
    Refused(u16, u16),
    Pair(u16, u16, u16),
    LessFrom(u16, u16, u16),
    LessTo(u16, u16, u16),
}

/// The form at a place among those of the pattern vertices.
fn vertex_line(q: &Problem, place: u64) -> Line
    requires few { size q.now.pattern ≤ 1024 }
    requires inside { place < 2 * size q.now.pattern }
    ensures form { slice_get (encoding_of q.now) place ≡ Some (form_on q.now result) }
    ensures vertices { LineIsIn q.now result }
{
    let p = (place / 2) as u16;
    if place % 2 == 0 {
        Line::AtLeast(p)
    } else {
        Line::AtMost(p)
    }
}

/// The form at a place among those of the blocks.
fn block_line(q: &Problem, centres: &[u32], place: u64) -> Line
    requires few { size q.now.target ≤ 8192 }
    requires centres { centres.now ≡ centres_of q.now }
    requires inside { place < block_count q.now * size q.now.target }
    ensures form { slice_get (encoding_of q.now) (2 * size q.now.pattern + place)
        ≡ Some (form_on q.now result) }
    ensures vertices { LineIsIn q.now result }
{
    match q.maps() {
        Maps::Injective => Line::AtMostIn(None, place as u16),
        Maps::Local => near_line(q, centres, place),
        Maps::Any => unreachable!(),
    }
}

/// The same by local maps.
fn near_line(q: &Problem, centres: &[u32], place: u64) -> Line
    requires local { is_local q.now.maps ≡ true }
    requires centres { centres.now ≡ centres_of q.now }
    requires inside { place < length centres.now * size q.now.target }
    ensures form { slice_get (encoding_of q.now) (2 * size q.now.pattern + place)
        ≡ Some (form_on q.now result) }
    ensures vertices { LineIsIn q.now result }
{
    let _pattern = q.pattern().size();
    let targets = u64::from(q.target().size());
    let centre = centres[(place / targets) as usize];
    Line::AtMostIn(Some(centre as u16), (place % targets) as u16)
}

/// The form at a place among the refusals.
fn refused_line(q: &Problem, numbers: &[u32], place: u64) -> Line
    requires few { size q.now.pattern ≤ 1024 }
    requires numbers { numbers.now ≡ refused_numbers_of q.now }
    requires inside { place < length numbers.now }
    ensures form { slice_get (encoding_of q.now) (refused_start q.now + place)
        ≡ Some (form_on q.now result) }
    ensures vertices { LineIsIn q.now result }
{
    let width = u32::from(q.target().size());
    let number = numbers[place as usize];
    Line::Refused((number / width) as u16, (number % width) as u16)
}

/// The form at a place among those of pairs of pattern vertices: of the pairs with an edge, or of those without.
fn pair_line(q: &Problem, numbers: &[u32], place: u64) -> Line
    requires kind { (numbers.now ≡ edge_numbers_of q.now)
        ⊎ (numbers.now ≡ non_edge_numbers_of q.now) }
    requires inside { place < length numbers.now * size q.now.target }
    ensures edges { numbers.now ≡ edge_numbers_of q.now
        → slice_get (encoding_of q.now) (edge_start q.now + place) ≡ Some (form_on q.now result) }
    ensures non_edges { numbers.now ≡ non_edge_numbers_of q.now
        → slice_get (encoding_of q.now) (non_edge_start q.now + place)
        ≡ Some (form_on q.now result) }
    ensures vertices { LineIsIn q.now result }
{
    let vertices = u32::from(q.pattern().size());
    let targets = u64::from(q.target().size());
    let number = numbers[(place / targets) as usize];
    Line::Pair(
        (number / vertices) as u16,
        (number % vertices) as u16,
        (place % targets) as u16,
    )
}

/// The form at a place among those of pairs that are to be in order.
fn less_line(q: &Problem, place: u64) -> Line
    requires inside { place < length q.now.less * (2 * size q.now.target) }
    ensures form { slice_get (encoding_of q.now) (less_start q.now + place)
        ≡ Some (form_on q.now result) }
    ensures vertices { LineIsIn q.now result }
{
    let less = q.less();
    let targets = u64::from(q.target().size());
    let (a, b) = less[(place / (2 * targets)) as usize];
    let rest = place % (2 * targets);
    if rest < targets {
        Line::LessFrom(a, b, rest as u16)
    } else {
        Line::LessTo(a, b, (rest - targets) as u16)
    }
}

/// How many blocks there are, with so many centres.
pub(crate) fn block_count_of(q: &Problem, centres: &[u32]) -> u64
    requires { centres.now ≡ centres_of q.now }
    ensures { result ≡ block_count q.now }
{
    match q.maps() {
        Maps::Injective => 1,
        Maps::Local => centres.len() as u64,
        Maps::Any => 0,
    }
}

/// Which form stands at a place of the encoding, given these numbers. Cost: constant.
pub(crate) fn line_at(
    q: &Problem,
    refused: &[u32],
    edges: &[u32],
    non_edges: &[u32],
    centres: &[u32],
    place: u64,
) -> Line
    requires numbered { AreNumbered q.now refused.now edges.now non_edges.now centres.now }
    requires inside { place < length (encoding_of q.now) }
    ensures form { slice_get (encoding_of q.now) place ≡ Some (form_on q.now result) }
    ensures vertices { LineIsIn q.now result }
{
    let vertex_forms = 2 * u64::from(q.pattern().size());
    let targets = u64::from(q.target().size());
    if place < vertex_forms {
        return vertex_line(q, place);
    }
    let place = place - vertex_forms;
    let block_forms = block_count_of(q, centres) * targets;
    if place < block_forms {
        return block_line(q, centres, place);
    }
    let place = place - block_forms;
    let refusals = refused.len() as u64;
    if place < refusals {
        return refused_line(q, refused, place);
    }
    let place = place - refusals;
    let edge_forms = edges.len() as u64 * targets;
    if place < edge_forms {
        return pair_line(q, edges, place);
    }
    let place = place - edge_forms;
    let non_edge_forms = non_edges.len() as u64 * targets;
    if place < non_edge_forms {
        return pair_line(q, non_edges, place);
    }
    let _less = q.less();
    less_line(q, place - non_edge_forms)
}
