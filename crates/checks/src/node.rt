// The fields of node lines: signed numbers. All signed arithmetic of the grammar stands here.
ghost use Rattle.std.specs.Prelude.{◌≡◌, ◌||◌, ◌*◌, ◌≤◌, ◌<◌, eqb, ltb, if◌then◌else◌};
ghost use Rattle.std.specs.Prelude.{false, None, Some, pos, length, get_or};
ghost use Rattle.reading.specs.Grammar.{natural, node_at, row};
ghost use Rattle.reading.specs.Reading.{index_in, end_in};

use reading::node::Node;

// A field as a natural number: a negative one reads 0.
pub fn natural_of(x: i32) -> usize
    ensures { result ≡ natural x }
{
    if x < 0 { 0 } else { x as usize }
}

// A line, numbered from 1.
// Kept: the bound, here and in `line_fits`: without it four `get`s, and a product that may not fit, would stand for four indices.
pub(crate) fn node_at(nodes: &[i32], line: usize) -> Node
    requires { (1 ≤ line) × (line * 4 ≤ length nodes.now) }
    ensures { result ≡ node_at nodes.now line }
{
    Node {
        kind: nodes[line * 4 - 4],
        a: nodes[line * 4 - 3],
        b: nodes[line * 4 - 2],
        c: nodes[line * 4 - 1],
    }
}

// What a table of twenty rows, one for each kind, says of a kind. (As in the definition, kind 0 reads the first row.)
pub(crate) fn row_of(rows: &[bool; 20], kind: i32) -> bool
    requires { length rows.now ≡ 20 }
    ensures { result ≡ row rows.now false kind }
{
    let row = natural_of(kind).saturating_sub(1);
    rows.get(row).copied().unwrap_or(false)
}

// ── The peek index of kind 16 ──
// "an index above the height, or below minus the height, fails; a negative one counts from the height"
pub fn normalize_index(i: i32, len: usize) -> Option<usize>
    ensures { result ≡ index_in len i }
{
    let size = i.unsigned_abs() as usize;
    if len < size {
        None
    } else if i < 0 {
        Some(len - size)
    } else {
        Some(size)
    }
}

// Field c of kind 16: "0 bottom up, 1 top down; 2, 3 the same without end".
pub fn normalize_end(i: i32, c: usize, len: usize) -> Option<usize>
    ensures { result ≡ end_in len (if ltb c 2 then Some i else None) }
{
    if c < 2 {
        normalize_index(i, len)
    } else {
        Some(len)
    }
}

// Whether field c asks for the entries from the top down.
pub fn is_top_down(c: usize) -> bool
    ensures { result ≡ (eqb c 1 || eqb c 3) }
{
    c == 1 || c == 3
}
