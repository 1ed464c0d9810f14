// The table of kinds (refusal 5).
ghost use Rattle.std.specs.Prelude.{◌≡◌, true, [], ◌&&◌, ◌+◌, ◌-◌, ◌*◌, ◌≤◌, length};
ghost use Rattle.matching.specs.Utf8.{is_utf8};
ghost use Rattle.reading.specs.Grammar.{between, scalar, count, literal_part, called, nil, name};
ghost use Rattle.reading.specs.Grammar.{line_count, edge, fields_fit, line_fits, first_line, misfit};
ghost use Rattle.reading.specs.Outcome.{good_text, first_of, refusal_on};
ghost use Rattle.checks.specs.Refusals.{refusal_of, refused_of, grammar_tests, root_tests, later_tests};
ghost use Rattle.checks.specs.Lines.{line_misfits};

use crate::node::{natural_of, node_at, row_of};
use crate::nullable::still_repeat;
use matching::position::Position;
use matching::utf8::is_utf8;
use reading::node::Node;

// Why a run is refused: document 01's refusals 4 to 9, with the line where one is named, and document 02's 18.
#[derive(Clone, Copy, PartialEq, Eq, Debug)]
pub enum Refused {
    // 4: "literal text over 65,535 bytes or not UTF-8"
    Literals,
    // 5: "nodes not 1 to 4,096 fours": 0; "a line against the table": the first such line
    Nodes(u32),
    // 6: "repeat body may stand still": the first such repeat
    StillRepeat(u32),
    // 18: "root not a line of the sheet"
    Root,
    // 7: "text over 65,535 bytes or not UTF-8"
    Text,
    // 8: "depth limit not 1 to 1,024"
    DepthLimit,
    // 9: "report under 515 or scratch under 4,864 numbers"
    Areas,
}

impl Refused {
    // The refusal's number.
    // Kept: a number for each case: document 01's table, which C's interface gives.
    pub fn number(self) -> u32
        ensures { result ≡ (refusal_of self).number }
    {
        match self {
            Refused::Literals => 4,
            Refused::Nodes(_) => 5,
            Refused::StillRepeat(_) => 6,
            Refused::Root => 18,
            Refused::Text => 7,
            Refused::DepthLimit => 8,
            Refused::Areas => 9,
        }
    }

    // The place that it names: a line, or 0.
    pub fn place(self) -> u32
        ensures { result ≡ (refusal_of self).place }
    {
        match self {
            Refused::Nodes(line) | Refused::StillRepeat(line) => line,
            _ => 0,
        }
    }
}

// Whether a field lies from `low` to `high`.
fn between(field: i32, low: usize, high: usize) -> bool
    ensures { result ≡ between low high field }
{
    usize::try_from(field).is_ok_and(|n| low <= n && n <= high)
}

// Whether a field is a Unicode scalar value: no surrogate.
fn is_scalar(field: i32) -> bool
    ensures { result ≡ scalar field }
{
    between(field, 0, 0xD7FF) || between(field, 0xE000, 0x10FFFF)
}

// Whether a field is a count: 0 or more.
fn is_count(field: i32) -> bool
    ensures { result ≡ count field }
{
    0 <= field
}

// A literal text that passed test 4: made where that test is, so that no later function asks for UTF-8.
#[derive(Clone, Copy)]
struct Literals<'a> {
    bytes: &'a [u8],
    ghost whole: { is_utf8 bytes.now ≡ true },
}

impl Literals<'_> {
    // Whether whole characters follow a place.
    fn is_edge(self, at: usize) -> bool
        ensures { result ≡ edge self.entry.bytes.now at }
    {
        Position::new(self.bytes, at).is_some()
    }

    // Whether `size` bytes from `offset` on stand in the text, on character edges.
    fn has_part(self, offset: usize, size: usize) -> bool
        ensures { result ≡ (edge self.entry.bytes.now offset && edge self.entry.bytes.now (offset + size)) }
    {
        self.is_edge(offset) && size <= self.bytes.len() - offset && self.is_edge(offset + size)
    }
}

// Whether two fields name a part of the literal text.
fn literal_fits(literals: Literals<'_>, a: i32, b: i32) -> bool
    ensures { result ≡ literal_part literals.entry.bytes.now a b }
{
    is_count(a) && is_count(b) && literals.has_part(a as usize, b as usize)
}

// Whether a field names a line of kind 8: a rule. (The definition is handed a literal text too, and doesn't look at it.)
fn calls_rule(nodes: &[i32], a: i32) -> bool
    ensures { result ≡ called nodes.now [] a }
{
    between(a, 1, nodes.len() / 4) && node_at(nodes, natural_of(a)).kind == 8
}

// Whether a field is 0, as those that the table does not name are.
fn is_nil(field: i32) -> bool
    ensures { result ≡ nil field }
{
    field == 0
}

// Whether a field names a line lower than this one.
fn is_lower(field: i32, line: usize) -> bool
    ensures { result ≡ between 1 (line - 1) field }
{
    between(field, 1, line.saturating_sub(1))
}

// Whether a field is a rule or a tag.
fn is_name(field: i32) -> bool
    ensures { result ≡ name field }
{
    between(field, 1, 65535)
}

// Whether the fields of a line fit its kind, by the table's rows.
// Kept: a table, and no `match` on the kind: nullable.rt says what was tried; the rows stand as in document 01's table.
fn fields_fit(nodes: &[i32], literals: Literals<'_>, line: usize, node: Node) -> bool
    ensures { result ≡ fields_fit nodes.now literals.entry.bytes.now line node }
{
    let Node { kind, a, b, c } = node;
    let nil_b = is_nil(b);
    let nil_c = is_nil(c);
    let lower_a = is_lower(a, line);
    let lower_b = is_lower(b, line);
    let name_a = is_name(a);
    let literal = literal_fits(literals, a, b) & nil_c;
    let two = lower_a & lower_b & nil_c;
    let one = lower_a & nil_b & nil_c;
    let no = is_nil(a) & nil_b & nil_c;
    let rows = [
        literal,
        literal,
        is_scalar(a) & is_scalar(b) & nil_c,
        is_count(a) & nil_b & nil_c,
        no,
        two,
        two,
        name_a & lower_b & nil_c,
        one,
        one,
        one,
        lower_a & between(b, 0, 1) & nil_c,
        lower_a & between(b, 0, 2) & nil_c,
        one,
        no,
        between(c, 0, 1) | (between(c, 2, 3) & nil_b),
        no,
        one,
        name_a & nil_b & nil_c,
        calls_rule(nodes, a) & nil_b & nil_c,
    ];
    row_of(&rows, kind)
}

// Whether the line stands in the table.
fn line_fits(nodes: &[i32], literals: Literals<'_>, line: usize) -> bool
    requires { (1 ≤ line) × (line * 4 ≤ length nodes.now) }
    ensures { result ≡ line_fits nodes.now literals.entry.bytes.now line }
{
    let node = node_at(nodes, line);
    between(node.kind, 1, 20) && fields_fit(nodes, literals, line, node)
}

// The first of at most 4,096 lines that does not stand in the table.
fn first_misfit(nodes: &[i32], literals: Literals<'_>) -> Option<u32>
    requires { line_count nodes.now ≤ 4096 }
    ensures { result ≡ first_line (line_misfits nodes.now literals.entry.bytes.now) 1 (line_count nodes.now) }
{
    let count = nodes.len() / 4;
    (1..count as u32 + 1).find(|line| !line_fits(nodes, literals, *line as usize))
}

// Test 5: 0 where the nodes are not 1 to 4,096 fours, else the first line against the table.
fn misfit(nodes: &[i32], literals: Literals<'_>) -> Option<u32>
    ensures { result ≡ misfit nodes.now literals.entry.bytes.now }
{
    let count = nodes.len() / 4;
    if nodes.len() != count * 4 || count < 1 || 4096 < count {
        return Some(0);
    }
    first_misfit(nodes, literals)
}

// "over 65,535 bytes or not UTF-8"
fn is_good_text(text: &[u8]) -> bool
    ensures { result ≡ good_text text.now }
{
    text.len() <= 65535 && is_utf8(text)
}

// Tests 4 to 6: the literal text and the grammar.
fn grammar_refusal(nodes: &[i32], literals: &[u8]) -> Result<(), Refused>
    ensures { refused_of result ≡ first_of (grammar_tests nodes.now literals.now) }
{
    if !is_good_text(literals) {
        return Err(Refused::Literals);
    }
    if let Some(line) = misfit(nodes, Literals { bytes: literals }) {
        return Err(Refused::Nodes(line));
    }
    match still_repeat(nodes) {
        Some(line) => Err(Refused::StillRepeat(line)),
        None => Ok(()),
    }
}

// Test 18, of the sheet's number of lines.
fn root_refusal(nodes: &[i32], root: u32) -> Result<(), Refused>
    ensures { refused_of result ≡ first_of (root_tests nodes.now root) }
{
    if root < 1 || nodes.len() / 4 < root as usize {
        return Err(Refused::Root);
    }
    Ok(())
}

// Tests 7 to 9, which do not look at the grammar.
fn later_refusal(text: &[u8], depth: u32, report: usize, scratch: usize) -> Result<(), Refused>
    ensures { refused_of result ≡ first_of (later_tests text.now depth report scratch) }
{
    if !is_good_text(text) {
        return Err(Refused::Text);
    }
    if depth < 1 || 1024 < depth {
        return Err(Refused::DepthLimit);
    }
    if report < 515 || scratch < 4864 {
        return Err(Refused::Areas);
    }
    Ok(())
}

// The tests of a run, 4 to 6, 18 and 7 to 9, in order. Only where all pass is a run started. Of report and scratch the tests look at the
// sizes alone.
pub fn refusal(
    nodes: &[i32],
    literals: &[u8],
    text: &[u8],
    root: u32,
    depth: u32,
    report: usize,
    scratch: usize,
) -> Result<(), Refused>
    ensures { refused_of result ≡ refusal_on nodes.now literals.now text.now root depth report scratch }
{
    grammar_refusal(nodes, literals)?;
    root_refusal(nodes, root)?;
    later_refusal(text, depth, report, scratch)
}
