// The lines of an accepted grammar, as the evaluation reads them.
ghost use Rattle.std.specs.Prelude.{◌≡◌, ◌*◌, ◌≤◌, length};
ghost use Rattle.reading.specs.Grammar.{node_at};
ghost use Rattle.engine.specs.Lines.{line_of, ends_of};

use checks::node::natural_of;

// A node whose fields are read as natural numbers.
// Kept: a struct beside reading's `Node`, and no generic of both: each is what one definition speaks of, and no function takes either.
#[derive(Clone, Copy)]
pub struct Line {
    pub kind: usize,
    pub a: usize,
    pub b: usize,
    pub c: usize,
}

// The two ends that `stack_match_peek_slice` is given, which may be negative.
#[derive(Clone, Copy)]
pub struct Ends {
    pub start: i32,
    pub end: i32,
}

// The line, numbered from 1.
// Kept: the bound, here and in `ends_at`, as at checks' `node_at`; this one reads the fields as natural numbers, which an accepted line's are.
pub(crate) fn line_at(nodes: &[i32], line: usize) -> Line
    requires { (1 ≤ line) × (line * 4 ≤ length nodes.now) }
    ensures { result ≡ line_of (node_at nodes.now line) }
{
    let kind = natural_of(nodes[line * 4 - 4]);
    let a = natural_of(nodes[line * 4 - 3]);
    let b = natural_of(nodes[line * 4 - 2]);
    let c = natural_of(nodes[line * 4 - 1]);
    Line { kind, a, b, c }
}

// Fields a and b of a line of kind 16 as they are.
pub(crate) fn ends_at(nodes: &[i32], line: usize) -> Ends
    requires { (1 ≤ line) × (line * 4 ≤ length nodes.now) }
    ensures { result ≡ ends_of (node_at nodes.now line) }
{
    let start = nodes[line * 4 - 3];
    let end = nodes[line * 4 - 2];
    Ends { start, end }
}
