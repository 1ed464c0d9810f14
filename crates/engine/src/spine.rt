// The left sides of kinds 6 and 7, one below the other. They open no call, so the evaluation goes down them in a loop and not by
// recursion, which would take native stack for each.
ghost use Rattle.std.specs.Prelude.{◌≡◌, true, false};
ghost use Rattle.engine.specs.Spine.{Fork, Slopes, Spined, Forks, spine_line, goes, ending_of};

use crate::node::line_at;
use reading::parser_state::Ending;

// The leftmost line below a line, and how many steps it is away.
#[derive(Clone, Copy)]
pub struct Spine {
    pub count: usize,
    pub line: usize,
}

pub(crate) fn descend(nodes: &[i32], top: usize) -> Spine
    requires { Slopes nodes.now top }
    ensures { Spined nodes.now top result }
{
    let mut line = top;
    let mut count = 0;
    loop {
        let n = line_at(nodes, line);
        if !is_fork(n.kind) {
            return Spine { count, line };
        }
        line = n.a;
        count += 1;
    }
}

// The line that is i steps below `top`: found again from the top, so that no list of lines is kept.
pub(crate) fn spine_at(nodes: &[i32], top: usize, i: usize) -> usize
    requires { Slopes nodes.now top × Forks nodes.now top i }
    ensures { result ≡ spine_line nodes.now top i }
{
    let mut line = top;
    for _ in 0..i {
        line = line_at(nodes, line).a;
    }
    line
}

// Kinds 6 and 7.
pub(crate) fn is_fork(kind: usize) -> bool
    ensures { (result ≡ true → Fork kind) × (result ≡ false → Fork kind → ⊥) }
{
    kind == 6 || kind == 7
}

// Whether the line's right side is evaluated, where its left side ended so. Only a fork has one.
pub(crate) fn goes_right(kind: usize, left: Ending) -> bool
    ensures { result ≡ goes kind left }
{
    match left {
        Ending::Ok => kind == 6,
        Ending::Err => kind == 7,
        Ending::Stop(_) => false,
    }
}

pub(crate) fn ended(good: bool) -> Ending
    ensures { result ≡ ending_of good }
{
    if good { Ending::Ok } else { Ending::Err }
}
