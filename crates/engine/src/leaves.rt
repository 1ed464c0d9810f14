// Lines of kinds 1 to 5 only move the position. The evaluation takes them, and the forks whose left sides they are, here, where the
// position alone goes from line to line: the state is read before and stored after them all.
ghost use Rattle.std.specs.Prelude.{◌≡◌, true, false, ℕ, ◌≤◌};
ghost use Rattle.reading.specs.Grammar.{kind_at};
ghost use Rattle.reading.specs.Pest as Pest;
ghost use Rattle.engine.specs.Evaluation.{Line, evaluates};
ghost use Rattle.engine.specs.Leaves.{FitIn, WalkedFrom};
ghost use Rattle.engine.specs.StackMatch.{match_of};

use crate::node::line_at;
use crate::setting::Setting;
use crate::spine::is_fork;
use crate::terminals::{match_end, match_literal};
use matching::position::{BytePosition, match_range, skip};

// Where a walk over leaves ends: done, with Ok or not, or at a line that it leaves to others.
#[derive(Clone, Copy)]
pub(crate) enum Halt {
    Done(bool),
    At(usize),
}

// A line of kind 1 to 5. Stands in its callers, as `walk` takes most lines of a run: left to the compiler it is a call, and a run of
// the JSON sheet takes 8 % longer (docs/BENCHMARKS.md).
// Kept: a `match` on the kind's number, which is document 01's and C's; each arm calls a function of another shape.
#[inline(always)]
pub(crate) fn leaf(g: &Setting, line: usize, p: BytePosition) -> Option<BytePosition>
    requires { Line g.now.nodes.now line × (kind_at g.now.nodes.now line ≤ 5) }
    ensures { (depth : ℕ) (m : Pest.ParserState) → FitIn g.now m → m.position ≡ p.0 → Pest.moved (match_of result) m ≡ evaluates g.now depth line m }
{
    let n = line_at(g.nodes, line);
    match n.kind {
        1 => match_literal(g.literals, g.text, n.a, n.b, false, p),
        2 => match_literal(g.literals, g.text, n.a, n.b, true, p),
        3 => match_range(g.text, p, n.a as u32, n.b as u32),
        4 => skip(g.text, p, n.a),
        _ => match_end(g.text, p),
    }
}

// A line that is no fork: a leaf is done.
fn last(g: &Setting, line: usize, p: BytePosition) -> (BytePosition, Halt)
    requires { Line g.now.nodes.now line }
    ensures { (depth : ℕ) (m : Pest.ParserState) → FitIn g.now m → m.position ≡ p.0 → WalkedFrom g.now depth line m result }
{
    let n = line_at(g.nodes, line);
    if 5 < n.kind {
        return (p, Halt::At(line));
    }
    match leaf(g, line, p) {
        Some(q) => (q, Halt::Done(true)),
        None => (p, Halt::Done(false)),
    }
}

// From `line`, as far as left sides are leaves: by right sides where they are due. The position then, and why the walk ends.
pub(crate) fn walk(g: &Setting, line: usize, p: BytePosition) -> (BytePosition, Halt)
    requires { Line g.now.nodes.now line }
    ensures { (depth : ℕ) (m : Pest.ParserState) → FitIn g.now m → m.position ≡ p.0 → WalkedFrom g.now depth line m result }
{
    let mut at = line;
    let mut position = p;
    loop {
        let n = line_at(g.nodes, at);
        if !is_fork(n.kind) {
            return last(g, at, position);
        }
        let m = line_at(g.nodes, n.a);
        if 5 < m.kind {
            return (position, Halt::At(at));
        }
        match leaf(g, n.a, position) {
            Some(q) => {
                if n.kind == 7 {
                    return (q, Halt::Done(true));
                }
                position = q;
            }
            None => {
                if n.kind == 6 {
                    return (position, Halt::Done(false));
                }
            }
        }
        at = n.b;
    }
}
