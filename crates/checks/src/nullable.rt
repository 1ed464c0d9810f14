// "May stand still", the least such set of lines, and the test for repeats whose body may (refusal 6).
ghost use Rattle.std.specs.Prelude.{◌≡◌, false, ◌*◌, ◌+◌, ◌≤◌, ◌<◌, length, replicate};
ghost use Rattle.reading.specs.Grammar.{node_at, first_line};
ghost use Rattle.reading.specs.Nullable.{stands_still, flag, raised, swept, rounds, still_repeat};
ghost use Rattle.checks.specs.Lines.{flagged_repeat};

use crate::node::{natural_of, node_at, row_of};
use reading::node::Node;

// The flag of a line, numbered from 1.
fn flag_of(flags: &[bool], line: usize) -> bool
    ensures { result ≡ flag flags.now line }
{
    1 <= line && line <= flags.len() && flags[line - 1]
}

// Whether the line may stand still, if the flagged lines may.
// Kept: a table, and no `match` on the kind: tried, and each arm, and each side of each `&&` in it, asked for an answer of its own.
fn line_stands_still(node: Node, flags: &[bool]) -> bool
    ensures { result ≡ stands_still (flag flags.now) node }
{
    let field_a = natural_of(node.a);
    let field_b = natural_of(node.b);
    let no_a = field_a == 0;
    let no_b = field_b == 0;
    let a = flag_of(flags, field_a);
    let b = flag_of(flags, field_b);
    let both = a & b;
    let either = a | b;
    let rows = [
        no_b, no_b, false, no_a, true, both, either, b, a, true, true, true, a, a, true, true,
        true, a, true, a,
    ];
    row_of(&rows, node.kind)
}

// Flags the line at `index`, counted from 0, if it may stand still; whether it was not flagged before and is now.
fn raise(nodes: &[i32], flags: &mut [bool], index: usize) -> bool
    requires { (index * 4 + 4 ≤ length nodes.now) × (index < length flags.old) }
    ensures flags_after { flags.new ≡ raised nodes.now index flags.old }
    ensures unchanged { result ≡ false → flags.new ≡ flags.old }
{
    if flags[index] {
        return false;
    }
    let raises = line_stands_still(node_at(nodes, index + 1), flags);
    flags[index] = raises;
    raises
}

// One round over all lines; whether it flagged a line.
fn sweep(nodes: &[i32], flags: &mut [bool]) -> bool
    requires { length flags.old * 4 ≤ length nodes.now }
    ensures flags_after { flags.new ≡ swept nodes.now (length flags.old) flags.old }
    ensures unchanged { result ≡ false → flags.new ≡ flags.old }
{
    let mut changed = false;
    for index in 0..flags.len() {
        changed |= raise(nodes, flags, index);
    }
    changed
}

// Flags the lines that may stand still. Each round but the last flags one line more, so there are at most as many as lines.
fn flag_all(nodes: &[i32], flags: &mut [bool])
    requires flags_in_bounds { length flags.old * 4 ≤ length nodes.now }
    requires none_flagged { flags.old ≡ replicate (length flags.old) false }
    ensures { flags.new ≡ rounds nodes.now (length flags.old) (length flags.old) }
{
    for _ in 0..flags.len() {
        if !sweep(nodes, flags) {
            return;
        }
    }
}

// Whether the line is a repeat whose body is flagged.
fn repeat_stands_still(node: Node, flags: &[bool]) -> bool
    ensures { result ≡ flagged_repeat flags.now node }
{
    node.kind == 10 && flag_of(flags, natural_of(node.a))
}

// The first repeat whose body is flagged.
fn first_repeat(nodes: &[i32], flags: &[bool]) -> Option<u32>
    requires { (length flags.now * 4 ≤ length nodes.now) × (length flags.now ≤ 4096) }
    ensures { result ≡ first_line (λ l. flagged_repeat flags.now (node_at nodes.now l)) 1 (length flags.now) }
{
    (1..flags.len() as u32 + 1).find(|l| repeat_stands_still(node_at(nodes, *l as usize), flags))
}

// The first repeat whose body may stand still.
pub(crate) fn still_repeat(nodes: &[i32]) -> Option<u32>
    requires { length nodes.now ≤ 16384 }
    ensures { result ≡ still_repeat nodes.now }
{
    // Kept: an area of 4,096 flags, of which as many are used as there are lines: no heap.
    let mut flags = [false; 4096];
    let flags = &mut flags[..nodes.len() / 4];
    flag_all(nodes, flags);
    first_repeat(nodes, flags)
}
