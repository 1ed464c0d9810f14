// Runs what checks tests before a run and before a call: a case or two for each number of a refusal and for each arm of an entry, one
// line a case, with what was answered. What is to be written was worked out from document 01.
#![tactic(auto)]

use checks::call_limit_tracker::{CallLimitTracker, check_limit, entered};
use checks::grammar::refusal;
use checks::node::{is_top_down, natural_of, normalize_end, normalize_index};
use checks::packed::{packed, unpacked};
use reading::call_limit_tracker::LimitKind;
use reading::parser_state::{Cause, Ending};
use std::{fmt, io};

// ── Tests 4 to 9 and 18: the number and the place ──
// What the tests look at.
#[derive(Clone, Copy)]
struct Case<'a> {
    nodes: &'a [i32],
    literals: &'a [u8],
    text: &'a [u8],
    root: u32,
    depth: u32,
    report: usize,
    scratch: usize,
}

// What no test refuses.
const GOOD: Case<'static> = Case {
    nodes: &[5, 0, 0, 0],
    literals: b"",
    text: b"",
    root: 1,
    depth: 1,
    report: 515,
    scratch: 4864,
};

fn refused(rt: &impl Print, name: &str, c: Case<'_>) -> io::Result<()> {
    match refusal(
        c.nodes, c.literals, c.text, c.root, c.depth, c.report, c.scratch,
    ) {
        Ok(()) => println!(rt; "{name}: none"),
        Err(refused) => println!(rt; "{name}: {} at {}", refused.number(), refused.place()),
    }
}

// The grammar and the literal text, all else being good.
fn grammar(rt: &impl Print, name: &str, nodes: &[i32], literals: &[u8]) -> io::Result<()> {
    let case = Case {
        nodes,
        literals,
        text: b"a",
        depth: 1024,
        ..GOOD
    };
    refused(rt, name, case)
}

fn grammars(rt: &impl Print) -> io::Result<()> {
    let cases: [(&str, &[i32], &[u8]); 9] = [
        (
            "M1's grammar",
            &[1, 0, 1, 0, 8, 7, 1, 0, 19, 3, 0, 0, 6, 2, 3, 0],
            b"abc",
        ),
        ("literals that are not UTF-8", &[5, 0, 0, 0], b"\xFF"),
        ("literals that are not UTF-8, and no nodes", &[], b"\xFF"),
        ("no nodes", &[], b""),
        ("five numbers", &[5, 0, 0, 0, 5], b""),
        ("kind 21", &[5, 0, 0, 0, 21, 0, 0, 0], b""),
        ("a sequence of its own line", &[9, 1, 0, 0], b""),
        ("a repeat of an empty text", &[1, 0, 0, 0, 10, 1, 0, 0], b""),
        ("a repeat of a text", &[1, 0, 1, 0, 10, 1, 0, 0], b"a"),
    ];
    for (name, nodes, literals) in cases {
        grammar(rt, name, nodes, literals)?;
    }
    Ok(())
}

// A text of 65,536 bytes, and all of it but the last.
fn long_inputs(rt: &impl Print) -> io::Result<()> {
    let long = [0u8; 65536];
    let shorter = Case {
        text: &long[..65535],
        ..GOOD
    };
    refused(rt, "text of 65,535 bytes", shorter)?;
    let longer = Case {
        text: &long,
        ..GOOD
    };
    refused(rt, "text of 65,536 bytes", longer)?;
    grammar(rt, "literals of 65,536 bytes", GOOD.nodes, &long)
}

// The other inputs, the grammar being good.
fn inputs(rt: &impl Print) -> io::Result<()> {
    let cases = [
        ("root 0", Case { root: 0, ..GOOD }),
        ("root 2 of one line", Case { root: 2, ..GOOD }),
        (
            "the greatest root, and text that is not UTF-8",
            Case {
                root: u32::MAX,
                text: b"\x80",
                ..GOOD
            },
        ),
        (
            "root 0 of a repeat of an end",
            Case {
                nodes: &[5, 0, 0, 0, 10, 1, 0, 0],
                root: 0,
                ..GOOD
            },
        ),
        (
            "root 1 of two lines",
            Case {
                nodes: &[5, 0, 0, 0, 5, 0, 0, 0],
                ..GOOD
            },
        ),
        (
            "text that is not UTF-8, and depth 0",
            Case {
                text: b"\x80",
                depth: 0,
                ..GOOD
            },
        ),
        ("depth 0", Case { depth: 0, ..GOOD }),
        (
            "depth 1,024",
            Case {
                depth: 1024,
                ..GOOD
            },
        ),
        (
            "depth 1,025, and a short report",
            Case {
                depth: 1025,
                report: 514,
                ..GOOD
            },
        ),
        (
            "report of 514 numbers",
            Case {
                report: 514,
                ..GOOD
            },
        ),
        (
            "scratch of 4,863 numbers",
            Case {
                scratch: 4863,
                ..GOOD
            },
        ),
    ];
    for (name, case) in cases {
        refused(rt, name, case)?;
    }
    Ok(())
}

// ── The fields of kind 16 ──
fn index(rt: &impl Print, i: Option<usize>) -> io::Result<()> {
    match i {
        Some(n) => println!(rt; "{n}"),
        None => println!(rt; "outside"),
    }
}

fn start(rt: &impl Print, name: &str, i: i32, height: usize) -> io::Result<()> {
    print!(rt; "start {name} of {height}: ")?;
    index(rt, normalize_index(i, height))
}

fn end(rt: &impl Print, i: i32, c: usize, height: usize) -> io::Result<()> {
    print!(rt; "end {i} by c {c} of {height}: ")?;
    index(rt, normalize_end(i, c, height))
}

fn indexes(rt: &impl Print) -> io::Result<()> {
    start(rt, "0", 0, 0)?;
    start(rt, "1", 1, 0)?;
    start(rt, "-1", -1, 0)?;
    start(rt, "3", 3, 3)?;
    start(rt, "4", 4, 3)?;
    start(rt, "-1", -1, 3)?;
    start(rt, "-3", -3, 3)?;
    start(rt, "-4", -4, 3)?;
    start(rt, "the least", i32::MIN, 2147483647)?;
    start(rt, "the least", i32::MIN, 2147483649)?;
    end(rt, -1, 0, 3)?;
    end(rt, 4, 1, 3)?;
    end(rt, 0, 2, 3)?;
    end(rt, 0, 3, 3)
}

fn fields(rt: &impl Print) -> io::Result<()> {
    for c in 0..4 {
        let order = if is_top_down(c) {
            "top down"
        } else {
            "bottom up"
        };
        println!(rt; "c {c}: {order}")?;
    }
    println!(rt; "field -1: {}", natural_of(-1))?;
    println!(rt; "field 0: {}", natural_of(0))?;
    println!(rt; "field the greatest: {}", natural_of(i32::MAX))?;
    println!(rt; "field the least: {}", natural_of(i32::MIN))
}

// ── The tracker: the calls, the limit and the cause, before and after an entry ──
// What is printed of a value of another crate.
#[derive(Clone, Copy)]
struct Shown<T>(T);

impl fmt::Display for Shown<CallLimitTracker> {
    fn fmt<W: fmt::Write>(&self, f: &mut fmt::Formatter<W>) -> fmt::Result {
        let t = self.0;
        let cause = match t.reached {
            None => "no cause",
            Some(LimitKind::Call) => "call limit",
            Some(LimitKind::Stack) => "stack limit",
        };
        write!(f, "{} of {}, {cause}", t.current, t.limit)
    }
}

fn answer(rt: &impl Print, came: Result<CallLimitTracker, CallLimitTracker>) -> io::Result<()> {
    match came {
        Ok(t) => println!(rt; "in, {}", Shown(t)),
        Err(t) => println!(rt; "refused, {}", Shown(t)),
    }
}

// By value, then lent: `check_limit` makes a local of the tracker and lends it to `enter`.
fn entry(rt: &impl Print, t: CallLimitTracker, counted: bool, room: usize) -> io::Result<()> {
    let call = if counted { "a counted call" } else { "a call" };
    print!(rt; "{}; {call}, room for {room}: ", Shown(t))?;
    answer(rt, entered(t, counted, 0 < room))?;
    print!(rt; "  lent: ")?;
    answer(rt, check_limit(t, counted, room))
}

fn at(current: u64, limit: u64) -> CallLimitTracker {
    CallLimitTracker {
        current,
        limit,
        reached: None,
    }
}

fn stopped(current: u64, limit: u64, kind: LimitKind) -> CallLimitTracker {
    CallLimitTracker {
        current,
        limit,
        reached: Some(kind),
    }
}

fn entries(rt: &impl Print) -> io::Result<()> {
    entry(rt, at(0, 0), true, 1)?;
    entry(rt, at(7, 0), true, 1)?;
    entry(rt, at(7, 0), true, 0)?;
    entry(rt, at(7, 0), false, 1)?;
    entry(rt, at(u64::MAX - 1, 0), true, 1)?;
    entry(rt, at(u64::MAX, 0), true, 1)?;
    entry(rt, at(0, 2), true, 1)?;
    entry(rt, at(1, 2), true, 1)?;
    entry(rt, at(2, 2), true, 1)?;
    entry(rt, at(2, 2), true, 0)?;
    entry(rt, at(1, 2), true, 0)?;
    entry(rt, at(2, 2), false, 1)?;
    entry(rt, at(2, 2), false, 0)?;
    entry(rt, at(5, 2), true, 1)?;
    entry(rt, stopped(0, 2, LimitKind::Call), true, 1)?;
    entry(rt, stopped(0, 0, LimitKind::Stack), false, 1)
}

// ── An ending as one number, and the ending of that number ──
impl fmt::Display for Shown<Ending> {
    fn fmt<W: fmt::Write>(&self, f: &mut fmt::Formatter<W>) -> fmt::Result {
        match self.0 {
            Ending::Ok => write!(f, "Ok"),
            Ending::Err => write!(f, "Err"),
            Ending::Stop(Cause::EmptyStack(line)) => write!(f, "empty stack at {line}"),
            Ending::Stop(Cause::TokensFull(line)) => write!(f, "tokens full at {line}"),
            Ending::Stop(Cause::StackFull(line)) => write!(f, "stack full at {line}"),
            Ending::Stop(Cause::AttemptsFull(line)) => write!(f, "attempts full at {line}"),
        }
    }
}

fn there_and_back(rt: &impl Print, e: Ending) -> io::Result<()> {
    let n = packed(e);
    println!(rt; "{}: {n}, {}", Shown(e), Shown(unpacked(n)))
}

fn endings(rt: &impl Print) -> io::Result<()> {
    there_and_back(rt, Ending::Err)?;
    there_and_back(rt, Ending::Ok)?;
    there_and_back(rt, Ending::Stop(Cause::EmptyStack(0)))?;
    there_and_back(rt, Ending::Stop(Cause::TokensFull(1)))?;
    there_and_back(rt, Ending::Stop(Cause::StackFull(4096)))?;
    there_and_back(rt, Ending::Stop(Cause::AttemptsFull(u32::MAX)))
}

fn main(rt: HostRuntime) -> io::Result<()> {
    grammars(&rt)?;
    long_inputs(&rt)?;
    inputs(&rt)?;
    indexes(&rt)?;
    fields(&rt)?;
    entries(&rt)?;
    endings(&rt)
}
