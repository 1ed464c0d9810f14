// The end of a run: what it returns, and what then stands in its areas. Document 01, "Stops and refusals".
ghost use Rattle.std.specs.Prelude.{◌≡◌, ◌*◌, ◌≤◌, length};
ghost use Rattle.engine.specs.Areas.{queue_of, view_end};
ghost use Rattle.reading.specs.Answer.{tokens_of};
ghost use Rattle.engine.specs.Attempts.{tried};
ghost use Rattle.engine.specs.Report.{Reportable};
ghost use Rattle.reading.specs.Outcome as Answers;
ghost use Rattle.reading.specs.Outcome.{laid, ascending};
ghost use Rattle.reading.specs.Answer.{pest_answer};
ghost use Rattle.engine.specs.Conclude.{outcome_of, ConcludeReady};

use crate::attempts::{Attempts, write_report};
use crate::parser_state::ParserState;
use crate::queueable_token::write_tokens;
use crate::state::Outcome;
use matching::position::{BytePosition, TokenIndex};
use reading::call_limit_tracker::LimitKind;
use reading::parser_state::{Cause, Ending};

// "tokens, report zeroed"
fn stopped(tokens: &mut [u32], report: &mut [u32], number: u32, place: u32) -> Outcome
    ensures { outcome_of result tokens.new report.new ≡ laid (length tokens.old) (length report.old) (Answers.stopped number place) }
{
    tokens.fill(0);
    report.fill(0);
    Outcome {
        number,
        place,
        count: 0,
    }
}

// Kept: the numbers 11 to 16, here and in `of_cause`, as document 01's table and C's interface have them.
// 11 and 12: "furthest"
fn of_limit(
    tokens: &mut [u32],
    report: &mut [u32],
    kind: LimitKind,
    furthest: BytePosition,
) -> Outcome
    requires { furthest.0 ≤ 65535 }
    ensures { outcome_of result tokens.new report.new ≡ laid (length tokens.old) (length report.old) (Answers.of_limit kind furthest.0) }
{
    let place = furthest.0 as u32;
    match kind {
        LimitKind::Call => stopped(tokens, report, 11, place),
        LimitKind::Stack => stopped(tokens, report, 12, place),
    }
}

// 13 to 16: the line that the stop names
fn of_cause(tokens: &mut [u32], report: &mut [u32], cause: Cause) -> Outcome
    ensures { outcome_of result tokens.new report.new ≡ laid (length tokens.old) (length report.old) (Answers.of_cause cause) }
{
    match cause {
        Cause::EmptyStack(line) => stopped(tokens, report, 13, line),
        Cause::TokensFull(line) => stopped(tokens, report, 14, line),
        Cause::StackFull(line) => stopped(tokens, report, 15, line),
        Cause::AttemptsFull(line) => stopped(tokens, report, 16, line),
    }
}

// "A run's 0 returns place 0, count of tokens; tokens, then zeros; report zeros."
// Kept: the area and its count, as in queueable_token.rt.
fn of_tokens(tokens: &mut [u32], report: &mut [u32], n: TokenIndex) -> Outcome
    requires { (n.0 * 5 ≤ length tokens.old) × (n.0 ≤ 65535) }
    ensures { outcome_of result tokens.new report.new
        ≡ laid (length tokens.old) (length report.old) (Answers.of_tokens (tokens_of (queue_of tokens.old n.0))) }
{
    write_tokens(tokens, n);
    report.fill(0);
    Outcome {
        number: 0,
        place: 0,
        count: n.0 as u32,
    }
}

// "Err, no limit cause": "furthest, rules reported"
fn of_failure(tokens: &mut [u32], scratch: &[u32], report: &mut [u32], t: Attempts) -> Outcome
    requires { Reportable scratch.now t report.old }
    ensures { outcome_of result tokens.new report.new
        ≡ laid (length tokens.old) (length report.old)
        (Answers.of_failure t.furthest.0 (ascending (tried scratch.now t).positive) (ascending (tried scratch.now t).negative)) }
{
    let rules = write_report(scratch, t, report);
    tokens.fill(0);
    let count = rules as u32;
    Outcome {
        number: 10,
        place: t.furthest.0 as u32,
        count,
    }
}

// The answer to an ending, from the state that it left: "Ok without a limit cause is 0, even with text left over."
pub(crate) fn conclude(
    tokens: &mut [u32],
    scratch: &[u32],
    report: &mut [u32],
    s: &ParserState,
    r: Ending,
) -> Outcome
    requires { ConcludeReady tokens.old scratch.now report.old s.now r }
    ensures { outcome_of result tokens.new report.new
        ≡ laid (length tokens.old) (length report.old) (pest_answer (view_end tokens.old scratch.now s.now r)) }
{
    if let Ending::Stop(cause) = r {
        return of_cause(tokens, report, cause);
    }
    if let Some(kind) = s.tracker.reached {
        return of_limit(tokens, report, kind, s.attempts.furthest);
    }
    match r {
        Ending::Ok => of_tokens(tokens, report, s.queue),
        _ => of_failure(tokens, scratch, report, s.attempts),
    }
}
