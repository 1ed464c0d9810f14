// The call tracker: counted calls, the call limit and the cause, by value; `enter`, which is lent it; and `check_limit`, which lends it.
ghost use Rattle.std.specs.Prelude.{◌≡◌, false, None, ltb};
ghost use Rattle.reading.specs.Reading.{over};
ghost use Rattle.checks.specs.Tracker.{one_more, by_depth, entry_at, answered};

use reading::call_limit_tracker::LimitKind;

// pest's `CallLimitTracker`: the counted calls (without a limit too, where pest counts none), the call limit (0: none), and the limit that
// was reached.
#[derive(Clone, Copy)]
pub struct CallLimitTracker {
    pub current: u64,
    pub limit: u64,
    pub reached: Option<LimitKind>,
}

// Whether the counted calls number the call limit.
fn exceeded(t: CallLimitTracker) -> bool
    ensures { result ≡ over t.limit t.current }
{
    t.limit != 0 && t.limit <= t.current
}

// One counted call more: the count "stays at its largest once there" (document 02, request 5).
fn one_more(t: CallLimitTracker) -> CallLimitTracker
    ensures { result ≡ one_more t }
{
    CallLimitTracker {
        current: t.current.saturating_add(1),
        ..t
    }
}

// The depth limit, which is tested last: `next` is the tracker of an entry that it lets in.
fn by_depth(
    t: CallLimitTracker,
    next: CallLimitTracker,
    room: bool,
) -> Result<CallLimitTracker, CallLimitTracker>
    ensures { result ≡ by_depth room t next }
{
    if room {
        Ok(next)
    } else {
        Err(CallLimitTracker {
            reached: Some(LimitKind::Stack),
            ..t
        })
    }
}

// `enter`, by value: the tracker after an entry that is let in, or after one that is refused. "A cause once set refuses every later
// entry"; the call limit is tested before the depth limit.
pub fn entered(
    t: CallLimitTracker,
    counted: bool,
    room: bool,
) -> Result<CallLimitTracker, CallLimitTracker>
    ensures { result ≡ entry_at room counted t }
{
    if t.reached.is_some() {
        return Err(t);
    }
    if !counted {
        return by_depth(t, t, room);
    }
    if exceeded(t) {
        return Err(CallLimitTracker {
            reached: Some(LimitKind::Call),
            ..t
        });
    }
    by_depth(t, one_more(t), room)
}

// pest's `enter`: the tracker is lent, and updated; whether the entry is let in. `room`: how many more calls may be open; at 0 the stand-in
// for `remaining_stack` gives `Some(0)`.
pub fn enter(tracker: &mut CallLimitTracker, count_call: bool, room: usize) -> bool
    ensures { answered result tracker.new ≡ entry_at (ltb 0 room) count_call tracker.old }
{
    match entered(*tracker, count_call, 0 < room) {
        Ok(next) => {
            *tracker = next;
            true
        }
        Err(next) => {
            *tracker = next;
            false
        }
    }
}

// An entry for whoever holds the tracker by value: it is lent to `enter`, and comes back in the answer.
pub fn check_limit(
    t: CallLimitTracker,
    count_call: bool,
    room: usize,
) -> Result<CallLimitTracker, CallLimitTracker>
    ensures { result ≡ entry_at (ltb 0 room) count_call t }
{
    let mut tracker = t;
    if enter(&mut tracker, count_call, room) {
        Ok(tracker)
    } else {
        Err(tracker)
    }
}
