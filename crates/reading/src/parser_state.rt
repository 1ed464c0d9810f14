// The enums of pest's parser_state.rs that the reading speaks of, the causes of document 01's added stops, and how the code's evaluation
// ends.

// The current lookahead status (pest's `Lookahead`).
#[derive(Clone, Copy, PartialEq, Eq, Debug)]
pub enum Lookahead {
    Positive,
    Negative,
    None,
}

// The current atomicity (pest's `Atomicity`).
#[derive(Clone, Copy, PartialEq, Eq, Debug)]
pub enum Atomicity {
    Atomic,
    CompoundAtomic,
    NonAtomic,
}

// Why a run stops for a reason that pest does not have, with the line that it reports: numbers 13 to 16.
#[derive(Clone, Copy)]
pub enum Cause {
    EmptyStack(u32),
    TokensFull(u32),
    StackFull(u32),
    AttemptsFull(u32),
}

// "Evaluation ends Ok, Err, or in a stop that names its cause." The state that Ok and Err left stands where it was lent.
// Kept: three cases, and no Result: document 01 names this form, an ending enum whose stop holds the cause enum with its line.
#[derive(Clone, Copy)]
pub enum Ending {
    Ok,
    Err,
    Stop(Cause),
}
