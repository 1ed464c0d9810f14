// The limit that was reached (pest's `LimitKind`).
#[derive(Clone, Copy)]
pub enum LimitKind {
    Call,
    Stack,
}
