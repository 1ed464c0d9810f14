// A line of the grammar: "kind, a, b, c as signed 32-bit numbers". The reading and the code share it.
#[derive(Clone, Copy)]
pub struct Node {
    pub kind: i32,
    pub a: i32,
    pub b: i32,
    pub c: i32,
}
