// What a reader must believe: document 01's definitions (specs/), the laws that tie them together (proofs/), and the types that they
// share with the code. There is no function here.
#![tactic(auto)]

pub mod call_limit_tracker;
pub mod node;
pub mod parser_state;
