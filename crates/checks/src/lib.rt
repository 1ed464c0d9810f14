// What is tested before a run and before a call: the grammar and the run's other inputs (tests 4 to 9 and 18), and the entry of a
// combinator. Every public function is total.
#![tactic(auto)]

pub mod call_limit_tracker;
pub mod grammar;
pub mod node;
mod nullable;
pub mod packed;
