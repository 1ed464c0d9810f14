// The engine: stack, token queue, attempts, evaluation and run.
#![tactic(auto)]

mod areas;
mod attempts;
mod conclude;
mod endings;
mod entry;
mod leaves;
mod node;
mod parser_state;
mod queueable_token;
mod rule;
mod setting;
mod spine;
mod stack;
mod stack_match;
mod stack_state;
pub mod state;
mod terminals;
