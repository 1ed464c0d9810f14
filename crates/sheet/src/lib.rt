// Sheets: grammars as lines of fixed columns, and the lines that planread prints.
#![tactic(auto)]

mod field;
pub mod listing;
mod numeral;
pub mod sheet;
