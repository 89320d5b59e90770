// Support for the example programs: the text of cases that they read, the tables and outputs that they look at, and the
// counts that they print.
#![tactic(auto)]

pub mod groups;
pub mod input;
pub mod outputs;
pub mod tables;
pub mod tally;
pub mod text;
