//! Rows of tests, read out of the texts of files: their input as values, and the lines of their answers.
#![tactic(auto)]

pub mod input;
pub mod lines;
pub mod names;
pub mod put_last;
pub mod rows;
pub mod seeds;
pub mod table;
pub mod values;
