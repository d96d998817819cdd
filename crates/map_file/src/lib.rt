// A map file that is lent: its form, its records and the book of its names. The file is never written.
#![tactic(auto)]

pub mod book;
pub mod file;
pub mod form;
mod names;
pub mod record;
pub mod records;
