// A program image as people read it: one line to a word, and one line at the end.
#![tactic(auto)]

pub mod errors;
pub mod images;
pub mod lines;
pub mod tallies;
#[cfg(test)]
mod tests;

pub use errors::ImageError;
pub use images::{ending, refused_words, word_count};
pub use lines::{Line, write_listing};
pub use tallies::Tally;
