// Asking again what the Rust module was asked: reading the lines of stored answers, and counting those that agree.
//
// A program says which kinds of questions it knows, and how one of each is asked; what the lines have in common is here.

#![tactic(auto)]

mod ask;
mod question;
mod round;
mod tally;
mod unasked;
mod words;

pub use ask::ask_all;
pub use question::Question;
pub use round::Round;
pub use unasked::Unasked;
pub use words::{Bar, are_next, read, read_while};

#[cfg(test)]
mod tests;
