//! The book of a run: the inputs of the instants so far, what their outputs say of declared cells, and the roots of the
//! next instant.
#![tactic(auto)]

mod book;

pub use book::Book;

#[cfg(test)]
mod tests;
