//! The book of accounts: how many sessions of each account are open, against its cap, and the sums
//! of what the sessions that ended were sent and lost.
//!
//! `Book` is an object of turns: sessions enter an account and leave it by `BookCall`. The laws of
//! its histories stand beside it.
#![tactic(auto)]

mod account;
mod book;
mod call;
pub mod laws;

pub use account::Sum;
pub use book::Book;
pub use call::{BookAnswer, BookCall};
