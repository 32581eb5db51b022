//! A check of a password by a checkpassword program: the program is told a user's name and password, and says by its
//! status and its reply whether they are right (`specs/Child.antt`).
#![tactic(auto)]

mod child;
mod reply;

pub use child::check;
