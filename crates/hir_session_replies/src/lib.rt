//! What is told where a session refuses something: the reply to each error.
#![tactic(auto)]

pub mod replies;
