// Files of calls: what a file asks of a library, made by one replay, and all that is printed of it.
#![tactic(auto)]

mod decode;
pub mod form;
pub mod session;
