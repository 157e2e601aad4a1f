//! The lines of a script: which commands there are, how each is spelled, and what each line asks for.
#![tactic(auto)]

mod command;
mod parsing;
mod script;

pub use command::{Command, Fill, Fills, Request, Write, Writes};
pub use parsing::parse;
pub use script::commands;
