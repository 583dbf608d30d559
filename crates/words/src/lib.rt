//! The words of the command line: what they ask for.
//!
//! The layer above may rely on this: `Words::of` gives what the words ask for, exactly where they have one of the
//! accepted forms, and the numbers of a form lie in their ranges. A form more is a variant more of `Words` and of
//! `Invocation`, an equation more of `words_of`, and a subcommand more of the command that `clap` is given.
#![tactic(auto)]

mod words;

pub use words::Words;
