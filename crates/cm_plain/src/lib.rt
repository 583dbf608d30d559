//! Plain data: texts as lists of characters, values of truth, whole numbers, texts and lists of values, shapes of values,
//! and effects that are kept to be sent again.
//!
//! Contracts see a `Str` as its list of characters and a `Plain` as an ordinary enum whose lists are lists of data, so
//! that `≡` on what is built of them is equality of contents. A `Plain` is at most 16 deep, which its type keeps. Which
//! values a `Shape` holds and which shapes fit into which are two tables, which the code answers exactly.
//! Reading and comparing take no memory.
#![tactic(auto)]

mod kept_effect;
mod plain;
mod shape;
mod text;
mod words;

pub use kept_effect::{KeptEffect, KeptMap};
pub use plain::{MAX_DEPTH, Plain, PlainList, TooDeep};
pub use shape::{ItemShape, Shape};
pub use text::Str;
pub use words::Words;
