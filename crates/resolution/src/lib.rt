//! Resolution as a function: what a base comes to over a tree and definitions, and lemmas that it is what
//! `configuration` answers. The crate has definitions and lemmas, and no code of its own.
//!
//! A layer above may rely on this: the circle of a graph is a function of its edges, and so the configuration of a base,
//! or why there is none, is a function of the tree, the definitions and the base; the relations that the contracts below
//! give have that function's answer and no other, but for the order of the dependencies, which may be any.
#![tactic(auto)]
