//! Texts that are made of words and numbers, one after the other.
//!
//! A contract says which words a call appended. Texts that were appended in parts are told together by the lemma
//! `more_words` of `proofs/Words.antt`.
//! Proved: the octets that each call appends, or want of memory.
#![tactic(auto)]

mod writing;

pub use writing::{write_count, write_words};
