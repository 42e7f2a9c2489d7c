//! The print of a file, its length and its SHA-256 digest, made piece by piece, and a digest's text.
#![tactic(auto)]

mod hasher;
mod print;

pub use hasher::Hasher;
pub use print::{Print, digits_tell_digests, print_read, print_text};
