// Sets of numbers, by bits of 64-bit words: number f is bit f mod 64 of word f div 64.
//
// `Facts` is four words and `Steps` sixteen. Both go in and come back by value, and no function here
// has a `requires`: a number past the last bit is in no set, and words past a table's end hold
// nothing. The contracts say which set comes back, by the definitions of specs/Sets.antt;
// specs/Words.antt says which words a set is.
#![tactic(auto)]

mod bits;
mod members;
mod slices;

pub use bits::{Bits, Facts, Few, Steps};
pub use members::Members;
