//! The answers for program databases whose bytes are known, from the definitions and from the
//! program's calls; and what comes of the program's arguments. Also tests of formatters and
//! contexts that no recorded case can make, and of the drop-in for `llvm-symbolizer`.
//!
//! Tests may be added. An expected value comes from the format, never from this repository's code.
#![tactic(auto)]

#[cfg(test)]
mod addr2line;
#[cfg(test)]
mod ahead;
#[cfg(test)]
mod calls;
#[cfg(test)]
mod definitions;
#[cfg(test)]
mod files;
#[cfg(test)]
mod laws;
#[cfg(test)]
mod limits;
#[cfg(test)]
mod llvm;
#[cfg(test)]
mod on_demand;
#[cfg(test)]
mod sizes;
#[cfg(test)]
mod streams;
#[cfg(test)]
mod watched;
#[cfg(test)]
mod words;
#[cfg(test)]
mod writes;
