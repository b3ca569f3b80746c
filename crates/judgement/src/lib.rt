//! Judgements: what a thing is well sorted with, or the first rule that it does not meet. The
//! definitions are in specs/, the laws in proofs/; the code only states them.
#![tactic(auto)]

mod laws;

pub use laws::judgement_laws;

#[cfg(test)]
mod tests;
