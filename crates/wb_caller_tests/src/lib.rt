//! Callers that the prover accepts, of the calls that ask for something and that no other crate
//! makes: `order`, `relay`, `meet`, and `gaps` of a board. So what they ask for can be met, by
//! threads of one's own too, and can be met again after each call. What the calls answer is tested
//! in `tests/value_cases`.
#![tactic(auto)]

#[cfg(test)]
mod ordering;
#[cfg(test)]
mod relaying;
