// Tests of the kernel on values that an independent program computed from the rules.
// Buffers are arrays, as callers without a heap have them; what a call has to leave holds a mark.
#![tactic(auto)]

#[cfg(test)]
mod mixing;
#[cfg(test)]
mod opening;
#[cfg(test)]
mod piles;
#[cfg(test)]
mod refusals;
#[cfg(test)]
mod strand_calls;
#[cfg(test)]
mod table;
