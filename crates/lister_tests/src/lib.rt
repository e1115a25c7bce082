//! Rows of packets: what the lister makes of them, and memory that is refused.
#![tactic(auto)]

#[cfg(test)]
mod tests;
