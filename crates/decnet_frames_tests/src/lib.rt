//! Rows of capture files: what is written of each, whatever the pieces in which it comes, and devices that fail.
#![tactic(auto)]

#[cfg(test)]
mod rows;
#[cfg(test)]
mod tests;
