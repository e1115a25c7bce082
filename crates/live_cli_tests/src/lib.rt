//! Rows of the program `daplive`: what its words and an input come to, and devices that fail.
#![tactic(auto)]

#[cfg(test)]
mod rows;
#[cfg(test)]
mod tests;
