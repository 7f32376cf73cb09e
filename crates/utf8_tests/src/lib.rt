// Letters read from bytes on examples: every border of the ranges, bytes cut off, and rows of letters.
#![tactic(auto)]

#[cfg(test)]
mod borders;
#[cfg(test)]
mod rows;
