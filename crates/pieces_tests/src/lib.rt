// Pieces on examples: runs of three and four letters found beside a plain look through them, places in lists, entries by their
// ranks, and letters that weigh as two or three.
#![tactic(auto)]

#[cfg(test)]
mod expand;
#[cfg(test)]
mod find;
#[cfg(test)]
mod list;
#[cfg(test)]
mod place;
#[cfg(test)]
mod ranked;
