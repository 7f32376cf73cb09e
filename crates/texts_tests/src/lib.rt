// Lines of text on examples: what is read, what is not, and what is written.
#![tactic(auto)]

#[cfg(test)]
mod read;
#[cfg(test)]
mod runs;
#[cfg(test)]
mod triples;
#[cfg(test)]
mod write;
