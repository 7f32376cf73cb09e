// Sort keys on examples: the numbers, runs of letters that are one, letters that weigh as two or three, the room that keys are
// written into, what is turned away, and names in UTF-8.
#![tactic(auto)]

#[cfg(test)]
mod expand;
#[cfg(test)]
mod expand_long;
#[cfg(test)]
mod expand_runs;
#[cfg(test)]
mod limits;
#[cfg(test)]
mod numbers;
#[cfg(test)]
mod room;
#[cfg(test)]
mod runs;
#[cfg(test)]
mod wide;
#[cfg(test)]
mod wide_runs;
