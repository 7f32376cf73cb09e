// Names compared on examples, where rows stand to what is asked, what a newer table keeps, runs of letters that are one, letters
// that weigh as two or three, and names in UTF-8.
#![tactic(auto)]

#[cfg(test)]
mod compare;
#[cfg(test)]
mod entries;
#[cfg(test)]
mod expansions;
#[cfg(test)]
mod newer;
#[cfg(test)]
mod newer_expansions;
#[cfg(test)]
mod newer_runs;
#[cfg(test)]
mod runs;
#[cfg(test)]
mod standing;
#[cfg(test)]
mod wide;
#[cfg(test)]
mod wide_runs;
