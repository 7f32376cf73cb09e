// Tables of weights on examples: every refusal with its place, lookups, filling, longer runs, letters that weigh as two or three,
// and tables made from records.
#![tactic(auto)]

#[cfg(test)]
mod excess;
#[cfg(test)]
mod expand;
#[cfg(test)]
mod expand_records;
#[cfg(test)]
mod fill;
#[cfg(test)]
mod hold;
#[cfg(test)]
mod longs;
#[cfg(test)]
mod look;
#[cfg(test)]
mod most;
#[cfg(test)]
mod records;
#[cfg(test)]
mod refuse;
#[cfg(test)]
mod wide;
