// Lists on examples: what is found in them, what is wrong with them, lists put in order, names and tables that grow, names in
// UTF-8, and letters that weigh as two or three.
#![tactic(auto)]

#[cfg(test)]
mod book;
#[cfg(test)]
mod expanded;
#[cfg(test)]
mod expansions;
#[cfg(test)]
mod fault;
#[cfg(test)]
mod find;
#[cfg(test)]
mod grown;
#[cfg(test)]
mod lent;
#[cfg(test)]
mod made;
#[cfg(test)]
mod wide;
#[cfg(test)]
mod widened;
