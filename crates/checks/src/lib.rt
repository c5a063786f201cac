// Examples run on the layers below: adapters nested in each other, shelves at their edges, texts that are refused. The crate has only tests; each is
// proved safe, and then run.
#![tactic(auto)]

#[cfg(test)]
mod shelves;
#[cfg(test)]
mod texts;
