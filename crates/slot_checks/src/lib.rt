// Examples run through slots: the published tables after each of their passes, every refusal of a slot, both entry kinds. The crate has only tests;
// each is proved safe, and then run.
#![tactic(auto)]

#[cfg(test)]
mod rounds;
#[cfg(test)]
mod texts;
