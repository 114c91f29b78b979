// Jobs, and programs in stores of each make, with verdicts worked out by hand. It holds tests alone.
#![tactic(auto)]

#[cfg(test)]
mod admitted;
#[cfg(test)]
mod drafts;
#[cfg(test)]
mod lines;
#[cfg(test)]
mod opcodes;
#[cfg(test)]
mod order;
#[cfg(test)]
mod sizes;
#[cfg(test)]
mod stores;
#[cfg(test)]
mod tables;
