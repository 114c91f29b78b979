// What a core stands on: its description, and the stores that its program is fetched from.
#![tactic(auto)]

pub mod description;
pub mod errors;
pub mod joined_store;
pub mod number_store;
pub mod numbers;
pub mod store;
#[cfg(test)]
mod tests;

pub use description::CoreDescription;
pub use errors::StoreError;
pub use joined_store::JoinedStore;
pub use number_store::{ByteStore, NumberStore, WordStore};
pub use numbers::Numbers;
pub use store::Store;
