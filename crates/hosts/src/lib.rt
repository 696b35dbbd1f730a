//! Hosts: what holds the cells of the devices.
#![tactic(auto)]

mod cells;
mod host;
mod table_host;
#[cfg(test)]
mod tests;
mod word_host;

pub use host::Host;
pub use table_host::TableHost;
pub use word_host::WordHost;
