//! One instant of a program, made flat: its cells, the asks above its leaves, and its leaves, and the words in which
//! what is told of the cells is kept.
#![tactic(auto)]

mod asking;
mod collecting;
mod counting;
mod laws;
mod layout;
mod locals;
mod net;
mod opening;
mod parts;
mod seen;
mod walking;
mod words;

pub use asking::{Steps, ask_holds};
pub use laws::{
    few_tokens_law, net_limits_law, net_outputs_law, net_rests_law, one_net_law, parts_law,
    stratified_net_law,
};
pub use net::Net;
pub use opening::{MAX_LEAVES, MAX_ROOTS, NetFault, open_net};
pub use parts::Atom;
pub use seen::Seen;
pub use words::{
    How, Told, Words, declared_store, has, holds, open_words, put, reaches, runs, tell, value,
    words_store,
};

#[cfg(test)]
mod tests;
