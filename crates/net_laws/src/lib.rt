//! Laws of the words of a net: how they rise, which words are an instant's last, and when some of them are. Nothing here
//! is to be run; the laws stand on the contracts.
#![tactic(auto)]

mod laws;

pub use laws::{entailed_law, final_words_law, rest_law, way_law, words_rise_law};
