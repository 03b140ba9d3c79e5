// The scales of a channel, and of a layout's three channels, by the paper's numbers (document 01, "Codes and floats").
#![tactic(auto)]

mod channel;
mod channels;

pub use channel::known_scale;
pub use channels::{of_groups, of_points};
