// The weights of the color equations by primaries. The equations, and what a converted line is, stand in specs/.
#![tactic(auto)]

mod weights;

pub use weights::Weights;
