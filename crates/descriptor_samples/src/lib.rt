// The three samples of a descriptor by their numbers: what a range states, and which samples are right (document 01, "Descriptor").
#![tactic(auto)]

mod limits;
mod sample;
mod samples;

pub use limits::Limits;
pub use sample::Sample;
pub use samples::Samples;

// The bytes of a descriptor.
pub const DESCRIPTOR_SIZE: usize = 76;
