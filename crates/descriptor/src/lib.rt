// A descriptor: 76 bytes that tell a layout, read and written (document 01, "Descriptor").
#![tactic(auto)]

pub use descriptor_reader::read;
pub use descriptor_writer::write;
pub use refusal::Refusal;
