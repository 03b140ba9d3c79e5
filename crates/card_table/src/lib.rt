// A card's facts, the edition that they need, and its 32 bytes (document 01, "Card").
#![tactic(auto)]

mod card;
mod facts;

pub use card::Card;
pub use facts::Facts;
