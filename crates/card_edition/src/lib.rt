// Editions of the card, and what each knows of access (document 01, "Card").
#![tactic(auto)]

pub mod access;
pub mod edition;
