// Campaigns: the cases of a counted plan, drawn up from words.
// Rank and ticket memory are handed in one by one, since the caller keeps the one and lends the other to the campaign.

#![tactic(auto)]

mod deals;
mod listing;
mod opening;
mod ticket;

pub use deals::deals_stand;
pub use opening::{OpenRefused, Opened, open_campaign};
pub use ticket::Ticket;
