// What each half hears at a view, and where a message goes.
// Calls take memories and a raw term length one by one and refuse what breaks a rule; a type for them would ask more of callers.

#![tactic(auto)]

mod find;
mod groups;
mod name;
mod parts;
mod picked;
mod route;
mod script;
mod split;
mod target;

pub use groups::Scenario;
pub use name::{Name, PublicKey, Seat};
pub use split::{view_partitions, view_route};
pub use target::SplitTarget;
