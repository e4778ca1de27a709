// The calls of document 01 as C sees them (include/sigbrol.h): each hands its numbers and buffers to the proved call and turns the answer
// into a reply. None has a `requires`: whatever is lent, the call ends in its result or in a refusal.
#![tactic(auto)]

pub mod cut;
pub mod jobs;
pub mod layouts;
pub mod no_fit;
pub mod pairs_of;
pub mod runs;
pub mod sheet;
pub mod strips;
pub mod texts;
