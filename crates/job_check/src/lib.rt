// A lent job: the check that every call makes of it first, and the test of a box that it shares with the reader of a job text.
#![tactic(auto)]

mod lent;

pub use lent::{box_tight, check_job, pixel_start};
