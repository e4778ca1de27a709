// The reader of a job text: document 01, 'Job text' and 'When a call says no', reading a job; document 02, points 4 and 6, its versions.
#![tactic(auto)]

mod reader;

pub use reader::read_job;
