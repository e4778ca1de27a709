// One store of a job's strips with its starts (document 01, 'Strips'): filled, or compared with a lent one.
#![tactic(auto)]

pub mod compare;
pub mod fill;
