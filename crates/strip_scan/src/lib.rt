// Strips of pieces (document 01, 'Strips'). The pixels of a turned piece are read strip after strip, without a copy; what
// specs/Scan says of that is all that the calls above know of pixels.
#![tactic(auto)]

pub mod compare;
pub mod put;
pub mod scan;
