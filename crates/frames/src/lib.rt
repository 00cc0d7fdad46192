// Frames of samples, and a window of two frames that walks over an input.
#![tactic(auto)]

pub mod frame;
pub mod window;
