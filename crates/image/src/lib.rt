// A rig as bytes that a caller lends and keeps: what the layout is stands in specs/Image.
#![tactic(auto)]

// How many bytes a rig has.
pub const RIG_SIZE: usize = 34120;
