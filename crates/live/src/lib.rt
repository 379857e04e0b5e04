// The calls of a live rig beside step and dispatch: its start, and what is asked of it.
#![tactic(auto)]

// The panel of a live rig.
pub mod rig_panel;
// What is shown of a task of a live rig.
pub mod rig_views;
// Whether a live rig is at rest.
pub mod rest;
// The start of a live rig.
pub mod start;
// Bytes put into a lent output.
pub mod output;
