// A rig in lent bytes: a step, a call of a dispatcher, and what is asked of it.
#![tactic(auto)]

// The bytes of a rig opened.
pub mod open;
// What the types of lent numbers tell of them.
mod ranges;
// The letter that a step delivers.
mod letter;
// A step on what is lent and on the mail.
pub mod make;
// One step of a rig in bytes.
pub mod step;
// The letters of the mail, in the bytes of a rig.
pub mod mail;
// The two turns of a dispatcher's call, on what is lent.
pub mod call;
// A call of a desk's dispatcher on a rig in bytes.
pub mod desk_call;
// The panel's counts of a rig in bytes.
pub mod counts;
// A task of a rig in bytes.
pub mod found;
// Whether a rig in bytes is at rest.
pub mod rest;
// The start of a rig in bytes.
pub mod start;
// A received word's record.
pub mod record;
// A number that stands for a desk or a task.
pub mod given;
