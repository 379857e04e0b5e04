// The rules of one channel, each a function of the small records that it may touch.
#![tactic(auto)]

// Delivered: a call, a word letter, an ended letter and a mover.
pub mod messages;
// Delivered: an offer letter and an advert.
pub mod offers;
// What several rules leave: a call letter; both tasks as they were.
pub mod outcomes;
// A receive.
pub mod receive;
// A send.
pub mod send;
