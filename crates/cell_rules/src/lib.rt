// What is kept for one channel at a desk, and each change of it.
#![tactic(auto)]

// What an offer, an advert, a call and a word change.
pub mod change;
// One field changed.
pub mod fields;
// Which of two pointers, offers or adverts is kept; what stands for none.
pub mod order;
// What the number called tells.
pub mod test;
