// Who uses what, in one table, and the channels of each task, linked.
pub mod users;
