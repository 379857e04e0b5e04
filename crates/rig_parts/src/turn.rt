// What a step leaves.
use crate::kept::Kept;
use rules::message::Network;
use rules::step::Report;
use rules::system::TaskTable;

// What a step leaves: its report, and the parts of the rig then.
#[derive(Clone, Copy)]
pub struct Turn {
    pub report: Report,
    pub tasks: TaskTable,
    pub network: Network,
    pub kept: Kept,
}
