// What a rig keeps beside its tasks and its mail.
use rules::system::{Parents, Store};

// What is kept for channels, and for parents.
#[derive(Clone, Copy)]
pub struct Kept {
    pub store: Store,
    pub parents: Parents,
}
