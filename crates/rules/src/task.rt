// A task as the rig keeps it.
ghost use Rattle.std.specs.Prelude.{◌≡◌, ◌<◌};
ghost use Rattle.rules.specs.Tasks.{with_state, born, departed, arrived};

use crate::channel::Hint;
use plan::{ProcessorId, Word};

// "a state (unborn, ready, waiting, sending, receiving, moving, done)"
#[derive(Clone, Copy, PartialEq, Eq)]
pub enum TaskState {
    Unborn,
    Ready,
    Waiting,
    Sending,
    Receiving,
    Moving,
    Done,
}

// "A task has a state .., a desk, a place, a word (0 at birth), .. a move count (1 at birth) and a 64-bit set of living children,
// bit t−1 for task t."; "the child's own" pointer, "which it keeps unchanged from its birth in place of the desk of birth";
// "A task that met this .. carries a mark": it met a sum over the top.
#[derive(Clone, Copy)]
pub struct Task {
    pub state: TaskState,
    // its desk, 0 where it has none
    pub processor: ProcessorId,
    // its place: the number of the next instruction, from 1
    pub pc: u8,
    // its own pointer to its parent
    pub origin: Hint,
    pub word: Word,
    // its mark
    pub overflow: bool,
    // its move count
    pub moves: u16,
    pub children: u64,
}

// "move, birth and arrival as methods by value": each hands the record back.
impl Task {
    // The record in another state.
    pub fn with_state(mut self, s: TaskState) -> Task
        ensures { result ≡ with_state self s }
    {
        self.state = s;
        self
    }

    // Birth at a desk with a pointer to its parent, whatever the record was.
    pub fn birth(mut self, at: ProcessorId, origin: Hint) -> Task
        ensures { result ≡ born at origin }
    {
        self.state = TaskState::Ready;
        self.processor = at;
        self.pc = 1;
        self.origin = origin;
        self.word = Word(0, 0, 0, 0);
        self.overflow = false;
        self.moves = 1;
        self.children = 0;
        self
    }

    // "Its count goes up by one"; a count of 9,999 is refused before, by 18.
    pub fn departure(mut self) -> Task
        requires { self.moves < 9999 }
        ensures { result ≡ departed self }
    {
        self.moves += 1;
        self.processor = ProcessorId(0);
        self.with_state(TaskState::Moving)
    }

    // Arrival at desk d.
    pub fn arrival(mut self, d: ProcessorId) -> Task
        ensures { result ≡ arrived self d }
    {
        self.processor = d;
        self.with_state(TaskState::Ready)
    }
}
