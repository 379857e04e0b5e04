// What a run lends, five tables and a board of 1094 numbers: what is read of it and stored.
#![tactic(auto)]

// What a step says: its answer, what it received and what it posts.
pub mod act;
// What is kept for a channel at a desk, put together of what was read.
pub mod cell;
// Instructions and numbers of sends looked up.
pub mod fetch;
// A channel's own entry and a task as numbers of 64 bits, and back.
pub mod packing;
// The sets of ready tasks.
pub mod ready;
// A rule for each channel of a task that is born, leaves or arrives.
pub mod sweeps;

ghost use Rattle.std.specs.Prelude.{◌≡◌, ◌≤◌, ◌<◌, ◌-◌, ◌+◌, ◌*◌, set};
ghost use Rattle.rules.specs.Starts.{pointing};
ghost use Rattle.rules.specs.Systems.{entry_index, parent_index, read_channel, task_in};
ghost use Rattle.rig_parts.specs.Sweeps.{parent_in};
ghost use Rattle.board.specs.Lent.{Whole, AtCell, AtParent, tasks_on, channels_on, parents_on, hint_entry, held_entry, hint_in, held_in, note_in, HintPut, HeldPut, TaskPut, SameAbove, SameStanding, ChannelPut, ParentPut, travels};

use plan::{ChannelId, ProcessorId, TaskId};
use rules::channel::{Channel, Hint, Offer};
use rules::system::ParentEntry;
use rules::task::Task;

// Channel c's own entry at c - 1, task t at 126 + 2 t and behind it its children, its word at 255 + t. Entry i of what desks keep
// for parents at 320 + 2 i: a pointer, and behind it the children that are held. Desk d's set of ready tasks at 1087 + d.
pub type Board = [u64; 1094];

// Where channel c's own entry is.
fn channel_index(c: ChannelId) -> usize
    requires { (1 ≤ c.0) × (c.0 ≤ 128) }
    ensures { (result ≡ c.0 - 1) × (result < 128) }
{
    c.0 as usize - 1
}

// Where the entry of desk d is for the channel whose own entry is at k.
fn entry_beside(d: ProcessorId, k: usize) -> usize
    requires { (1 ≤ d.0) × (d.0 ≤ 6) × (k < 128) }
    ensures { (result ≡ 128 * (d.0 - 1) + k) × (result < 768) }
{
    128 * (d.0 as usize - 1) + k
}

// Where the entry of desk d and channel c is.
fn entry_index(d: ProcessorId, c: ChannelId) -> usize
    requires { AtCell d c }
    ensures { (result ≡ entry_index d c) × (result < 768) }
{
    entry_beside(d, channel_index(c))
}

// Task t; 0 is none.
pub fn task_at(board: &Board, t: TaskId) -> Task
    requires { t.0 ≤ 64 }
    ensures { result ≡ task_in (tasks_on board.now) t }
{
    if t.0 == 0 {
        return crate::fetch::no_task();
    }
    let n = t.0 as usize;
    let at = 126 + 2 * n;
    crate::packing::task_of(board[at], board[at + 1], board[255 + n])
}

// Task t becomes x, where there is such a task.
pub fn put_task(board: &mut Board, t: TaskId, x: Task)
    requires { (t.0 ≤ 64) × Whole board.old }
    ensures { TaskPut t x board.old board.new }
{
    if t.0 != 0 {
        let n = t.0 as usize;
        let at = 126 + 2 * n;
        let old = board[at];
        let new = crate::packing::task_word(x);
        board[at] = new;
        board[at + 1] = x.children;
        board[255 + n] = crate::packing::word_number(x.word);
        crate::ready::put_ready(board, t, old, new);
    }
}

// Task t becomes x, which stands as it did, and whose word is as it was above level 0: of its number the other levels stay where they
// are, and so do the sets of ready tasks.
pub fn put_first_level(board: &mut Board, t: TaskId, x: Task)
    requires { (1 ≤ t.0) × (t.0 ≤ 64) × Whole board.old × SameAbove (task_in (tasks_on board.old) t).word x.word × SameStanding (task_in (tasks_on board.old) t) x }
    ensures { TaskPut t x board.old board.new }
{
    let n = t.0 as usize;
    let at = 126 + 2 * n;
    let v = board[255 + n];
    board[at] = crate::packing::task_word(x);
    board[at + 1] = x.children;
    board[255 + n] = crate::packing::with_first_level(v, x.word.0);
}

// The own entry of a channel, at k.
fn channel_entry(board: &Board, k: usize) -> Channel
    requires { k < 128 }
    ensures { result ≡ read_channel (channels_on board.now) k }
{
    crate::packing::channel_of(board[k])
}

// The own entry of a channel, at k, becomes y.
fn put_channel_entry(board: &mut Board, k: usize, y: Channel)
    requires { (k < 128) × Whole board.old }
    ensures { ChannelPut k y board.old board.new }
{
    board[k] = crate::packing::channel_word(y);
}

// The travelling pointer of the channel whose own entry is at k.
fn travelling_entry(board: &Board, k: usize) -> Hint
    requires { k < 128 }
    ensures { result ≡ (read_channel (channels_on board.now) k).travelling }
{
    crate::packing::hint_of(board[k])
}

// The travelling pointer of the channel whose own entry is at k becomes h; the rest of the entry stays.
fn put_travelling_entry(board: &mut Board, k: usize, h: Hint)
    requires { (k < 128) × Whole board.old }
    ensures { ChannelPut k (travels (read_channel (channels_on board.old) k) h) board.old board.new }
{
    let v = board[k];
    board[k] = crate::packing::with_travelling(v, h);
}

// Channel c's own entry.
pub fn channel_at(board: &Board, c: ChannelId) -> Channel
    requires { (1 ≤ c.0) × (c.0 ≤ 128) }
    ensures { result ≡ read_channel (channels_on board.now) (c.0 - 1) }
{
    channel_entry(board, channel_index(c))
}

// Channel c's own entry becomes y.
pub fn put_channel(board: &mut Board, c: ChannelId, y: Channel)
    requires { (1 ≤ c.0) × (c.0 ≤ 128) × Whole board.old }
    ensures { ChannelPut (c.0 - 1) y board.old board.new }
{
    put_channel_entry(board, channel_index(c), y);
}

// The pointer at i.
fn hint_entry<'a>(hintprocessors: &'a [u8; 768], hintmoves: &'a [u16; 768], i: usize) -> Hint
    requires { i < 768 }
    ensures { result ≡ hint_entry hintprocessors.now hintmoves.now i }
{
    Hint {
        processor: ProcessorId(hintprocessors[i]),
        moves: hintmoves[i],
    }
}

// The pointer at i becomes h.
fn put_hint_entry<'a>(
    hintprocessors: &'a mut [u8; 768],
    hintmoves: &'a mut [u16; 768],
    i: usize,
    h: Hint,
)
    requires { i < 768 }
    ensures { HintPut i h hintprocessors.old hintmoves.old hintprocessors.new hintmoves.new }
{
    hintprocessors[i] = h.processor.0;
    hintmoves[i] = h.moves;
}

// The held offer at i.
fn held_entry<'a>(heldprocessors: &'a [u8; 768], heldnumbers: &'a [u8; 768], i: usize) -> Offer
    requires { i < 768 }
    ensures { result ≡ held_entry heldprocessors.now heldnumbers.now i }
{
    Offer {
        processor: ProcessorId(heldprocessors[i]),
        number: heldnumbers[i],
    }
}

// The held offer at i becomes o.
fn put_held_entry<'a>(
    heldprocessors: &'a mut [u8; 768],
    heldnumbers: &'a mut [u8; 768],
    i: usize,
    o: Offer,
)
    requires { i < 768 }
    ensures { HeldPut i o heldprocessors.old heldnumbers.old heldprocessors.new heldnumbers.new }
{
    heldprocessors[i] = o.processor.0;
    heldnumbers[i] = o.number;
}

// The pointer of desk d for channel c.
pub fn hint_at<'a>(
    hintprocessors: &'a [u8; 768],
    hintmoves: &'a [u16; 768],
    d: ProcessorId,
    c: ChannelId,
) -> Hint
    requires { AtCell d c }
    ensures { result ≡ hint_in hintprocessors.now hintmoves.now d c }
{
    hint_entry(hintprocessors, hintmoves, entry_index(d, c))
}

// The pointer of desk d for channel c becomes h.
pub fn put_hint<'a>(
    hintprocessors: &'a mut [u8; 768],
    hintmoves: &'a mut [u16; 768],
    d: ProcessorId,
    c: ChannelId,
    h: Hint,
)
    requires { AtCell d c }
    ensures { (hintprocessors.new ≡ set hintprocessors.old (entry_index d c) h.processor.0) × (hintmoves.new ≡ set hintmoves.old (entry_index d c) h.moves) }
{
    put_hint_entry(hintprocessors, hintmoves, entry_index(d, c), h);
}

// The held offer of desk d for channel c.
pub fn held_at<'a>(
    heldprocessors: &'a [u8; 768],
    heldnumbers: &'a [u8; 768],
    d: ProcessorId,
    c: ChannelId,
) -> Offer
    requires { AtCell d c }
    ensures { result ≡ held_in heldprocessors.now heldnumbers.now d c }
{
    held_entry(heldprocessors, heldnumbers, entry_index(d, c))
}

// The held offer of desk d for channel c becomes o.
pub fn put_held<'a>(
    heldprocessors: &'a mut [u8; 768],
    heldnumbers: &'a mut [u8; 768],
    d: ProcessorId,
    c: ChannelId,
    o: Offer,
)
    requires { AtCell d c }
    ensures { (heldprocessors.new ≡ set heldprocessors.old (entry_index d c) o.processor.0) × (heldnumbers.new ≡ set heldnumbers.old (entry_index d c) o.number) }
{
    put_held_entry(heldprocessors, heldnumbers, entry_index(d, c), o);
}

// The noted advert of desk d for channel c.
pub fn note_at(notes: &[u8; 768], d: ProcessorId, c: ChannelId) -> ProcessorId
    requires { AtCell d c }
    ensures { result ≡ note_in notes.now d c }
{
    let i = entry_index(d, c);
    ProcessorId(notes[i])
}

// The noted advert of desk d for channel c becomes n.
pub fn put_note(notes: &mut [u8; 768], d: ProcessorId, c: ChannelId, n: ProcessorId)
    requires { AtCell d c }
    ensures { notes.new ≡ set notes.old (entry_index d c) n.0 }
{
    let i = entry_index(d, c);
    notes[i] = n.0;
}

// Where the entry of desk d for parent t is; for no task, where that for task 1 is.
fn parent_index(d: ProcessorId, t: TaskId) -> usize
    requires { AtParent d t }
    ensures { (result ≡ parent_index d t) × (result < 384) }
{
    let row = 64 * (d.0 as usize - 1);
    if t.0 == 0 {
        return row;
    }
    row + (t.0 as usize - 1)
}

// What desk d keeps for parent t.
pub fn parent_at(board: &Board, d: ProcessorId, t: TaskId) -> ParentEntry
    requires { AtParent d t }
    ensures { result ≡ parent_in (parents_on board.now) d t }
{
    let at = 320 + 2 * parent_index(d, t);
    ParentEntry {
        hint: crate::packing::hint_of(board[at]),
        held: board[at + 1],
    }
}

// What desk d keeps for parent t becomes e.
pub fn put_parent(board: &mut Board, d: ProcessorId, t: TaskId, e: ParentEntry)
    requires { (AtParent d t) × Whole board.old }
    ensures { ParentPut d t e board.old board.new }
{
    let at = 320 + 2 * parent_index(d, t);
    board[at] = crate::packing::hint_word(e.hint);
    board[at + 1] = e.held;
}

// The pointer of desk d for parent t becomes h; the children that are held stay.
pub fn point_parent(board: &mut Board, d: ProcessorId, t: TaskId, h: Hint)
    requires { (AtParent d t) × Whole board.old }
    ensures { ParentPut d t (pointing (parent_in (parents_on board.old) d t) h) board.old board.new }
{
    let at = 320 + 2 * parent_index(d, t);
    board[at] = crate::packing::hint_word(h);
}
