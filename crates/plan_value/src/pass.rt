// The pass over the instructions of a plan, one after the other: 3 to 6, and who uses what.
ghost use Rattle.std.specs.Prelude.{◌≡◌, ◌≤◌, ◌<◌, ◌==◌, not, get_or};
ghost use Rattle.std.specs.List.{list_all};
ghost use Rattle.plan_value.specs.Firsts.{all_created};
ghost use Rattle.plan_value.specs.Marks.{create_mark, Entered};
ghost use Rattle.plan_value.specs.Ends.{Counted, EndEntered};
ghost use Rattle.plan_value.specs.Pass.{seen, start_pass, next_seen, pass_answer};

use crate::instruction::{Edition, is_allowed, is_channel_allowed};
use crate::marks::{create_fits, end_fits, kept, same, unpaired_then};
use plan::{CREATE, FINISH, Instruction, RECEIVE, Refusal, SEND, SET};

// An instruction where it stands: its task, and whether it is the last one there.
#[derive(Clone, Copy)]
pub struct Entry {
    pub task: u8,
    pub last: bool,
    pub instruction: Instruction,
}

// The pass over a plan of `tasks` tasks: whether no instruction is refused by 3; and then whether every
// finish is in order, every create so far, and every channel; and how many channels have one end so far.
#[derive(Clone, Copy)]
pub struct Pass {
    pub instructions: bool,
    // it stands between the flags: four in a row would be kept as one word, which is slower
    pub tasks: u8,
    pub finishes: bool,
    pub creates: bool,
    pub channels: bool,
    // no byte, for the same reason
    pub unpaired: usize,
}

// A task at an end of a channel: whether it may be there, and how many channels have one end then.
#[derive(Clone, Copy)]
struct End {
    fits: bool,
    unpaired: usize,
}

impl Pass {
    // With true the pass that has asked nothing yet, with false the one that has met a refused instruction.
    pub fn new(tasks: u8, instructions: bool) -> Pass
        ensures { result ≡ start_pass tasks instructions }
    {
        Pass {
            instructions: instructions,
            tasks: tasks,
            finishes: instructions,
            creates: instructions,
            channels: instructions,
            unpaired: 0,
        }
    }
}

// A create of task a by task t: the first task that creates it stays; whether this is in order.
fn enter_create<'a>(t: u8, a: usize, parents: &'a mut [u8; 129]) -> bool
    requires { a < 129 }
    ensures { Entered a t (create_mark (get_or parents.old a 0) t a) parents.old result parents.new }
{
    let old = parents[a];
    let fits = create_fits(old, t, a);
    parents[a] = kept(old, t);
    fits
}

// Task t at an end of channel a, where n channels have one end before: the first task at this end stays.
fn enter_end<'a>(t: u8, a: usize, n: usize, ends: &'a mut [u8; 129], others: &'a [u8; 129]) -> End
    requires { (1 ≤ t) × (1 ≤ a) × (a < 129) × Counted n ends.old others.now }
    ensures { EndEntered a t ends.old others.now result ends.new }
{
    let old = ends[a];
    let other = others[a];
    if old != 0 {
        return End {
            fits: end_fits(old, other, t),
            unpaired: n,
        };
    }
    ends[a] = t;
    End {
        fits: end_fits(old, other, t),
        unpaired: unpaired_then(n, other),
    }
}

// One instruction more. The tables take, by argument, the first task that creates, sends and receives. Sends and receives are told by the
// kind and the second byte at once, and before the others: with a match over the kinds the check of the largest plan took
// 38 of 100 instructions more.
pub fn next<'a>(
    p: Pass,
    e: Edition,
    x: Entry,
    parents: &'a mut [u8; 129],
    senders: &'a mut [u8; 129],
    receivers: &'a mut [u8; 129],
) -> Pass
    requires { (p.tasks ≤ 64) × (1 ≤ x.task) × Counted p.unpaired senders.old receivers.old }
    ensures { seen result parents.new senders.new receivers.new
        ≡ next_seen e x (seen p parents.old senders.old receivers.old) }
{
    let i = x.instruction;
    let opcode = i.opcode;
    let level = i.level;
    let a = base::wide16(i.operand);
    let t = x.task;
    let head = base::wide8(opcode) + 256 * base::wide8(level);
    let going = base::both(p.finishes, !x.last);
    if head == 4 {
        if !is_channel_allowed(e, SEND, a) {
            return Pass::new(p.tasks, false);
        }
        let sent = enter_end(t, a, p.unpaired, senders, receivers);
        let channels = base::both(p.channels, sent.fits);
        return Pass {
            instructions: p.instructions,
            tasks: p.tasks,
            finishes: going,
            creates: p.creates,
            channels: channels,
            unpaired: sent.unpaired,
        };
    }
    if head == 5 {
        if !is_channel_allowed(e, RECEIVE, a) {
            return Pass::new(p.tasks, false);
        }
        let received = enter_end(t, a, p.unpaired, receivers, senders);
        let channels = base::both(p.channels, received.fits);
        return Pass {
            instructions: p.instructions,
            tasks: p.tasks,
            finishes: going,
            creates: p.creates,
            channels: channels,
            unpaired: received.unpaired,
        };
    }
    if opcode >= SET {
        if !is_allowed(e, p.tasks, i) {
            return Pass::new(p.tasks, false);
        }
        return Pass {
            instructions: p.instructions,
            tasks: p.tasks,
            finishes: going,
            creates: p.creates,
            channels: p.channels,
            unpaired: p.unpaired,
        };
    }
    if !is_allowed(e, p.tasks, i) {
        return Pass::new(p.tasks, false);
    }
    if opcode == CREATE {
        let creates = base::both(p.creates, enter_create(t, a, parents));
        return Pass {
            instructions: p.instructions,
            tasks: p.tasks,
            finishes: going,
            creates: creates,
            channels: p.channels,
            unpaired: p.unpaired,
        };
    }
    let finish = opcode == FINISH;
    let finishes = base::both(p.finishes, same(finish, x.last));
    Pass {
        instructions: p.instructions,
        tasks: p.tasks,
        finishes: finishes,
        creates: p.creates,
        channels: p.channels,
        unpaired: p.unpaired,
    }
}

// None of them is 0.
pub fn are_some(numbers: &[u8]) -> bool
    ensures { result ≡ list_all (λ n. not (n == 0)) numbers.now }
{
    numbers.iter().all(|n| *n != 0)
}

// Each task but the first has a parent.
fn all_created(tasks: u8, parents: &[u8; 129]) -> bool
    requires { (1 ≤ tasks) × (tasks ≤ 64) }
    ensures { result ≡ all_created tasks parents.now }
{
    are_some(&parents[2..tasks as usize + 1])
}

// What the pass over all instructions of a plan and the tables that it has filled say: 3 to 6, in the
// paper's order.
pub fn answer(p: Pass, parents: &[u8; 129]) -> Result<(), Refusal>
    requires { (1 ≤ p.tasks) × (p.tasks ≤ 64) }
    ensures { result ≡ pass_answer p parents.now }
{
    if !p.instructions {
        return Err(Refusal::BadInstruction);
    }
    if !p.finishes {
        return Err(Refusal::BadFinish);
    }
    if !p.creates {
        return Err(Refusal::BadCreate);
    }
    if !all_created(p.tasks, parents) {
        return Err(Refusal::BadCreate);
    }
    if !base::both(p.channels, p.unpaired == 0) {
        return Err(Refusal::BadChannel);
    }
    Ok(())
}
