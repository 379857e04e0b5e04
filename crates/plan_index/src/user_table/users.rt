// Who uses what: of channel c, at 4 c, its sender, its receiver, the next channel with the same receiver and the next with the same
// sender; of task t, at 640 + 4 t, its parent, the first channel that it receives on and the first that it sends on. The number 0 for
// none is the table's.
ghost use Rattle.std.specs.Prelude.{◌≡◌, ◌≤◌, get_or, length, replicate};
ghost use Rattle.plan.specs.Numbers.{task_id};
ghost use Rattle.plan_index.specs.user_table.Built.{with_parents, with_end, AtEnd, EndLinked, Few, Built};
ghost use Rattle.plan_index.specs.user_table.Users.{senders_of, receivers_of, parents_of, firsts_received, nexts_received, firsts_sent, nexts_sent};

use plan::{ChannelId, TaskId};

// The sending task of channel c.
#[tactic(auto, using(base::proofs::Tables::get_d_table), unfolding(crate::specs::user_table::Users::senders_of))]
pub fn sender(users: &[u8; 1024], c: ChannelId) -> TaskId
    requires { c.0 ≤ 128 }
    ensures { result ≡ task_id (get_or (senders_of users.now) c.0 0) }
{
    TaskId(users[4 * c.0 as usize])
}

// The receiving task of channel c.
#[tactic(auto, using(base::proofs::Tables::get_d_table), unfolding(crate::specs::user_table::Users::receivers_of))]
pub fn receiver(users: &[u8; 1024], c: ChannelId) -> TaskId
    requires { c.0 ≤ 128 }
    ensures { result ≡ task_id (get_or (receivers_of users.now) c.0 0) }
{
    TaskId(users[4 * c.0 as usize + 1])
}

// The parent of task t.
#[tactic(auto, using(base::proofs::Tables::get_d_table), unfolding(crate::specs::user_table::Users::parents_of))]
pub fn parent(users: &[u8; 1024], t: TaskId) -> TaskId
    requires { t.0 ≤ 64 }
    ensures { result ≡ task_id (get_or (parents_of users.now) t.0 0) }
{
    TaskId(users[640 + 4 * t.0 as usize])
}

// The first channel that task t receives on; 0 is none.
#[tactic(auto, using(base::proofs::Tables::get_d_table), unfolding(crate::specs::user_table::Users::firsts_received))]
pub fn first_received(users: &[u8; 1024], t: TaskId) -> u8
    requires { t.0 ≤ 64 }
    ensures { result ≡ get_or (firsts_received users.now) t.0 0 }
{
    users[640 + 4 * t.0 as usize + 1]
}

// The next channel after c with the same receiver; 0 is none.
#[tactic(auto, using(base::proofs::Tables::get_d_table), unfolding(crate::specs::user_table::Users::nexts_received))]
pub fn next_received(users: &[u8; 1024], c: u8) -> u8
    requires { c ≤ 128 }
    ensures { result ≡ get_or (nexts_received users.now) c 0 }
{
    users[4 * c as usize + 2]
}

// The first channel that task t sends on; 0 is none.
#[tactic(auto, using(base::proofs::Tables::get_d_table), unfolding(crate::specs::user_table::Users::firsts_sent))]
pub fn first_sent(users: &[u8; 1024], t: TaskId) -> u8
    requires { t.0 ≤ 64 }
    ensures { result ≡ get_or (firsts_sent users.now) t.0 0 }
{
    users[640 + 4 * t.0 as usize + 2]
}

// The next channel after c with the same sender; 0 is none.
#[tactic(auto, using(base::proofs::Tables::get_d_table), unfolding(crate::specs::user_table::Users::nexts_sent))]
pub fn next_sent(users: &[u8; 1024], c: u8) -> u8
    requires { c ≤ 128 }
    ensures { result ≡ get_or (nexts_sent users.now) c 0 }
{
    users[4 * c as usize + 3]
}

// The parents of the tasks up to 64 are stored.
fn put_parents<'a>(parents: &'a [u8; 129], users: &'a mut [u8; 1024])
    ensures { users.new ≡ with_parents parents.now 65 users.old }
{
    for t in 0..65 {
        users[640 + 4 * t] = parents[t];
    }
}

// Channel c has task t at one end, and goes before the channels that the task has there: the task goes to byte `end` of the channel, the
// channel that was first before to its byte `next`, and c to byte `first` of the task.
#[tactic(auto, unfolding(crate::specs::user_table::Built::with_end))]
fn put_end(users: &mut [u8; 1024], c: usize, t: u8, end: usize, first: usize, next: usize)
    requires { AtEnd c t end first next }
    ensures { users.new ≡ with_end users.old c t end first next }
{
    let at = 640 + 4 * t as usize + first;
    let old = users[at];
    users[at] = c as u8;
    users[4 * c + next] = old;
    users[4 * c + end] = t;
}

// The same where t may be none, 0: the first channel without a task so far is given and not in the table, and it is answered then. So a channel that
// nobody uses waits for no load of what the one before it stored.
fn link_end(
    users: &mut [u8; 1024],
    c: usize,
    t: u8,
    none: u8,
    end: usize,
    first: usize,
    next: usize,
) -> u8
    requires { AtEnd c t end first next × (length users.old ≡ 1024) }
    ensures { EndLinked users.old c t none end first next result users.new }
{
    if t == 0 {
        users[4 * c + next] = none;
        users[4 * c + end] = 0;
        return c as u8;
    }
    put_end(users, c, t, end, first, next);
    none
}

// The table of these senders, receivers and parents. Channel 0 is none, and is not linked.
pub fn build<'a>(
    senders: &'a [u8; 129],
    receivers: &'a [u8; 129],
    parents: &'a [u8; 129],
    users: &'a mut [u8; 1024],
)
    requires { (users.old ≡ replicate 1024 0) × Few senders.now receivers.now parents.now }
    ensures { Built senders.now receivers.now parents.now users.new }
{
    put_parents(parents, users);
    users[0] = senders[0];
    users[1] = receivers[0];
    let mut sent: u8 = 0;
    let mut received: u8 = 0;
    for c in (1..129).rev() {
        sent = link_end(users, c, senders[c], sent, 0, 2, 3);
        received = link_end(users, c, receivers[c], received, 1, 1, 2);
    }
    users[642] = sent;
    users[641] = received;
}
