// A letter: what it does where it goes to, done or decided.

// An advert: answered or noted.
pub mod advert;
// A call: its sender goes on, and the word leaves.
pub mod call;
// An ended letter: the child leaves its parent's set, or the letter is forwarded or held.
pub mod ended;
// A mover letter: the task arrives.
pub mod mover;
// An offer letter: answered, carried, forwarded, held or dropped.
pub mod offer;
// What the rules of one channel see of what is lent.
mod site;
// A word letter: its receiver takes the word.
pub mod word;

ghost use Rattle.board.specs.Lent.{lent};
ghost use Rattle.board.specs.Rigs.{Opens, Opened, Opening};

use board::Board;
use board::act::{Act, posted};
use rules::message::Message;
use rules::rule::Posting;

// The letter m is opened.
pub fn deliver<'a>(
    codes: &'a [u32; 4096],
    users: &'a [u8; 1024],
    hintprocessors: &'a mut [u8; 768],
    hintmoves: &'a mut [u16; 768],
    heldprocessors: &'a mut [u8; 768],
    heldnumbers: &'a mut [u8; 768],
    notes: &'a mut [u8; 768],
    board: &'a mut Board,
    m: Message,
) -> Act
    requires { Opens codes.now users.now
        (lent hintprocessors.old hintmoves.old heldprocessors.old heldnumbers.old notes.old board.old)
        m }
    ensures { Opened codes.now users.now m
        (lent hintprocessors.old hintmoves.old heldprocessors.old heldnumbers.old notes.old board.old)
        result
        (lent hintprocessors.new hintmoves.new heldprocessors.new heldnumbers.new notes.new board.new) }
{
    match m {
        Message::Empty => posted(Posting::Nothing),
        Message::Offered(_, _, _) => offer::offer(
            codes,
            users,
            hintprocessors,
            hintmoves,
            heldprocessors,
            heldnumbers,
            board,
            m,
        ),
        Message::Advert(_, _, _) => advert::advert(codes, users, notes, board, m),
        Message::ReadyToReceive(_, _, _) => call::call(
            codes,
            users,
            hintprocessors,
            hintmoves,
            board,
            m,
        ),
        Message::Data(_, _, _) => word::word(codes, users, board, m),
        Message::Terminated(h, t) => ended::ended(users, board, h, t),
        Message::Migration(_, _) => mover::mover(
            users,
            hintprocessors,
            hintmoves,
            heldprocessors,
            heldnumbers,
            board,
            m,
        ),
    }
}

// What opening the letter m would say and post.
pub fn message_decided<'a>(
    codes: &'a [u32; 4096],
    users: &'a [u8; 1024],
    hintprocessors: &'a [u8; 768],
    hintmoves: &'a [u16; 768],
    heldprocessors: &'a [u8; 768],
    heldnumbers: &'a [u8; 768],
    notes: &'a [u8; 768],
    board: &'a Board,
    m: Message,
) -> Act
    requires { Opens codes.now users.now
        (lent hintprocessors.now hintmoves.now heldprocessors.now heldnumbers.now notes.now board.now)
        m }
    ensures { Opening codes.now users.now m
        (lent hintprocessors.now hintmoves.now heldprocessors.now heldnumbers.now notes.now board.now)
        result }
{
    match m {
        Message::Offered(_, _, _) => offer::offer_decided(
            codes,
            users,
            hintprocessors,
            hintmoves,
            heldprocessors,
            heldnumbers,
            board,
            m,
        ),
        Message::Advert(_, _, _) => advert::advert_decided(codes, users, notes, board, m),
        Message::ReadyToReceive(_, _, _) => call::call_decided(
            codes,
            users,
            hintprocessors,
            hintmoves,
            board,
            m,
        ),
        Message::Data(_, _, _) => word::word_decided(codes, users, board, m),
        Message::Terminated(h, t) => ended::ended_decided(users, board, h, t),
        _ => posted(Posting::Nothing),
    }
}
