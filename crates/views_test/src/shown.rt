// What a view shows, compared with a record.
use crate::record::View;
use plan::TaskId;
use rules::system::System;
use rules::view::TabletView;

// The states are numbered in their order, from 0.
fn is_tablet(v: TabletView, expected: View) -> bool {
    v.task == expected.task
        && v.state as u8 == expected.state
        && v.processor == expected.processor
        && v.pc == expected.pc
}

// A tablet shows this of the task.
pub fn tablet_shows(r: System, expected: View, t: TaskId) -> bool {
    match views::tablet(r, t) {
        Ok(v) => is_tablet(v, expected),
        Err(_) => false,
    }
}

// The driver shows this of it, and counts the children.
pub fn driver_shows(r: System, expected: View, t: TaskId) -> bool {
    match views::driver(r, t) {
        Ok(v) => {
            is_tablet(v.tablet, expected)
                && v.word == expected.word
                && v.children == expected.children
                && v.living == v.children.count_ones()
        }
        Err(_) => false,
    }
}

// Both views of task t are refused by 10.
pub fn refused_by_ten(r: System, t: TaskId) -> bool {
    match (views::tablet(r, t), views::driver(r, t)) {
        (Err(x), Err(y)) => {
            trace::answer_number(Err(x)) == 10 && trace::answer_number(Err(y)) == 10
        }
        _ => false,
    }
}
