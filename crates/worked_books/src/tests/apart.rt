//! One book for two partitions, whose requests are all for one URL, and what it replies to each of
//! them where the other asks for nothing: the same, with prompts numbered among its own.

use crate::tests::rows::{NO, Row};

/// The requests 1 and 4 are of the one partition, and 2, 3 and 5 of the other.
pub(crate) fn together(n: u32) -> Option<Row> {
    let row = match n {
        0 => Row(1, "begin", NO, "begun", NO),
        1 => Row(1, "preempt", NO, "nothing", NO),
        2 => Row(2, "begin", NO, "begun", NO),
        3 => Row(2, "preempt", NO, "nothing", NO),
        4 => Row(3, "begin", NO, "begun", NO),
        5 => Row(3, "preempt", NO, "nothing", NO),
        6 => Row(1, "select", [1, 0, 0], "lead", [1, 1, 0]),
        7 => Row(2, "select", [2, 0, 0], "lead", [2, 1, 0]),
        8 => Row(3, "select", [2, 0, 0], "follow", [2, 0, 0]),
        9 => Row(1, "answer", [1, 1, 0], "given", [1, 1, 0]),
        10 => Row(2, "answer", [2, 2, 0], "given", [2, 1, 0]),
        11 => Row(3, "take", [2, 0, 0], "gave", [2, 1, 0]),
        12 => Row(1, "note", [1, 1, 0], "noted", NO),
        13 => Row(3, "note", [2, 1, 0], "noted", NO),
        14 => Row(1, "end", NO, "ended", NO),
        15 => Row(4, "begin", NO, "begun", NO),
        16 => Row(4, "preempt", NO, "ready", [1, 1, 0]),
        17 => Row(3, "reject", [2, 1, 0], "removed", NO),
        18 => Row(5, "begin", NO, "begun", NO),
        19 => Row(5, "preempt", NO, "nothing", NO),
        20 => Row(5, "select", [2, 0, 0], "lead", [3, 2, 0]),
        21 => Row(5, "answer", [3, 3, 0], "given", [2, 2, 0]),
        _ => return None,
    };
    Some(row)
}

/// The rows of the requests 1 and 4; their prompt is the first.
pub(crate) fn one_alone(n: u32) -> Option<Row> {
    let row = match n {
        0 => Row(1, "begin", NO, "begun", NO),
        1 => Row(1, "preempt", NO, "nothing", NO),
        2 => Row(1, "select", [1, 0, 0], "lead", [1, 1, 0]),
        3 => Row(1, "answer", [1, 1, 0], "given", [1, 1, 0]),
        4 => Row(1, "note", [1, 1, 0], "noted", NO),
        5 => Row(1, "end", NO, "ended", NO),
        6 => Row(4, "begin", NO, "begun", NO),
        7 => Row(4, "preempt", NO, "ready", [1, 1, 0]),
        _ => return None,
    };
    Some(row)
}

/// The rows of the requests 2, 3 and 5; their prompts are the first and the second.
pub(crate) fn other_alone(n: u32) -> Option<Row> {
    let row = match n {
        0 => Row(2, "begin", NO, "begun", NO),
        1 => Row(2, "preempt", NO, "nothing", NO),
        2 => Row(3, "begin", NO, "begun", NO),
        3 => Row(3, "preempt", NO, "nothing", NO),
        4 => Row(2, "select", [2, 0, 0], "lead", [1, 1, 0]),
        5 => Row(3, "select", [2, 0, 0], "follow", [1, 0, 0]),
        6 => Row(2, "answer", [1, 2, 0], "given", [2, 1, 0]),
        7 => Row(3, "take", [1, 0, 0], "gave", [2, 1, 0]),
        8 => Row(3, "note", [2, 1, 0], "noted", NO),
        9 => Row(3, "reject", [2, 1, 0], "removed", NO),
        10 => Row(5, "begin", NO, "begun", NO),
        11 => Row(5, "preempt", NO, "nothing", NO),
        12 => Row(5, "select", [2, 0, 0], "lead", [2, 2, 0]),
        13 => Row(5, "answer", [2, 3, 0], "given", [2, 2, 0]),
        _ => return None,
    };
    Some(row)
}
