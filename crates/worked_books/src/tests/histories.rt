//! Worked histories: the requests of each, the calls on their book, and its replies.

use crate::tests::apart::{one_alone, other_alone, together};
use crate::tests::book::request;
use crate::tests::rows::{NO, Row};
use auth_text::NoMemory;
use spaces::{Origins, Requests, Roster};
use std::alloc::Global;

/// A partition, and a URL that is asked for in it.
pub(crate) type Ask = (&'static [u8], &'static [u8]);

#[derive(Clone, Copy)]
pub(crate) enum History {
    /// A prompt that two follow is cancelled.
    Cancelled,
    /// Such a prompt is lost.
    Lost,
    LateRejection,
    Directories,
    Partitions,
    Together,
    OneAlone,
    OtherAlone,
}

impl History {
    /// The row of that number, from 0.
    fn row(self, n: u32) -> Option<Row> {
        match self {
            History::Cancelled if n < 10 => shared(n),
            History::Cancelled => cancelled(n),
            History::Lost if n < 10 => shared(n),
            History::Lost => lost(n),
            History::LateRejection => late_rejection(n),
            History::Directories => directories(n),
            History::Partitions => partitions(n),
            History::Together => together(n),
            History::OneAlone => one_alone(n),
            History::OtherAlone => other_alone(n),
        }
    }

    /// What the request of that number, from 0, asks for.
    fn ask(self, n: u32) -> Option<Ask> {
        match self {
            History::Cancelled | History::Lost => home(3, n),
            History::LateRejection => home(2, n),
            History::Directories => document(n),
            History::Partitions => of_two_partitions(n),
            History::Together | History::OneAlone | History::OtherAlone => of_two_sides(n),
        }
    }

    /// All its rows.
    pub(crate) fn rows(self, alloc: Global) -> Result<Vec<Row>, NoMemory> {
        let mut rows = Vec::new(alloc);
        for n in 0..100 {
            if let Some(row) = self.row(n) {
                rows.push(row)?;
            }
        }
        Ok(rows)
    }

    /// Its requests.
    pub(crate) fn roster(self, alloc: Global) -> Result<Roster, NoMemory> {
        let mut requests = Requests::new(alloc);
        for n in 0..100 {
            if let Some((partition, url)) = self.ask(n) {
                requests.push(request(alloc, partition, url)?)?;
            }
        }
        Ok(Roster {
            requests,
            allowed: Origins::new(alloc),
        })
    }
}

/// So many requests of one URL.
fn home(requests: u32, n: u32) -> Option<Ask> {
    if n < requests {
        Some((b"main", b"http://a.example/"))
    } else {
        None
    }
}

fn document(n: u32) -> Option<Ask> {
    match n {
        0 => Some((b"main", b"http://a.example/docs/a")),
        1 => Some((b"main", b"http://a.example/docs/b/c")),
        2 => Some((b"main", b"http://a.example/docsx")),
        3 => Some((b"main", b"http://a.example/")),
        _ => None,
    }
}

fn of_two_partitions(n: u32) -> Option<Ask> {
    match n {
        0 => Some((b"p1", b"http://a.example/")),
        1 => Some((b"p2", b"http://a.example/")),
        _ => None,
    }
}

/// One URL, asked for by two partitions.
fn of_two_sides(n: u32) -> Option<Ask> {
    match n {
        0 | 3 => Some((b"p1", b"http://a.example/")),
        1 | 2 | 4 => Some((b"p2", b"http://a.example/")),
        _ => None,
    }
}

/// Two follow the prompt of the first, and one asks for its end too soon.
fn shared(n: u32) -> Option<Row> {
    let row = match n {
        0 => Row(1, "begin", NO, "begun", NO),
        1 => Row(1, "preempt", NO, "nothing", NO),
        2 => Row(2, "begin", NO, "begun", NO),
        3 => Row(2, "preempt", NO, "nothing", NO),
        4 => Row(3, "begin", NO, "begun", NO),
        5 => Row(3, "preempt", NO, "nothing", NO),
        6 => Row(1, "select", [1, 0, 0], "lead", [1, 1, 0]),
        7 => Row(2, "select", [1, 0, 0], "follow", [1, 0, 0]),
        8 => Row(3, "select", [1, 0, 0], "follow", [1, 0, 0]),
        9 => Row(2, "take", [1, 0, 0], "pending", NO),
        _ => return None,
    };
    Some(row)
}

/// The rows behind those: the prompt is cancelled, and both take that.
fn cancelled(n: u32) -> Option<Row> {
    let row = match n {
        10 => Row(1, "answer", [1, 0, 0], "cancelled", NO),
        11 => Row(3, "take", [1, 0, 0], "cancelled", NO),
        12 => Row(2, "take", [1, 0, 0], "cancelled", NO),
        _ => return None,
    };
    Some(row)
}

/// The rows behind those: the prompt is lost, and both take that.
fn lost(n: u32) -> Option<Row> {
    let row = match n {
        10 => Row(1, "lose", [1, 5, 0], "lost", [5, 0, 0]),
        11 => Row(3, "take", [1, 0, 0], "lost", [5, 0, 0]),
        12 => Row(2, "take", [1, 0, 0], "lost", [5, 0, 0]),
        _ => return None,
    };
    Some(row)
}

/// The second request's rejection comes when a newer gift is there.
fn late_rejection(n: u32) -> Option<Row> {
    let row = match n {
        0 => Row(1, "begin", NO, "begun", NO),
        1 => Row(1, "preempt", NO, "nothing", NO),
        2 => Row(2, "begin", NO, "begun", NO),
        3 => Row(2, "preempt", NO, "nothing", NO),
        4 => Row(1, "select", [1, 0, 0], "lead", [1, 1, 0]),
        5 => Row(1, "answer", [1, 1, 0], "given", [1, 1, 0]),
        6 => Row(2, "select", [1, 0, 0], "cached", [1, 1, 0]),
        7 => Row(1, "reject", [1, 1, 0], "removed", NO),
        8 => Row(1, "select", [1, 0, 0], "lead", [2, 2, 0]),
        9 => Row(1, "answer", [2, 2, 0], "given", [1, 2, 0]),
        10 => Row(2, "reject", [1, 1, 0], "kept", [2, 0, 0]),
        11 => Row(2, "select", [1, 0, 0], "cached", [1, 2, 0]),
        _ => return None,
    };
    Some(row)
}

/// What is noted for `/docs/a` is ready for `/docs/b/c`, and neither for `/docsx` nor for `/`.
fn directories(n: u32) -> Option<Row> {
    let row = match n {
        0 => Row(1, "begin", NO, "begun", NO),
        1 => Row(1, "preempt", NO, "nothing", NO),
        2 => Row(1, "select", [1, 0, 0], "lead", [1, 1, 0]),
        3 => Row(1, "answer", [1, 1, 0], "given", [1, 1, 0]),
        4 => Row(1, "note", [1, 1, 0], "noted", NO),
        5 => Row(1, "end", NO, "ended", NO),
        6 => Row(2, "begin", NO, "begun", NO),
        7 => Row(2, "preempt", NO, "ready", [1, 1, 0]),
        8 => Row(2, "note", [1, 1, 0], "noted", NO),
        9 => Row(2, "end", NO, "ended", NO),
        10 => Row(3, "begin", NO, "begun", NO),
        11 => Row(3, "preempt", NO, "nothing", NO),
        12 => Row(3, "end", NO, "ended", NO),
        13 => Row(4, "begin", NO, "begun", NO),
        14 => Row(4, "preempt", NO, "nothing", NO),
        15 => Row(4, "end", NO, "ended", NO),
        _ => return None,
    };
    Some(row)
}

/// One URL in two partitions has two spaces, each with its own prompt and gift.
fn partitions(n: u32) -> Option<Row> {
    let row = match n {
        0 => Row(1, "begin", NO, "begun", NO),
        1 => Row(1, "preempt", NO, "nothing", NO),
        2 => Row(1, "select", [1, 0, 0], "lead", [1, 1, 0]),
        3 => Row(1, "answer", [1, 1, 0], "given", [1, 1, 0]),
        4 => Row(1, "note", [1, 1, 0], "noted", NO),
        5 => Row(1, "end", NO, "ended", NO),
        6 => Row(2, "begin", NO, "begun", NO),
        7 => Row(2, "preempt", NO, "nothing", NO),
        8 => Row(2, "select", [2, 0, 0], "lead", [2, 1, 0]),
        9 => Row(2, "answer", [2, 2, 0], "given", [2, 1, 0]),
        10 => Row(2, "note", [2, 1, 0], "noted", NO),
        11 => Row(2, "end", NO, "ended", NO),
        _ => return None,
    };
    Some(row)
}
