//! Two threads over a book with an index.

ghost use Rattle.std.specs.Prelude.{◌≡◌, IfOk, length};

use crate::serve_two;
use auth_book::AuthBook;
use auth_events::Controller;
use auth_text::NoMemory;
use spaces::{Method, Origins, Partition, Request, Requests, Roster, place_of};
use std::alloc::Global;
use std::sync::Wait;
use std::test::Fail;
use std::thread::Threads;

fn request(alloc: Global) -> Result<Request, NoMemory> {
    let Ok(partition) = Partition::new(alloc, b"main") else {
        return Err(NoMemory);
    };
    let Ok(place) = place_of(alloc, b"http://a.example/") else {
        return Err(NoMemory);
    };
    Ok(Request {
        method: Method::Get,
        partition,
        place,
        proxy: None,
    })
}

fn roster(alloc: Global) -> Result<Roster, NoMemory>
    ensures { IfOk result (λ roster. length roster.requests ≡ 2) }
{
    let mut requests = Requests::new(alloc);
    requests.push(request(alloc)?)?;
    requests.push(request(alloc)?)?;
    Ok(Roster {
        requests,
        allowed: Origins::new(alloc),
    })
}

/// How many entries the book has in the end, and the two counts.
fn served<R: Threads + Wait + Sync>(rt: &R, alloc: Global) -> Result<(usize, u32, u32), NoMemory> {
    let roster = roster(alloc)?;
    let book = AuthBook::new(alloc, &roster)?;
    match serve_two(rt, alloc, book, 32, 1) {
        Ok(served) => Ok((
            served.book.journal().entries().len(),
            served.first.count,
            served.second.count,
        )),
        Err(_) => Err(NoMemory),
    }
}

#[test]
fn two_threads_draw_two_counts(rt: HostRuntime) -> Result<(), Fail> {
    let served = served(&rt, rt.alloc()).map_err(|_| "memory")?;
    assert!(rt; served == (2, 1, 2) || served == (2, 2, 1));
    Ok(())
}
