//! Three seats in several orders, two threads at once, notes of epochs, and words without nonces.

ghost use Rattle.std.specs.Prelude.{◌≡◌, ◌+◌, ◌≤◌, ◌<◌, length, vec_len};

use super::*;
use crate::laws::{cross_threads, inform};
use auth_events::Drawn;
use auth_text::NoMemory;
use std::alloc::Global;
use std::process::Abort;
use std::test::Fail;
use std::thread::{Threads, join};

// A draw of nonce 1 by one of three seats.
fn draw_by(
    words: &NonceWords,
    first: &mut DrawSeat,
    second: &mut DrawSeat,
    third: &mut DrawSeat,
    seat: u8,
) -> u32
    requires words { (first.old.table ≡ words.now.table) × (second.old.table ≡ words.now.table)
        × (third.old.table ≡ words.now.table) × (words.now.nonces ≡ 1) }
    requires quota { (0 < first.old.quota) × (0 < second.old.quota) × (0 < third.old.quota) }
    ensures words { (first.new.table ≡ words.now.table)
        × (second.new.table ≡ words.now.table) × (third.new.table ≡ words.now.table) }
    ensures quota { (first.old.quota ≤ first.new.quota + 1)
        × (second.old.quota ≤ second.new.quota + 1) × (third.old.quota ≤ third.new.quota + 1) }
    ensures all { (first.new.quota + length first.new.drawn)
        + (second.new.quota + length second.new.drawn)
        + (third.new.quota + length third.new.drawn) ≡ (first.old.quota + length first.old.drawn)
        + (second.old.quota + length second.old.drawn)
        + (third.old.quota + length third.old.drawn) }
{
    match seat {
        1 => words.draw(first, 1).count,
        2 => words.draw(second, 1).count,
        _ => words.draw(third, 1).count,
    }
}

// Five counts of one nonce, drawn by three seats in this order, and what a sixth draw gives after a
// retirement.
fn six_draws(alloc: Global, order: [u8; 5]) -> Result<([u32; 5], Drawn), NoMemory> {
    let (words, mut book, mut first) = NonceWords::new(alloc, 1)?;
    let mut second = words.split(&mut first, 20);
    let mut third = words.split(&mut second, 10);
    let a = draw_by(&words, &mut first, &mut second, &mut third, order[0]);
    let b = draw_by(&words, &mut first, &mut second, &mut third, order[1]);
    let c = draw_by(&words, &mut first, &mut second, &mut third, order[2]);
    let d = draw_by(&words, &mut first, &mut second, &mut third, order[3]);
    let e = draw_by(&words, &mut first, &mut second, &mut third, order[4]);
    words.retire(&mut book, 1);
    let sixth = words.draw(&mut second, 1);
    words.join(&mut first, second);
    words.join(&mut first, third);
    words.close(book, first);
    Ok(([a, b, c, d, e], sixth))
}

#[test]
fn three_seats(rt: HostRuntime) -> Result<(), Fail> {
    let orders = [
        [1, 2, 3, 1, 2],
        [3, 3, 2, 2, 1],
        [2, 1, 2, 1, 3],
        [1, 1, 1, 1, 1],
    ];
    for order in orders {
        let (counts, sixth) = six_draws(rt.alloc(), order).map_err(|_| "memory")?;
        assert_eq!(rt; counts, [1, 2, 3, 4, 5]);
        assert_eq!(rt; sixth, Drawn { count: 6, epoch: 1 });
    }
    Ok(())
}

// Draws once for each place of the list, and gives the seat back beside the counts.
fn draw_all(words: &NonceWords, mut seat: DrawSeat, mut counts: Vec<u32>) -> (DrawSeat, Vec<u32>)
    requires words { (seat.table ≡ words.now.table) × (words.now.nonces ≡ 1) }
    requires quota { vec_len counts ≤ seat.quota }
    ensures words { result.0.table ≡ seat.table }
    ensures all { result.0.quota + length result.0.drawn ≡ seat.quota + length seat.drawn }
{
    for count in counts.iter_mut() {
        *count = words.draw(&mut seat, 1).count;
    }
    (seat, counts)
}

// All counts that two threads draw of one nonce, 1,000 each.
fn drawn_by_two(rt: &impl Threads, alloc: Global) -> Result<Vec<u32>, NoMemory> {
    let (words, book, mut first) = NonceWords::new(alloc, 1)?;
    let second = words.split(&mut first, 1000);
    let shared = &words;
    let ones = vec![in alloc; 0u32; 1000]?;
    let twos = vec![in alloc; 0u32; 1000]?;
    let ((mut first, mut counts), (second, twos)) = join(
        rt,
        move || draw_all(shared, first, ones),
        move || draw_all(shared, second, twos),
    );
    words.join(&mut first, second);
    words.close(book, first);
    counts.extend_from_slice(twos.as_slice())?;
    Ok(counts)
}

#[test]
fn two_threads(rt: HostRuntime) -> Result<(), Fail> {
    let mut counts = drawn_by_two(&rt, rt.alloc()).map_err(|_| "memory")?;
    counts.sort()?;
    assert_eq!(rt; counts.len(), 2000);
    for (i, count) in counts.iter().enumerate() {
        assert_eq!(rt; *count as usize, i + 1);
    }
    Ok(())
}

#[test]
fn notes_tell_the_epoch(rt: HostRuntime) -> Result<(), Fail> {
    let (words, mut book, mut seat) = NonceWords::new(rt.alloc(), 2).map_err(|_| "memory")?;
    words.retire(&mut book, 2);
    inform(&words, &mut book, &mut seat);
    assert_eq!(rt; words.draw(&mut seat, 1), Drawn { count: 1, epoch: 0 });
    assert_eq!(rt; words.draw(&mut seat, 2), Drawn { count: 1, epoch: 1 });
    words.close(book, seat);
    Ok(())
}

#[test]
fn no_nonces(rt: HostRuntime) -> Result<(), Fail> {
    cross_threads();
    let (words, mut book, mut first) = NonceWords::new(rt.alloc(), 0).map_err(|_| "memory")?;
    let mut second = words.split(&mut first, 1 << 20);
    inform(&words, &mut book, &mut second);
    words.join(&mut first, second);
    words.close(book, first);
    Ok(())
}
