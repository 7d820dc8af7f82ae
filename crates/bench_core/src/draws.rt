//! Counts that one thread, two or four draw of one nonce.

ghost use Rattle.std.specs.Prelude.{◌≡◌, ◌+◌, ◌<◌, ◌≤◌, ◌^◌, length};

use crate::words::Crew;
use auth_text::NoMemory;
use nonce_words::{DrawSeat, NonceWords};
use std::alloc::Global;
use std::thread::{Threads, join};

/// Draws so often.
fn draw_times(words: &NonceWords, mut seat: DrawSeat, times: u32) -> DrawSeat
    requires words { (seat.table ≡ words.now.table) × (words.now.nonces ≡ 1) }
    requires quota { times ≤ seat.quota }
    ensures words { result.table ≡ seat.table }
    ensures quota { result.quota + times ≡ seat.quota }
    ensures drawn { length result.drawn ≡ length seat.drawn + times }
{
    for _draw in 0..times {
        words.draw(&mut seat, 1);
    }
    seat
}

/// Draws so often in all, in two threads.
fn draw_by_two(rt: &impl Threads, words: &NonceWords, mut seat: DrawSeat, times: u32) -> DrawSeat
    requires words { (seat.table ≡ words.now.table) × (words.now.nonces ≡ 1) }
    requires quota { times ≤ seat.quota }
    ensures words { result.table ≡ seat.table }
    ensures quota { result.quota + times ≡ seat.quota }
    ensures drawn { length result.drawn ≡ length seat.drawn + times }
{
    let half = times / 2;
    let other = words.split(&mut seat, half);
    let (mut seat, other) = join(
        rt,
        move || draw_times(words, seat, times - half),
        move || draw_times(words, other, half),
    );
    words.join(&mut seat, other);
    seat
}

/// Draws so often in all, in four threads.
fn draw_by_four<R: Threads + Sync>(
    rt: &R,
    words: &NonceWords,
    mut seat: DrawSeat,
    times: u32,
) -> DrawSeat
    requires words { (seat.table ≡ words.now.table) × (words.now.nonces ≡ 1) }
    requires quota { times ≤ seat.quota }
    ensures words { result.table ≡ seat.table }
    ensures quota { result.quota + times ≡ seat.quota }
    ensures drawn { length result.drawn ≡ length seat.drawn + times }
{
    let half = times / 2;
    let other = words.split(&mut seat, half);
    let (mut seat, other) = join(
        rt,
        move || draw_by_two(rt, words, seat, times - half),
        move || draw_by_two(rt, words, other, half),
    );
    words.join(&mut seat, other);
    seat
}

/// Draws so often in all, in as many threads as the crew has.
fn draw_by<R: Threads + Sync>(
    rt: &R,
    crew: Crew,
    words: &NonceWords,
    seat: DrawSeat,
    times: u32,
) -> DrawSeat
    requires words { (seat.table ≡ words.now.table) × (words.now.nonces ≡ 1) }
    requires quota { times ≤ seat.quota }
    ensures words { result.table ≡ seat.table }
    ensures quota { result.quota + times ≡ seat.quota }
    ensures drawn { length result.drawn ≡ length seat.drawn + times }
{
    match crew {
        Crew::One => draw_times(words, seat, times),
        Crew::Two => draw_by_two(rt, words, seat, times),
        Crew::Four => draw_by_four(rt, words, seat, times),
    }
}

/// Draws so often, by a crew of threads, and tells how many draws one more draw finds before it.
/// There are fewer than 2^30 draws for all seats together, so of more none is made.
pub fn run<R: Threads + Sync>(
    rt: &R,
    alloc: Global,
    crew: Crew,
    times: u32,
) -> Result<u32, NoMemory> {
    if times >= 1 << 30 {
        return Ok(0);
    }
    let (words, book, seat) = NonceWords::new(alloc, 1)?;
    let mut seat = draw_by(rt, crew, &words, seat, times);
    let last = words.draw(&mut seat, 1);
    words.close(book, seat);
    Ok(last.count - 1)
}
