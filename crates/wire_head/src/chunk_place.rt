//! A chunked body, byte by byte (RFC 7230, section 4.1): the places within it, and what one byte
//! does at each.

ghost use Rattle.std.specs.Prelude.{◌≡◌, ◌+◌, ◌*◌, ◌<◌, ◌≤◌, ◌^◌, ◌==◌, ◌||◌, Bool};
ghost use Rattle.std.specs.Char.{is_ascii_hexdigit, digit_value};
ghost use Rattle.wire_head.specs.ChunkPlaces as spec;
ghost use Rattle.wire_head.specs.ChunkPlaces.{IsPlace};
ghost use Rattle.wire_head.specs.declared.chunk_place.Move.TheVariants.{Goes};
ghost use Rattle.wire_head.specs.declared.chunk_place.Place.TheVariants.{Fresh, Digits, Trailer};

use crate::chunked_body::digit_of;

/// A place within a chunked body.
#[derive(Clone, Copy, Debug, PartialEq, Eq)]
pub(crate) enum Place {
    /// Before a size line.
    Fresh,
    /// Behind so many hexadecimal digits of one, which have this value.
    Digits { count: usize, value: usize },
    /// In the extension of one.
    Extension { value: usize },
    /// Behind the CR of one.
    SizeReturn { value: usize },
    /// Before so many bytes of data, and a line's end.
    Bytes { left: usize },
    /// Behind the CR of that line's end.
    BytesReturn,
    /// Before a line of the trailer.
    Trailer,
    /// Behind the CR that begins one.
    TrailerReturn,
    /// In one.
    TrailerLine,
}

/// What a byte does.
#[derive(Clone, Copy, Debug, PartialEq, Eq)]
pub(crate) enum Move {
    /// It goes on to this place, and so many bytes of data are said to follow.
    Goes { place: Place, size: usize },
    /// It can't stand there.
    Bad,
    /// It is the body's last one.
    Done,
}

fn goes(place: Place) -> Move
    ensures { result ≡ Goes place 0 }
{
    Move::Goes { place, size: 0 }
}

/// Behind a size line.
fn sized_move(value: usize) -> Move
    ensures { result ≡ spec.sized_move value }
{
    if value == 0 {
        goes(Place::Trailer)
    } else {
        Move::Goes {
            place: Place::Bytes { left: value },
            size: value,
        }
    }
}

/// Behind the digits of a size line.
fn size_move(value: usize, b: u8) -> Move
    ensures { result ≡ spec.size_move value b }
{
    match b {
        b' ' | b'\t' | b';' => goes(Place::Extension { value }),
        b'\n' => sized_move(value),
        b'\r' => goes(Place::SizeReturn { value }),
        _ => Move::Bad,
    }
}

fn digit_move(count: usize, value: usize, b: u8) -> Move
    requires few { count ≤ 8 }
    requires small { value < 16 ^ count }
    ensures { result ≡ spec.move (Digits count value) b }
{
    if !b.is_ascii_hexdigit() {
        return size_move(value, b);
    }
    if count < 8 {
        goes(Place::Digits {
            count: count + 1,
            value: value * 16 + digit_of(b),
        })
    } else {
        Move::Bad
    }
}

fn fresh_move(b: u8) -> Move
    ensures { result ≡ spec.move Fresh b }
{
    if b.is_ascii_hexdigit() {
        goes(Place::Digits {
            count: 1,
            value: digit_of(b),
        })
    } else {
        Move::Bad
    }
}

fn bytes_move(left: usize, b: u8) -> Move
    ensures { result ≡ spec.bytes_move left b }
{
    if left > 0 {
        return goes(Place::Bytes { left: left - 1 });
    }
    match b {
        b'\n' => goes(Place::Fresh),
        b'\r' => goes(Place::BytesReturn),
        _ => Move::Bad,
    }
}

fn trailer_move(b: u8) -> Move
    ensures { result ≡ spec.move Trailer b }
{
    match b {
        b'\n' => Move::Done,
        b'\r' => goes(Place::TrailerReturn),
        _ => goes(Place::TrailerLine),
    }
}

/// What an LF does, and any other byte.
fn line_move(b: u8, feed: Move, other: Move) -> Move
    ensures { result ≡ spec.line_move b feed other }
{
    if b == b'\n' { feed } else { other }
}

/// What the byte does at the place.
pub(crate) fn moved(place: Place, b: u8) -> Move
    requires { IsPlace place }
    ensures { result ≡ spec.move place b }
{
    match place {
        Place::Fresh => fresh_move(b),
        Place::Digits { count, value } => digit_move(count, value, b),
        Place::Extension { value } => {
            line_move(b, sized_move(value), goes(Place::Extension { value }))
        }
        Place::SizeReturn { value } => line_move(b, sized_move(value), Move::Bad),
        Place::Bytes { left } => bytes_move(left, b),
        Place::BytesReturn => line_move(b, goes(Place::Fresh), Move::Bad),
        Place::Trailer => trailer_move(b),
        Place::TrailerReturn => line_move(b, Move::Done, goes(Place::TrailerLine)),
        Place::TrailerLine => line_move(b, goes(Place::Trailer), goes(Place::TrailerLine)),
    }
}
