//! Places drawn by several seats, in one thread and in several.
ghost use Rattle.std.specs.Prelude.{◌≡◌, ◌<◌, ◌+◌, ◌-◌, ◌^◌, ℕ, All, IfOk, vec_len};
ghost use Rattle.claims.specs.Seats.{IsSeatOf};

use crew::{Claimed, Claims, Seat};
use sched_program::OutOfMemory;
use std::alloc::Global;
use std::process::Abort;
use std::thread;
use std::thread::Threads;

/// A seat, and the places that it drew.
#[derive(Drop)]
struct Drawer {
    seat: Seat,
    places: Vec<usize>,
    is_refused: bool,
}

/// Draws until none is left.
fn draw_all(alloc: Global, claims: &Claims, mut seat: Seat) -> Drawer
    requires { IsSeatOf claims.now seat }
    ensures { IsSeatOf claims.now result.seat }
{
    let mut places = Vec::new(alloc);
    let mut is_refused = false;
    for _ in 0..u64::MAX {
        let Some(place) = claims.claim(&mut seat) else {
            break;
        };
        is_refused = is_refused || places.push(place).is_err();
    }
    Drawer {
        seat,
        places,
        is_refused,
    }
}

/// Each seat draws in a thread of its own.
fn draw_at_once<R: Threads + Sync>(
    rt: &R,
    alloc: Global,
    claims: &Claims,
    seats: Vec<Seat>,
) -> Result<Vec<Drawer>, OutOfMemory>
    requires { All (λ seat. IsSeatOf claims.now seat) seats.items }
    ensures len { IfOk result (λ drawers. vec_len drawers ≡ vec_len seats) }
    ensures own { IfOk result (λ drawers. All (λ drawer. IsSeatOf claims.now drawer.seat) drawers.items) }
{
    let run = move |seat: Seat| -> Drawer
        requires { IsSeatOf claims.now seat }
        ensures { IsSeatOf claims.entry.now result.seat }
    { draw_all(alloc, claims, seat) };
    thread::map_vec(rt, seats, &run)
}

/// The seats back, and the places that they drew.
fn gathered(
    alloc: Global,
    claims: &Claims,
    mut drawers: Vec<Drawer>,
    drawn: &mut Vec<usize>,
) -> Result<Vec<Seat>, OutOfMemory>
    requires { All (λ drawer. IsSeatOf claims.now drawer.seat) drawers.items }
    ensures len { IfOk result (λ seats. vec_len seats ≡ vec_len drawers) }
    ensures own { IfOk result (λ seats. All (λ seat. IsSeatOf claims.now seat) seats.items) }
{
    let mut seats = Vec::new(alloc);
    while let Some(drawer) = drawers.pop() {
        let Drawer {
            seat,
            mut places,
            is_refused,
        } = drawer;
        if is_refused {
            return Err(OutOfMemory);
        }
        drawn.append(&mut places)?;
        seats.push(seat)?;
    }
    Ok(seats)
}

/// Whether these are all places below a length, each once.
fn are_below(mut places: Vec<usize>, len: usize) -> Result<bool, OutOfMemory> {
    places.sort()?;
    Ok(places.iter().copied().eq(0..len))
}

/// Threads with a seat each draw every place once, and a spent seat draws none on a further try.
#[tactic(auto, using(claims::proofs::Turns::one_each))]
fn draw_each_once<R: Abort + Threads + Sync>(
    rt: &R,
    alloc: Global,
    len: usize,
    seats: usize,
) -> Result<(), OutOfMemory>
    requires { (0 < seats) × (len + seats < 2 ^ 64) }
{
    let (claims, fresh) = Claims::new(alloc, len, seats)?;
    let mut drawn = Vec::new(alloc);
    let drawers = draw_at_once(rt, alloc, &claims, fresh)?;
    let mut spent = gathered(alloc, &claims, drawers, &mut drawn)?;
    let again = claims.claim(&mut spent[0]);
    let closed = claims.close(spent);
    let expected = Claimed {
        drawn: len,
        spent: seats,
    };
    assert!(rt; again.is_none());
    assert_eq!(rt; closed, expected);
    assert!(rt; are_below(drawn, len)?);
    Ok(())
}

#[test]
fn two_threads_draw_three_places(rt: HostRuntime) {
    passes!(rt; draw_each_once(&rt, rt.alloc(), 3, 2));
}

#[test]
fn eight_threads_draw_a_thousand_places(rt: HostRuntime) {
    passes!(rt; draw_each_once(&rt, rt.alloc(), 1_000, 8));
}

/// Two seats of a counter of no places draw none.
fn draw_of_none(rt: &impl Abort, alloc: Global) -> Result<(), OutOfMemory> {
    let (claims, mut seats) = Claims::new(alloc, 0, 2)?;
    assert!(rt; claims.claim(&mut seats[0]).is_none());
    assert!(rt; claims.claim(&mut seats[1]).is_none());
    Ok(())
}

#[test]
fn no_place_is_drawn_of_none(rt: HostRuntime) {
    passes!(rt; draw_of_none(&rt, rt.alloc()));
}

/// A counter is closed where one of two seats drew one place.
#[tactic(auto, using(claims::proofs::Turns::one_each))]
fn draw_one(rt: &impl Abort, alloc: Global) -> Result<(), OutOfMemory> {
    let (claims, mut seats) = Claims::new(alloc, 3, 2)?;
    assert_eq!(rt; claims.claim(&mut seats[0]), Some(0));
    let expected = Claimed { drawn: 1, spent: 0 };
    assert_eq!(rt; claims.close(seats), expected);
    Ok(())
}

#[test]
fn one_draw_of_two_seats(rt: HostRuntime) {
    passes!(rt; draw_one(&rt, rt.alloc()));
}
