//! Workers at their seats: doors and tokens are put together, and the doors come back.
ghost use Rattle.std.specs.Prelude.{◌≡◌, ◌≤◌, [], Some, length, map, vec_capacity};
ghost use Rattle.served_stores.specs.Serving.{some_failed};

use engine_tables::Tokens;
use line_workers::{Seat, SeatEnd};
use srch_base::Door;
use step_book::Naming;

/// Seats the workers, each with its door and its tokens, in their order.
pub(crate) fn sit_down<E: Door, J: Naming>(
    doors: &mut Vec<E>,
    tokens: &mut Vec<Tokens<J>>,
    seats: &mut Vec<Seat<E, J>>,
)
    requires many { length tokens.old.items ≡ length doors.old.items }
    requires room { (seats.old.items ≡ []) × (length doors.old.items ≤ vec_capacity seats.old) }
    ensures doors { map (λ seat. seat.door) seats.new.items ≡ doors.old.items }
    ensures tokens { map (λ seat. seat.tokens) seats.new.items ≡ map Some tokens.old.items }
    ensures empty { doors.new.items ≡ [] }
    ensures keeps { vec_capacity doors.new ≡ vec_capacity doors.old }
    ensures room { vec_capacity seats.new ≡ vec_capacity seats.old }
{
    if let Some(door) = doors.pop() {
        let own = tokens.take_last();
        sit_down(doors, tokens, seats);
        seats.push_reserved(Seat {
            door,
            tokens: Some(own),
            end: SeatEnd::Ready,
        });
    }
}

/// Takes the doors away from the seats, in their order. Says whether one of them ended its worker by failing.
pub(crate) fn stand_up<E: Door, J: Naming>(mut seats: Vec<Seat<E, J>>, doors: &mut Vec<E>) -> bool
    requires room { (doors.old.items ≡ []) × (length seats.items ≤ vec_capacity doors.old) }
    ensures doors { doors.new.items ≡ map (λ seat. seat.door) seats.items }
    ensures failed { result ≡ some_failed seats.items }
    ensures room { vec_capacity doors.new ≡ vec_capacity doors.old }
{
    match seats.pop() {
        None => {
            seats.destroy_empty();
            false
        }
        Some(seat) => {
            let Seat {
                door,
                tokens: _tokens,
                end,
            } = seat;
            let failed = stand_up(seats, doors);
            doors.push_reserved(door);
            failed || end == SeatEnd::HostFault
        }
    }
}
