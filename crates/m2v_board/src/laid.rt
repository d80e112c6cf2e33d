// The words and slots of a board, and the order of a pass's slots.
ghost use Rattle.std.specs.Prelude.{◌≡◌, ℕ, ◌+◌, ◌<◌, ◌≤◌, ◌∷◌, map, replicate, Some, IfOk, length, position, slice_index, slice_index_or, All, ◌==◌};
ghost use Rattle.std.specs.VecDeque.{deque_capacity};
ghost use Rattle.atomic_table.specs.Table.{rest};
ghost use Rattle.m2v_board.specs.Rule.{times};
ghost use Rattle.m2v_board.specs.Slots.{jobs_in, slot_at, IsRoom};
ghost use Rattle.std.specs.Vec.{vec_len, vec_capacity};
ghost use Rattle.std.specs.Slots.{slots_items, slots_len, IsFull};
ghost use mathlib.Core.Option.{some};
ghost use lib.ListN.{get_elem?};

use atomic_table::{Closed, Seat};
use std::alloc::{AllocError, Global};
use std::collections::VecDeque;

// A word for the draws and one for each job, all 0.
pub(crate) fn zeros(alloc: Global, count: u32) -> Result<Vec<u64>, AllocError>
    ensures { IfOk result (λ v. v.items ≡ replicate (count + 1) 0) }
{
    let words = vec![in alloc; 0u64; count as usize + 1]?;
    Ok(words)
}

// Each value, behind a `Some`.
pub(crate) fn wrapped<T: Drop>(alloc: Global, values: Vec<T>) -> Result<Vec<Option<T>>, AllocError>
    ensures { IfOk result (λ v. v.items ≡ map Some values.items) }
{
    let mut slots = Vec::with_capacity(alloc, values.len())?;
    for value in values {
        slots.push(Some(value))?;
    }
    Ok(slots)
}

// What the slots of a closed board have, in order.
pub(crate) fn emptied<T>(mut closed: Closed<Option<T>, Global>, count: u32, into: &mut Vec<T>)
    requires full { IsFull closed.slots }
    requires count { slots_len closed.slots ≡ count }
    requires values { (j : ℕ) → j < count → (b : T)
        × (get_elem? (slots_items closed.slots) j ≡ some (Some b)) }
    requires room { (vec_len into.old ≡ 0) × (count ≤ vec_capacity into.old) }
    ensures count { vec_len into.new ≡ count }
    ensures items { (j : ℕ) (d : T) → j < count → get_elem? (slots_items closed.slots) j
        ≡ some (Some (slice_index_or into.new.items j d)) }
{
    for j in 0..count {
        into.push_reserved(closed.take(j as usize).unwrap());
    }
    closed.free();
}

// For each of the workers, room for as many open jobs as there are jobs.
pub(crate) fn rooms_for(
    alloc: Global,
    workers: u32,
    jobs: u32,
) -> Result<Vec<VecDeque<u32>>, AllocError>
    ensures count { IfOk result (λ v. vec_len v ≡ workers) }
    ensures rooms { IfOk result (λ v. All (λ q. IsRoom jobs q) v.items) }
{
    let mut rooms = Vec::new(alloc);
    for _i in 0..workers {
        rooms.push(VecDeque::with_capacity(alloc, jobs as usize)?)?;
    }
    Ok(rooms)
}

// Where the job stands in the queue, if it does.
fn position_of(queue: &VecDeque<u32>, j: u32) -> Option<usize>
    ensures { result ≡ position (λ i. i == j) queue.now.items }
{
    queue.iter().position(|i| *i == j)
}

// Where an open job stands in the queue.
fn place_of(queue: &VecDeque<u32>, j: u32) -> usize
    requires { 0 < times j queue.now.items }
    ensures within { result < length queue.now.items }
    ensures found { slice_index queue.now.items result ≡ j }
{
    position_of(queue, j).unwrap()
}

// Turns the slots of a seat until that of the open job j comes first.
pub(crate) fn bring<S, V>(seat: &mut Seat<S, V>, queue: &mut VecDeque<u32>, j: u32)
    requires order { jobs_in seat.old.me.1 ≡ queue.old.items }
    requires once { (i : ℕ) → times i queue.old.items ≤ 1 }
    requires there { 0 < times j queue.old.items }
    ensures same { (seat.new.table_id ≡ seat.old.table_id) × (seat.new.me.0 ≡ seat.old.me.0) }
    ensures first { (x : S) × (slot_at seat.old.me.1 j ≡ Some x)
        × (seat.new.me.1 ≡ (j, x) ∷ rest seat.new.me.1) }
    ensures slots { (i : ℕ) → slot_at seat.new.me.1 i ≡ slot_at seat.old.me.1 i }
    ensures order { jobs_in seat.new.me.1 ≡ queue.new.items }
    ensures times { (i : ℕ) → times i queue.new.items ≡ times i queue.old.items }
    ensures room { deque_capacity queue.new ≡ deque_capacity queue.old }
{
    let place = place_of(queue, j);
    for _i in 0..place {
        seat.turn();
    }
    queue.rotate_left(place);
}
