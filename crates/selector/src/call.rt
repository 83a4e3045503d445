// The call for gains.
ghost use Rattle.std.specs.Prelude.{◌≡◌, ◌≤◌, length};
ghost use Rattle.layout.specs.Room.{active_in};
ghost use Rattle.keys.specs.InKey.{room_in};
ghost use Rattle.selector.specs.Call.{Typed, gains_by, newly_built, keyed_of};
ghost use Rattle.selector.specs.Steps.{wanted_of, later_answer, Leaves, call_by, answer_to, found_by, reply_of};

use crate::planning::plan;
use crate::room_key::RoomKey;
use crate::{Gains, Reply};
use cache::{Ring, Word, later_no};
use extent::{Extent, Reading};
use keys::active_count;
use layout::{Centre, Layout, Refusal};

// A wide object in a room that is accepted: what its extent is read as, its centre and its point gains.
#[derive(Clone, Copy)]
struct Wide<'k, 'p> {
    room: RoomKey<'k>,
    reading: Reading,
    centre: Centre,
    points: &'p [f64],
}

// Not by `?`: a refusal, too, hands back the ring.
fn refused(no: Refusal, r: Ring) -> Reply
    ensures { result ≡ record { outcome = Err no; ring = r } }
{
    Reply {
        outcome: Err(no),
        ring: r,
    }
}

// The gains by the field in place p of the store, with a word on that field.
fn accepted(word: Word, r: Ring, store: &[f64], p: usize, w: Wide, gains: &mut [f64]) -> Reply
    ensures reply { result ≡ record {
      outcome = Ok (record { n = active_in (room_in w.entry.room.key.now); word = word });
      ring = r;
    } }
    ensures gains { gains.new ≡ gains_by (wanted_of w.entry gains.old) store.now p }
{
    let Wide {
        room,
        reading,
        centre,
        points,
    } = w;
    // The answer is passed over: the questions before have asked all that would make it false.
    gains::project(
        gains,
        store,
        p,
        room.n,
        room.has_z(),
        reading,
        centre,
        points,
    );
    Reply {
        outcome: Ok(Gains { n: room.n, word }),
        ring: r,
    }
}

// Builds the field of a new key in its place, and the gains by it.
// Here and below keys and store are lent one by one: as fields of a struct their ends have no short name
// in a clause.
fn build(keys: &mut [u64; 1248], r: Ring, store: &mut [f64], w: Wide, gains: &mut [f64]) -> Reply
    requires { 285312 ≤ length store.old }
    ensures { Leaves (newly_built (wanted_of w.entry gains.old) (found_by keys.old r store.old))
        result keys.new store.new gains.new }
{
    let at = cache::next_place(r);
    // The answer is passed over: the questions before have asked all that would make it false.
    field::fill_place(store, at, w.room.key);
    cache::put(keys, at, w.room.key);
    accepted(Word::Built, cache::turned(r), store, at, w, gains)
}

// The gains by the field of the key, which is kept or is built.
fn keyed(keys: &mut [u64; 1248], r: Ring, store: &mut [f64], w: Wide, gains: &mut [f64]) -> Reply
    requires { 285312 ≤ length store.old }
    ensures { Leaves (keyed_of (wanted_of w.entry gains.old) (found_by keys.old r store.old))
        result keys.new store.new gains.new }
{
    match cache::find(keys, r, w.room.key) {
        Some(p) => accepted(Word::Kept, r, store, p, w, gains),
        None => build(keys, r, store, w, gains),
    }
}

// Questions 11 to 14, and then the gains.
fn answer_by_key(
    keys: &mut [u64; 1248],
    r: Ring,
    store: &mut [f64],
    w: Wide,
    gains: &mut [f64],
) -> Reply
    ensures { Leaves (later_answer (wanted_of w.entry gains.old) (found_by keys.old r store.old))
        result keys.new store.new gains.new }
{
    if let Err(no) = later_no(w.centre, w.points, w.room.n, gains.len(), store.len(), r) {
        return refused(no, r);
    }
    if w.reading.mean == 0 {
        return accepted(Word::Unused, r, store, 0, w, gains);
    }
    keyed(keys, r, store, w, gains)
}

// The call over lent keys: the gains of a wide object, by the sixteen questions and the eight-place
// rule. Its arguments are those of document 01, one by one. The layout is handed on by value only to be
// packed: to copy it is what costs.
pub fn project_outcome_with_epoch(
    keys: &mut [u64; 1248],
    r: Ring,
    store: &mut [f64],
    l: Layout,
    epoch: u64,
    e: Extent,
    flags: [bool; 6],
    c: Centre,
    points: &[f64],
    gains: &mut [f64],
) -> Reply
    ensures value { result ≡ reply_of (answer_to l epoch e flags c points.now gains.old
        (found_by keys.old r store.old)) }
    ensures keys { keys.new ≡ (answer_to l epoch e flags c points.now gains.old
        (found_by keys.old r store.old)).found.keys }
    ensures store { store.new ≡ (answer_to l epoch e flags c points.now gains.old
        (found_by keys.old r store.old)).found.store }
    ensures gains { gains.new ≡ (answer_to l epoch e flags c points.now gains.old
        (found_by keys.old r store.old)).gains }
    ensures typed { Typed (call_by l epoch e flags c points.now gains.old) }
{
    let mut key = [0; 156];
    keys::pack(l, epoch, &mut key);
    match plan(e, flags, &mut key) {
        Ok(reading) => {
            let room = RoomKey {
                key: &key,
                n: active_count(&key),
            };
            let w = Wide {
                room,
                reading,
                centre: c,
                points,
            };
            answer_by_key(keys, r, store, w, gains)
        }
        Err(no) => refused(no, r),
    }
}
