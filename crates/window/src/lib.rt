// The window: a ring of message slots in the state memory, and the cursor that says which of them fill a place.
#![tactic(auto)]

ghost use Rattle.std.specs.Prelude.{◌≡◌, ℕ, ◌+◌, ◌-◌, ◌^◌, ◌<◌, ◌≤◌, false, length, get_or, MatchOption};
ghost use Rattle.std.specs.Iterator.{at_most};
ghost use Rattle.paper.specs.Frame.{level, urgency_of, term_width, count_width, most_pairs, most_terms};
ghost use Rattle.paper.specs.Frame.Urgency.{vital};
ghost use Rattle.paper.specs.Window.{past};
ghost use Rattle.paper.specs.Write.{side_by_side};
ghost use Rattle.paper.specs.Layout.{slots, state_words};
ghost use Rattle.memory.specs.Words.{words};
ghost use Rattle.memory.specs.Keeps.{Stored};
ghost use Rattle.impact.specs.Cell.{most_squares, cell_count, cells_of, cell_squares, cell_with, lookup};
ghost use Rattle.window.specs.Slot.{slot, size_at, grade_in, ring, window, live, next, holds_serial, Sought};
ghost use Rattle.window.specs.Table.{term_limit, Raised, RaisedBy};
ghost use Rattle.window.specs.Rows.{row_width, touches, LookedAt};
ghost use Rattle.window.specs.Cursor.{Loaded, PutCursor, Advanced, Roomy, Written, Cancelled};

use impact::Impact;
use paper::{MOST_PAIRS, State, layout};

// Whether an arrival at `time` is past at the clock. In foreign memory it may stand after the clock: its age is 0 then.
fn is_past(life: u32, clock: u32, time: u32) -> bool
    ensures { result ≡ past life clock time }
{
    time < clock && life < clock - time
}

// The slot after a slot.
fn following(j: usize) -> usize
    requires { j < slots }
    ensures { result ≡ next j }
{
    let next = j + 1;
    if next < layout::SLOTS { next } else { 0 }
}

// Slots of the ring, one after the other: `left` of them, from slot `at` on.
#[derive(Drop)]
pub struct Slots {
    pub at: usize,
    pub left: usize,
    pub ghost in_ring: { at < slots },
}

impl Iterator for Slots {
    type Item = usize;

    ghost next_gives = { λ s r t. MatchOption r ((s.left ≡ 0) × (t.left ≡ 0)) (λ j. (0 < s.left) × (s.at ≡ j) × (t.at ≡ next j) × (t.left ≡ s.left - 1)) };

    ghost remaining = { λ s. at_most s.left };

    fn next(&mut self) -> Option<usize> {
        if self.left == 0 {
            return None;
        }
        let j = self.at;
        self.at = following(j);
        self.left -= 1;
        Some(j)
    }
}

// A run of slots of the ring: `count` of them, from slot `first` on.
#[derive(Clone, Copy)]
pub struct Span {
    pub first: usize,
    pub count: usize,
    pub ghost in_ring: { first < slots },
}

impl IntoIterator for Span {
    type Item = usize;

    type IntoIter = Slots;

    ghost into_iter_gives = { λ span s. (s.at ≡ span.first) × (s.left ≡ span.count) };

    fn into_iter(self) -> Slots {
        Slots {
            at: self.first,
            left: self.count,
        }
    }
}

// The time of the message in slot j.
fn time_in(state: &State, j: usize) -> u32
    requires { j < slots }
    ensures { result ≡ (slot (words state.now) j).time }
{
    memory::get(state, layout::SLOT_TIMES + j)
}

// The serial of the message in slot j.
pub fn serial_in(state: &State, j: usize) -> u32
    requires { j < slots }
    ensures { result ≡ (slot (words state.now) j).serial }
{
    memory::get(state, layout::SLOT_SERIALS + j)
}

// The urgency of the message in slot j, which stands above its number of cells.
pub fn urgency_in(state: &State, j: usize) -> u32
    requires { j < slots }
    ensures { result ≡ grade_in (slot (words state.now) j) }
{
    let word = memory::get(state, layout::CELL_COUNTS + j);
    word / layout::CELL_LIMIT % paper::URGENCY_LIMIT
}

// How many cells the message in slot j has, at most as many as a slot has room for whatever memory holds.
fn size_in(state: &State, j: usize) -> usize
    requires { j < slots }
    ensures size { result ≡ size_at (words state.now) j }
    ensures cells { result ≡ length (slot (words state.now) j).cells }
    ensures few { result ≤ most_pairs }
{
    let word = memory::get(state, layout::CELL_COUNTS + j);
    ((word % layout::CELL_LIMIT) as usize).min(MOST_PAIRS)
}

// Cell i of the message in slot j.
fn cell_at(state: &State, j: usize, i: usize) -> u32
    requires { (j < slots) × (i < length (slot (words state.now) j).cells) }
    ensures { result ≡ get_or (slot (words state.now) j).cells i 0 }
{
    memory::get(state, layout::CELLS + MOST_PAIRS * j + i)
}

// The first cell of the message in slot j that has the term, 0 where none has it.
fn cell_in(state: &State, j: usize, term: u32) -> u32
    requires { j < slots }
    ensures { result ≡ cell_with term (slot (words state.now) j).cells }
{
    for i in 0..size_in(state, j) {
        let cell = cell_at(state, j, i);
        if cell / impact::TERM_FACTOR == term {
            return cell;
        }
    }
    0
}

// The impact of the message in slot j in the term: that of the first cell with it, 0 where the message lacks it.
pub fn impact_in(state: &State, j: usize, term: u32) -> u32
    requires { j < slots }
    ensures { result ≡ lookup term (slot (words state.now) j).cells }
{
    cell_in(state, j, term) % impact::COUNT_FACTOR
}

// The count of the term in the message in slot j, 0 where the message lacks it.
pub fn count_in(state: &State, j: usize, term: u32) -> u32
    requires { j < slots }
    ensures { result ≡ cell_count (cell_with term (slot (words state.now) j).cells) }
{
    impact::count_of(cell_in(state, j, term))
}

// The sum of the counts squared of the message in slot j.
pub fn squares_in(state: &State, j: usize) -> u32
    requires { j < slots }
    ensures { (result ≡ cell_squares (slot (words state.now) j).cells) × (result ≤ most_squares) }
{
    let mut sum: u32 = 0;
    for i in 0..size_in(state, j) {
        let count = impact::count_of(cell_at(state, j, i));
        sum += count * count;
    }
    sum
}

// The table's entry of each term of the message in slot j becomes at least the message's impact in it.
fn raise_impacts(state: &State, j: usize, table: &mut [u16])
    requires { (j < slots) × (length table.old ≡ term_limit) }
    ensures { (length table.new ≡ term_limit) × Raised (slot (words state.now) j).cells table.old table.new }
{
    for i in 0..size_in(state, j) {
        let cell = cell_at(state, j, i);
        let term = (cell / impact::TERM_FACTOR) as usize;
        table[term] = table[term].max((cell % impact::COUNT_FACTOR) as u16);
    }
}

// The same for all messages of a run of slots.
pub fn raise_all(state: &State, messages: Span, table: &mut [u16])
    requires { length table.old ≡ term_limit }
    ensures { (length table.new ≡ term_limit) × RaisedBy (window (words state.now) messages.first messages.count) table.old table.new }
{
    for j in messages {
        raise_impacts(state, j, table);
    }
}

// Whether a term of the message in slot j has a place other than 0, by the sum of the places: no cell is tested.
pub fn has_place(state: &State, j: usize, places: &[u8]) -> bool
    requires { (j < slots) × (length places.now ≡ term_limit) }
    ensures { result ≡ touches places.now (slot (words state.now) j).cells }
{
    let mut sum: u32 = 0;
    for i in 0..size_in(state, j) {
        let cell = cell_at(state, j, i);
        let term = (cell / impact::TERM_FACTOR) as usize;
        sum += u32::from(places[term]);
    }
    0 < sum
}

// The impacts of the message in slot j go into the row from place `at` on: that of a term to the term's place in the row, and those of all terms
// that the table gives place 0 to the first one, which nobody reads: so no cell is tested. From the last cell to the first, so that the first
// cell of a term counts whatever memory holds.
pub fn look_at(state: &State, j: usize, places: &[u8], rows: &mut [u16], at: usize)
    requires in_bounds { (j < slots) × (length places.now ≡ term_limit) × (at + row_width ≤ length rows.old) }
    requires in_row { (t : ℕ) → get_or places.now t 0 ≤ most_terms }
    ensures { LookedAt (slot (words state.now) j).cells places.now at rows.old rows.new }
{
    for i in (0..size_in(state, j)).rev() {
        let cell = cell_at(state, j, i);
        let term = (cell / impact::TERM_FACTOR) as usize;
        let place = places[term] as usize;
        rows[at + place] = (cell % impact::COUNT_FACTOR) as u16;
    }
}

// The clock, and the run of slots that is the window.
#[derive(Clone, Copy)]
pub struct Cursor {
    pub clock: u32,
    pub messages: Span,
}

impl Cursor {
    // The cursor that the header says, brought into range.
    pub fn load(state: &State) -> Cursor
        ensures { Loaded (words state.now) result.clock result.messages.first result.messages.count }
    {
        let oldest = memory::get(state, layout::OLDEST) as usize;
        let count = memory::get(state, layout::COUNT) as usize;
        Cursor {
            clock: memory::get(state, layout::CLOCK),
            messages: Span {
                first: oldest % layout::SLOTS,
                count: count % layout::SLOTS,
            },
        }
    }

    // The clock moves on, and past messages go: the cursor itself walks.
    pub fn advanced(mut self, state: &State, life: u32, clock: u32) -> Cursor
        ensures { Advanced (words state.now) life self.messages.first self.messages.count clock result.clock result.messages.first result.messages.count }
    {
        self.clock = clock;
        while 0 < self.messages.count {
            let time = time_in(state, self.messages.first);
            if !is_past(life, clock, time) {
                break;
            }
            self.messages.first = following(self.messages.first);
            self.messages.count -= 1;
        }
        self
    }

    // Room for one more message: the oldest goes where `capacity` are there.
    pub fn roomy(self, capacity: u32) -> Cursor
        requires { self.messages.count < slots }
        ensures { Roomy capacity self.clock self.messages.first self.messages.count result.clock result.messages.first result.messages.count }
    {
        let count = self.messages.count;
        if count < capacity as usize {
            return self;
        }
        if count == 0 {
            return self;
        }
        Cursor {
            clock: self.clock,
            messages: Span {
                first: following(self.messages.first),
                count: count - 1,
            },
        }
    }
}

// The header says this cursor.
pub fn put_cursor(state: &mut State, cursor: Cursor)
    requires { cursor.messages.count < slots }
    ensures { PutCursor cursor.clock cursor.messages.first cursor.messages.count (words state.old) (words state.new) }
{
    memory::put(state, layout::CLOCK, cursor.clock);
    memory::put(state, layout::OLDEST, cursor.messages.first as u32);
    memory::put(state, layout::COUNT, cursor.messages.count as u32);
}

// Whether one of the messages in the slots from `first` up to `end` has the serial. All are looked at, without a branch: no slot's test waits for
// another's.
fn serial_among(state: &State, first: usize, end: usize, serial: u32) -> bool
    requires { end ≤ slots }
    ensures { result ≡ holds_serial serial (window (words state.now) first (end - first)) }
{
    let mut found = false;
    for j in first..end {
        found |= serial_in(state, j) == serial;
    }
    found
}

// Whether one of the messages has the serial: those up to the ring's last slot, and those from slot 0 on.
pub fn has_serial(state: &State, messages: Span, serial: u32) -> bool
    requires { messages.count < slots }
    ensures { result ≡ holds_serial serial (window (words state.now) messages.first messages.count) }
{
    let first = messages.first;
    let end = first + messages.count;
    if end <= layout::SLOTS {
        return serial_among(state, first, end, serial);
    }
    serial_among(state, first, layout::SLOTS, serial)
        | serial_among(state, 0, end - layout::SLOTS, serial)
}

// The slot of the first of the messages that has the serial, slot by slot; none where none has.
fn walk_to(state: &State, messages: Span, serial: u32) -> Option<usize>
    ensures { Sought (words state.now) serial (ring messages.first messages.count) result }
{
    for j in messages {
        if serial_in(state, j) == serial {
            return Some(j);
        }
    }
    None
}

// So many slots are compared with a serial before it is asked whether one has it: no comparison waits for another then.
const AT_ONCE: usize = 16;

// The same slot. Runs of slots without the serial are passed over whole; they differ in length, so no iterator gives the places.
pub fn slot_of(state: &State, messages: Span, serial: u32) -> Option<usize>
    ensures { Sought (words state.now) serial (ring messages.first messages.count) result }
{
    let mut first = messages.first;
    let mut left = messages.count;
    while 0 < left {
        // no more than are left of the window, and of the ring up to its end
        let run = AT_ONCE.min(left).min(layout::SLOTS - first);
        if serial_among(state, first, first + run, serial) {
            return walk_to(state, Span { first, count: left }, serial);
        }
        first = (first + run) % layout::SLOTS;
        left -= run;
    }
    None
}

// How many of the messages are in force.
pub fn in_force(state: &State, messages: Span) -> usize
    ensures { (result ≡ length (live (words state.now) (ring messages.first messages.count))) × (result ≤ messages.count) }
{
    let mut found: usize = 0;
    for j in messages {
        if 0 < size_in(state, j) {
            found += 1;
        }
    }
    found
}

// The message in slot j is cancelled: nobody sees cells of it any more, and no frame can say its serial. How many cells it had is kept
// beside the serial, and the urgency where it stands: nothing of the message is lost.
pub fn cancel(state: &mut State, j: usize)
    requires { j < slots }
    ensures { Cancelled j (words state.old) (words state.new) }
{
    let serial = serial_in(state, j) % paper::SERIALS;
    let size = size_in(state, j) as u32;
    let urgency = urgency_in(state, j);
    memory::put(
        state,
        layout::SLOT_SERIALS + j,
        serial + paper::SERIALS * size,
    );
    memory::put(state, layout::CELL_COUNTS + j, layout::CELL_LIMIT * urgency);
}

// The message's cells, from word `at` on.
fn put_cells(
    state: &mut State,
    at: usize,
    m: usize,
    terms: [u16; MOST_PAIRS],
    counts: [u8; MOST_PAIRS],
)
    requires in_bounds { (at + m ≤ state_words) × (m ≤ most_pairs) }
    requires fit { (i : ℕ) → i < m → (get_or terms i 0 < 2 ^ term_width) × (get_or counts i 0 < 2 ^ count_width) }
    ensures { Stored at m (cells_of (side_by_side m terms counts)) (words state.old) (words state.new) }
{
    let squares = impact::squared(counts, m);
    for i in 0..m {
        let count = u32::from(counts[i]);
        let impact = Impact::of(count, squares);
        let cell = impact::cell(u32::from(terms[i]), count, impact.value);
        memory::put(state, at + i, cell);
    }
}

// A message takes slot j. No frame has an urgency above vital.
pub fn put_message(
    state: &mut State,
    j: usize,
    time: u32,
    serial: u32,
    urgency: u32,
    m: usize,
    terms: [u16; MOST_PAIRS],
    counts: [u8; MOST_PAIRS],
)
    requires in_bounds { (j < slots) × (urgency ≤ level vital) × (m ≤ most_pairs) }
    requires fit { (i : ℕ) → i < m → (get_or terms i 0 < 2 ^ term_width) × (get_or counts i 0 < 2 ^ count_width) }
    ensures { Written j
        (record {
          time = time;
          serial = serial;
          urgency = urgency_of urgency;
          pairs = side_by_side m terms counts;
          cancelled = false;
        })
        (words state.old) (words state.new) }
{
    memory::put(state, layout::SLOT_TIMES + j, time);
    memory::put(state, layout::SLOT_SERIALS + j, serial);
    let word = m as u32 + layout::CELL_LIMIT * urgency;
    memory::put(state, layout::CELL_COUNTS + j, word);
    put_cells(state, layout::CELLS + MOST_PAIRS * j, m, terms, counts);
}
