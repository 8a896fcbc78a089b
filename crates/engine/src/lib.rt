// The engine: frames in, a ranked list for each registered query kept in lent memory.
#![tactic(auto)]

ghost use Rattle.std.specs.Prelude.{◌≡◌, ℕ, ◌+◌, ◌%◌, ◌<◌, ◌≤◌, ◌^◌, map, length, get_or, take};
ghost use Rattle.paper.specs.Frame.{Form, Frame, level, urgency_of, grade_of, numbers};
ghost use Rattle.paper.specs.Frame.{term_width, count_width, weight_width, most_pairs, most_terms, most_listed};
ghost use Rattle.paper.specs.Frame.Urgency.{vital};
ghost use Rattle.paper.specs.Write.{side_by_side};
ghost use Rattle.paper.specs.Window.{most_messages, arrival};
ghost use Rattle.paper.specs.Layout.{slots, capacity_at};
ghost use Rattle.paper.specs.Log.{in_ranges};
ghost use Rattle.memory.specs.Words.{words};
ghost use Rattle.engine.specs.Told.{number_told, told_reply, told_list, told_count, told_search, told_closeness};
ghost use Rattle.engine.specs.Post.{StartPost, FramePost, ListPost, PostingsPost, SearchPost, ClosenessPost, ScreenPost};
ghost use Rattle.window.specs.Slot.{slot};
ghost use Rattle.window.specs.Table.{term_limit, RaisedBy};
ghost use Rattle.window.specs.Cursor.{Moved};
ghost use Rattle.query.specs.Move.{in_slots, arrived_slot, cancelled_slot, cancelled_serial};
ghost use Rattle.query.specs.Post.{arriving};
ghost use Rattle.engine.specs.Inner.{Silenced, Passed, Followed, Departed, Joined, Did, Ticked, Registration};

use candidates::Query;
use closeness::Closeness;
use frame::Kind;
use paper::{MOST_PAIRS, Refusal, State, layout};
use query::{Arrived, Cancelled, Move};
use rank::Lines;
use window::{Cursor, Span};

// How many query numbers and how many terms there are, beside numbers and terms of 32 bits.
const NUMBERS: u32 = paper::NUMBERS as u32;

const TERMS: u32 = paper::TERMS as u32;

// The marks of the queries that a frame reaches, registers or drops, and how many messages departed.
#[derive(Clone, Copy)]
pub struct Reply {
    pub marks: u32,
    pub departures: u32,
}

// A search's list, and how many postings were read for it.
#[derive(Clone, Copy)]
pub struct Searched {
    pub list: Lines,
    pub read: u32,
}

// Marks with that of q, which isn't among them.
fn with_mark(marks: u32, q: usize) -> u32
    requires { q < numbers }
    ensures { result ≡ (marks + 2 ^ q) % 2 ^ 32 }
{
    ((marks as u64 + wire::pow2(q) as u64) % 4294967296) as u32
}

// Whether N and T are within their ranges.
fn in_range(capacity: u32, life: u32) -> bool
    ensures { result ≡ in_ranges capacity life }
{
    (1..=paper::MOST_MESSAGES).contains(&capacity) && (1..=paper::LONGEST_LIFE).contains(&life)
}

pub fn start(state: &mut [u8], capacity: u32, life: u32) -> Result<(), Refusal>
    ensures { StartPost capacity life state.old (number_told result) state.new }
{
    if !in_range(capacity, life) {
        return Err(Refusal::Start);
    }
    let Some(state) = state.as_mut_array::<{ layout::STATE }>() else {
        return Err(Refusal::Memory);
    };
    state.fill(0);
    memory::put(state, layout::CAPACITY, capacity);
    memory::put(state, layout::LIFE, life);
    Ok(())
}

// A table raised to the impacts of the message in slot j.
fn raise_one(state: &State, j: usize, table: &mut [u16])
    requires { (j < slots) × (length table.old ≡ term_limit) }
    ensures { (length table.new ≡ term_limit) × RaisedBy (map (slot (words state.now)) (arriving j)) table.old table.new }
{
    window::raise_all(state, Span { first: j, count: 1 }, table);
}

// A table raised to the impacts of the message that arrived, where one did.
fn raise_newest(state: &State, newest: Option<Arrived>, table: &mut [u16])
    requires { length table.old ≡ term_limit }
    ensures { (length table.new ≡ term_limit) × RaisedBy (map (slot (words state.now)) (arriving (arrived_slot newest))) table.old table.new }
{
    match newest {
        Some(newest) => raise_one(state, newest.slot, table),
        None => {}
    }
}

// A table raised to the impacts of the message that is cancelled, where one is; it is silent from then on.
fn silence(state: &mut State, cancelled: Option<Cancelled>, table: &mut [u16])
    requires { length table.old ≡ term_limit }
    ensures raised { (length table.new ≡ term_limit) × RaisedBy (map (slot (words state.old)) (arriving (cancelled_slot cancelled))) table.old table.new }
    ensures silenced { Silenced (cancelled_slot cancelled) (words state.old) (words state.new) }
{
    match cancelled {
        Some(cancelled) => {
            raise_one(state, cancelled.slot, table);
            window::cancel(state, cancelled.slot);
        }
        None => {}
    }
}

// Every registered query is updated where the frame reaches it; the marks of those.
fn pass(state: &mut State, moved: Move, coming: &[u16], going: &[u16]) -> u32
    requires { (length coming.now ≡ term_limit) × (length going.now ≡ term_limit) }
    ensures { Passed numbers (words state.old) (in_slots moved) coming.now going.now result (words state.new) }
{
    let mut marks: u32 = 0;
    for q in 0..paper::NUMBERS {
        if query::in_use(state, q) && query::update(state, q, moved, coming, going) {
            marks += wire::pow2(q);
        }
    }
    marks
}

// The queries follow a move. What comes and what goes is looked up in tables, made once for all, while a cancelled message still has what it had.
fn update_all(state: &mut State, moved: Move) -> u32
    ensures { Followed (words state.old) (in_slots moved) result (words state.new) }
{
    let mut coming = [0u16; paper::TERMS];
    let mut going = [0u16; paper::TERMS];
    raise_newest(state, moved.newest, &mut coming);
    window::raise_all(state, moved.gone, &mut going);
    silence(state, moved.cancelled, &mut going);
    pass(state, moved, &coming, &going)
}

// How many messages can be in force, at most as many as the ring has room for whatever memory holds.
fn capacity_of(state: &State) -> u32
    ensures { (result ≤ most_messages) × (get_or (words state.now) capacity_at 0 ≤ most_messages → result ≡ get_or (words state.now) capacity_at 0) }
{
    memory::get(state, layout::CAPACITY).min(paper::MOST_MESSAGES)
}

// A message joins the window in the slot after those that stay: never one that departs with it, which the queries still look at.
fn join(
    state: &mut State,
    before: Cursor,
    after: Cursor,
    time: u32,
    serial: u32,
    urgency: u32,
    m: usize,
    terms: [u16; MOST_PAIRS],
    counts: [u8; MOST_PAIRS],
) -> Reply
    requires in_bounds { (urgency ≤ level vital) × (m ≤ most_pairs) }
    requires by_index { (i : ℕ) → i < m → (get_or terms i 0 < 2 ^ term_width) × (get_or counts i 0 < 2 ^ count_width) }
    requires in_window { (before.messages.count < slots) × (after.messages.count < most_messages)
        × Moved before.messages.first before.messages.count after.messages.first after.messages.count }
    ensures { Joined (arrival time serial (urgency_of urgency) (side_by_side m terms counts))
        before.messages.first before.messages.count after.messages.first after.messages.count (words state.old) result (words state.new) }
{
    let stay = after.messages;
    let gone = Span {
        first: before.messages.first,
        count: before.messages.count - stay.count,
    };
    let departures = window::in_force(state, gone);
    let slot = (stay.first + stay.count) % layout::SLOTS;
    window::put_message(state, slot, time, serial, urgency, m, terms, counts);
    let messages = Span {
        first: stay.first,
        count: stay.count + 1,
    };
    let clock = time;
    window::put_cursor(state, Cursor { clock, messages });
    let moved = Move {
        gone,
        window: messages,
        newest: Some(Arrived { slot }),
        cancelled: None,
    };
    let marks = update_all(state, moved);
    Reply {
        marks,
        departures: departures as u32,
    }
}

// A message in any of its forms: of these the log keeps the urgency alone.
fn message(
    state: &mut State,
    time: u32,
    serial: u32,
    urgency: u32,
    m: usize,
    terms: [u16; MOST_PAIRS],
    counts: [u8; MOST_PAIRS],
) -> Result<Reply, Refusal>
    requires in_bounds { urgency ≤ level vital }
    requires le_m { (1 ≤ m) × (m ≤ most_pairs) }
    requires by_index { (i : ℕ) → i < m → (get_or terms i 0 < 2 ^ term_width) × (get_or counts i 0 < 2 ^ count_width) }
    ensures { (g : Form) → grade_of g ≡ urgency_of urgency → Did (Frame.message time serial g (side_by_side m terms counts)) state.old result state.new }
{
    let before = Cursor::load(state);
    if time < before.clock {
        return Err(Refusal::Time);
    }
    let life = memory::get(state, layout::LIFE);
    let aged = before.advanced(state, life, time);
    if window::has_serial(state, aged.messages, serial) {
        return Err(Refusal::Serial);
    }
    let after = aged.roomy(capacity_of(state));
    Ok(join(
        state, before, after, time, serial, urgency, m, terms, counts,
    ))
}

// The window without its oldest messages, and without the cancelled one where there is one; the departures of the oldest.
fn depart(state: &mut State, before: Cursor, after: Cursor, cancelled: Option<Cancelled>) -> Reply
    requires { (before.messages.count < slots) × Moved before.messages.first before.messages.count after.messages.first after.messages.count }
    ensures { Departed after.clock (cancelled_slot cancelled) (cancelled_serial cancelled)
        before.messages.first before.messages.count after.messages.first after.messages.count (words state.old) result (words state.new) }
{
    let gone = Span {
        first: before.messages.first,
        count: before.messages.count - after.messages.count,
    };
    let departures = window::in_force(state, gone);
    window::put_cursor(state, after);
    let moved = Move {
        gone,
        window: after.messages,
        newest: None,
        cancelled,
    };
    let marks = update_all(state, moved);
    Reply {
        marks,
        departures: departures as u32,
    }
}

// The clock moves on, past messages go, and the queries that they reach are updated.
fn advance(state: &mut State, time: u32) -> Reply
    ensures { Ticked time (words state.old) result (words state.new) }
{
    let before = Cursor::load(state);
    let life = memory::get(state, layout::LIFE);
    let after = before.advanced(state, life, time);
    depart(state, before, after, None)
}

fn tick(state: &mut State, time: u32) -> Result<Reply, Refusal>
    ensures { Did (Frame.tick time) state.old result state.new }
{
    if time < memory::get(state, layout::CLOCK) {
        return Err(Refusal::Time);
    }
    Ok(advance(state, time))
}

fn register(state: &mut State, time: u32, number: usize, query: Query) -> Result<Reply, Refusal>
    requires in_range { (number < numbers) × (1 ≤ query.k) × (query.k ≤ most_listed) × (1 ≤ query.n) }
    requires pairs_fit { (i : ℕ) → i < query.n → (get_or query.terms i 0 < 2 ^ term_width) × (get_or query.weights i 0 < 2 ^ weight_width) }
    ensures { Did (Frame.register time number query.k (side_by_side query.n query.terms query.weights)) state.old result state.new }
{
    if time < memory::get(state, layout::CLOCK) {
        return Err(Refusal::Time);
    }
    if query::in_use(state, number) {
        return Err(Refusal::InUse);
    }
    let reply = advance(state, time);
    query::register(state, number, query, Cursor::load(state).messages);
    Ok(Reply {
        marks: with_mark(reply.marks, number),
        departures: reply.departures,
    })
}

fn unregister(state: &mut State, time: u32, number: usize) -> Result<Reply, Refusal>
    requires number_lt_numbers { number < numbers }
    ensures { Did (Frame.unregister time number) state.old result state.new }
{
    if time < memory::get(state, layout::CLOCK) {
        return Err(Refusal::Time);
    }
    if !query::in_use(state, number) {
        return Err(Refusal::NotInUse);
    }
    query::clear(state, number);
    let reply = advance(state, time);
    Ok(Reply {
        marks: with_mark(reply.marks, number),
        departures: reply.departures,
    })
}

// The message in force with the serial departs, and past messages with it.
fn cancel(state: &mut State, time: u32, serial: u32) -> Result<Reply, Refusal>
    ensures { Did (Frame.cancel time serial) state.old result state.new }
{
    let before = Cursor::load(state);
    if time < before.clock {
        return Err(Refusal::Time);
    }
    let life = memory::get(state, layout::LIFE);
    let after = before.advanced(state, life, time);
    let Some(slot) = window::slot_of(state, after.messages, serial) else {
        return Err(Refusal::NotInForce);
    };
    let cancelled = Cancelled { slot, serial };
    let reply = depart(state, before, after, Some(cancelled));
    Ok(Reply {
        marks: reply.marks,
        departures: reply.departures + 1,
    })
}

// A query of a frame's first n pairs: it has no more than eight.
fn query_of(k: u32, n: usize, terms: [u16; MOST_PAIRS], weights: [u8; MOST_PAIRS]) -> Query
    requires { n ≤ most_terms }
    ensures { (result.k ≡ k) × (result.n ≡ n) × (result.terms ≡ take 8 terms) × (result.weights ≡ take 8 weights) }
{
    let mut few = [0u32; 8];
    let mut weighted = [0u32; 8];
    for i in 0..8 {
        few[i] = u32::from(terms[i]);
        weighted[i] = u32::from(weights[i]);
    }
    Query {
        k: k as usize,
        n,
        terms: few,
        weights: weighted,
    }
}

pub fn frame(state: &mut [u8], bytes: &[u8]) -> Result<Reply, Refusal>
    ensures { FramePost state.old bytes.now (told_reply result) state.new }
{
    let Some(state) = state.as_mut_array::<{ layout::STATE }>() else {
        return Err(Refusal::Memory);
    };
    let parsed = frame::read(bytes)?;
    let terms = parsed.terms;
    let amounts = parsed.amounts;
    match parsed.what {
        Kind::Message {
            time,
            serial,
            urgency,
            pairs,
            ..
        } => message(state, time, serial, urgency, pairs, terms, amounts),
        Kind::Tick { time } => tick(state, time),
        Kind::Register {
            time,
            number,
            k,
            terms: n,
        } => {
            let query = query_of(k, n, terms, amounts);
            register(state, time, number as usize, query)
        }
        Kind::Unregister { time, number } => unregister(state, time, number as usize),
        Kind::Cancel { time, serial } => cancel(state, time, serial),
    }
}

// The number, which may be any, where a query is registered under it.
fn registered(state: &State, number: u32) -> Result<usize, Refusal>
    ensures { Registration (words state.now) number result }
{
    if number < NUMBERS && query::in_use(state, number as usize) {
        Ok(number as usize)
    } else {
        Err(Refusal::NotInUse)
    }
}

pub fn list(state: &[u8], number: u32) -> Result<Lines, Refusal>
    ensures { ListPost state.now number (told_list result) }
{
    let Some(state) = state.as_array::<{ layout::STATE }>() else {
        return Err(Refusal::Memory);
    };
    let q = registered(state, number)?;
    Ok(Lines::of(query::load_list(state, q)))
}

// The postings of a term, into out: serial and impact of each, four bytes each. How many there are.
pub fn postings(state: &[u8], term: u32, out: &mut [u8]) -> Result<u32, Refusal>
    ensures { PostingsPost state.now term out.old (told_count result) out.new }
{
    let Some(state) = state.as_array::<{ layout::STATE }>() else {
        return Err(Refusal::Memory);
    };
    if TERMS <= term {
        return Err(Refusal::Value);
    }
    let messages = Cursor::load(state).messages;
    let found = posting::having(state, messages, term);
    if out.len() / 8 < found {
        return Err(Refusal::Memory);
    }
    posting::write(state, messages, term, out);
    Ok(found as u32)
}

// The list that registering the frame's query would give, and the postings that a search for it reads.
pub fn search(state: &[u8], bytes: &[u8]) -> Result<Searched, Refusal>
    ensures { SearchPost state.entry.now bytes.now (told_search result) × (state.exit.now ≡ state.entry.now) }
{
    let Some(state) = state.as_array::<{ layout::STATE }>() else {
        return Err(Refusal::Memory);
    };
    let asked = frame::read_asked(bytes)?;
    let query = query_of(asked.k, asked.n, asked.terms, asked.weights);
    let outcome = search::search(state, Cursor::load(state).messages, query);
    Ok(Searched {
        list: Lines::of(outcome.list),
        read: outcome.read,
    })
}

// How close the message in force with the serial is to the query under the number. The slot of a cancelled message has a number above all serials in the
// place of its own: so what is above them isn't looked for.
pub fn closeness(state: &[u8], serial: u32, number: u32) -> Result<Closeness, Refusal>
    ensures { ClosenessPost state.entry.now serial number (told_closeness result) × (state.exit.now ≡ state.entry.now) }
{
    let Some(state) = state.as_array::<{ layout::STATE }>() else {
        return Err(Refusal::Memory);
    };
    if paper::SERIALS <= serial {
        return Err(Refusal::NotInForce);
    }
    let cursor = Cursor::load(state);
    let Some(j) = window::slot_of(state, cursor.messages, serial) else {
        return Err(Refusal::NotInForce);
    };
    let q = registered(state, number)?;
    Ok(Closeness::of(state, j, query::load_query(state, q)))
}

// The lines of one screen for all queries, into out: number, serial and score of each. How many there are.
pub fn screen(state: &[u8], lines: u32, out: &mut [u8]) -> Result<u32, Refusal>
    ensures { ScreenPost state.entry.now lines out.old (told_count result) out.new × (state.exit.now ≡ state.entry.now) }
{
    let Some(state) = state.as_array::<{ layout::STATE }>() else {
        return Err(Refusal::Memory);
    };
    if screen::MOST_LINES < lines {
        return Err(Refusal::Value);
    }
    let lines = lines as usize;
    if out.len() < screen::LINE * lines {
        return Err(Refusal::Memory);
    }
    let placed = screen::share(state, lines, out);
    Ok(placed as u32)
}
