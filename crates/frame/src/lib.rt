// Frames: what a slice of bytes says, and the bytes of a frame's fields.
#![tactic(auto)]

ghost use Rattle.std.specs.Prelude.{◌≡◌, ℕ, ◌+◌, ◌-◌, ◌*◌, ◌/◌, ◌%◌, ◌≤◌, ◌<◌, ◌^◌, length, take, get_or, eqb, cond, List, ◌∷◌};
ghost use Rattle.wire.specs.Bits.{unpack};
ghost use Rattle.wire.specs.Field.{field, placed, total, spell, scan};
ghost use Rattle.paper.specs.Frame.{shape, shape_of_kind, row_of, grades_known, kind_width, count_width};
ghost use Rattle.paper.specs.Frame.{most_pairs, written, bytes_for, fill_after};
ghost use Rattle.paper.specs.Refusal.{number_of};
ghost use Rattle.paper.specs.Write.{from_fields, side_by_side};
ghost use Rattle.paper.specs.Search.{asked};
ghost use Rattle.frame.specs.Read.{ReadPost, PairsPost, CheckedPost, RowPost, FramedPost, Narrow, padded, judge_next, fit_number, verdict};
ghost use Rattle.frame.specs.Ask.{AskedPost, asked_number};
ghost use Rattle.frame.specs.Write.{WritePost, ValuesPost, PutPost, fields, fitting, less_one, sound_pair, pairs_verdict};
ghost use Rattle.frame.specs.Write.{pair_bits, laid, in_numbers};

use paper::{MOST_PAIRS, Refusal};

// What a frame is. Its pairs stand beside it, in Parsed.
#[derive(Clone, Copy)]
pub enum Kind {
    // The form is the kind that it was written in: 1, whose messages are routine, 6 or 7.
    Message {
        form: u32,
        time: u32,
        serial: u32,
        urgency: u32,
        pairs: usize,
    },
    Tick {
        time: u32,
    },
    Register {
        time: u32,
        number: u32,
        k: u32,
        terms: usize,
    },
    Unregister {
        time: u32,
        number: u32,
    },
    Cancel {
        time: u32,
        serial: u32,
    },
}

// The places of both arrays past the frame's pairs are 0. They are as narrow as their fields allow, and not one array of pairs, which would be a third
// wider: every frame pays for moving them, however few its pairs are.
#[derive(Clone, Copy)]
pub struct Parsed {
    pub what: Kind,
    pub terms: [u16; MOST_PAIRS],
    pub amounts: [u8; MOST_PAIRS],
}

// A frame's pairs.
#[derive(Clone, Copy)]
struct PairList {
    terms: [u16; MOST_PAIRS],
    amounts: [u8; MOST_PAIRS],
}

// A kind's row of the table: the bits of all its fields before the pairs, the widths of those after the kind, and of a count or weight, which is 0 where
// the kind has no pairs. A kind without a row has no fields.
#[derive(Clone, Copy)]
struct Row {
    bits: usize,
    widths: &'static [usize],
    amount: usize,
}

fn row_with(bits: usize, widths: &'static [usize], amount: usize) -> Row
    ensures { (result.bits ≡ bits) × (result.widths.now ≡ widths.now) × (result.amount ≡ amount) }
{
    Row {
        bits,
        widths,
        amount,
    }
}

// A new kind is one more row here, and one more case of framed and of values_of, and of graded where it has a grade. A kind stays a number here: it is
// what stands on the wire, and what the C host passes.
fn row_of(kind: u32) -> Row
    ensures { RowPost (row_of kind) result }
{
    match kind {
        1 => row_with(60, &[32, 20, 4], 8),
        2 => row_with(36, &[32], 0),
        3 => row_with(48, &[32, 5, 4, 3], 4),
        4 => row_with(41, &[32, 5], 0),
        5 => row_with(56, &[32, 20], 0),
        6 => row_with(62, &[32, 20, 2, 4], 8),
        7 => row_with(63, &[32, 20, 2, 5], 8),
        _ => row_with(4, &[], 0),
    }
}

// Whether a grade among the values of a kind's fields is one of the three.
fn graded(kind: u32, values: [u32; 5]) -> bool
    ensures { result ≡ grades_known (row_of kind).head values }
{
    match kind {
        6 | 7 => values[2] < 3,
        _ => true,
    }
}

// One pair more, after pairs judged so far: Value before Order. The terms before it are below least.
fn judge(before: Result<(), Refusal>, sound: bool, least: u32, term: u32) -> Result<(), Refusal>
    ensures { verdict result ≡ judge_next (verdict before) sound least term }
{
    if !sound {
        return Err(Refusal::Value);
    }
    before?;
    if term < least {
        return Err(Refusal::Order);
    }
    Ok(())
}

// Whether so many bits take these bytes, and the fill is 0.
fn misfit(bytes: &[u8], bits: usize) -> Result<(), Refusal>
    requires { bits ≤ 2 ^ 32 }
    ensures { verdict result ≡ fit_number bytes.now bits }
{
    let size = (bits + 7) / 8;
    if bytes.len() != size {
        return Err(Refusal::Length);
    }
    let fill = wire::take_bits(bytes, bits, size * 8 - bits);
    if fill != 0 {
        return Err(Refusal::Fill);
    }
    Ok(())
}

fn high_bits(both: u32, width: usize) -> u32
    requires { width < 32 }
    ensures { result ≡ both / 2 ^ width }
{
    both >> width
}

fn low_bits(both: u32, width: usize) -> u32
    requires { width < 32 }
    ensures { result ≡ both % 2 ^ width }
{
    let limit = wire::pow2(width);
    both % limit
}

// The m pairs from bit `at`, whose counts or weights have `width` bits, where nothing of Value and Order refuses them.
fn take_pairs(bytes: &[u8], at: usize, width: usize, m: usize) -> Result<PairList, Refusal>
    requires width_bound { at + m * (10 + width) ≤ 8 * length bytes.now }
    requires width_bound_2 { (at + m * (10 + width) ≤ 1024) × (m ≤ most_pairs) × (width ≤ count_width) }
    ensures { PairsPost bytes.now at width m result }
{
    let mut terms = [0u16; MOST_PAIRS];
    let mut amounts = [0u8; MOST_PAIRS];
    let mut judged = Ok(());
    let mut least = 0;
    let mut next = at;
    for i in 0..m {
        let both = wire::take_bits(bytes, next, 10 + width);
        let term = high_bits(both, width);
        let amount = low_bits(both, width);
        terms[i] = term as u16;
        amounts[i] = amount as u8;
        judged = judge(judged, 0 < amount, least, term);
        least = term + 1;
        next += 10 + width;
    }
    judged?;
    Ok(PairList { terms, amounts })
}

// The m pairs after a head of so many bits, whose grade is known or not, where nothing of Length, Fill, Urgency, Value and Order refuses them.
fn checked_pairs(
    bytes: &[u8],
    head: usize,
    width: usize,
    m: usize,
    known: bool,
) -> Result<PairList, Refusal>
    requires { (head + m * (10 + width) ≤ 1024) × (m ≤ most_pairs) × (width ≤ count_width) }
    ensures { CheckedPost bytes.now head width m known result }
{
    misfit(bytes, head + m * (10 + width))?;
    if !known {
        return Err(Refusal::Urgency);
    }
    take_pairs(bytes, head, width, m)
}

// The values of fields of these widths, one after the other from bit `at`.
fn take_fields(bytes: &[u8], at: usize, widths: &[usize]) -> [u32; 5]
    requires widths_bound { (at + total widths.now ≤ 8 * length bytes.now) × (at + total widths.now ≤ 1024) }
    requires fields_bound { (length widths.now ≤ 5) × Narrow widths.now }
    ensures { result ≡ padded 5 (scan bytes.now at widths.now) }
{
    let mut values = [0u32; 5];
    let mut next = at;
    for i in 0..widths.len() {
        values[i] = wire::take_bits(bytes, next, widths[i]);
        next += widths[i];
    }
    values
}

// How many pairs follow: the last field says one less, where the kind has pairs.
fn pairs_by(amount: usize, fields: usize, values: [u32; 5]) -> usize
    requires { (0 < fields) × (fields ≤ 5) }
    ensures { result ≡ cond (eqb amount 0) 0 (get_or values (fields - 1) 0 + 1) }
{
    if amount == 0 {
        return 0;
    }
    values[fields - 1] as usize + 1
}

// The frame of a kind with these values and m pairs.
fn framed(kind: u32, values: [u32; 5], m: usize) -> Result<Kind, Refusal>
    requires { get_or values 2 0 < 16 }
    ensures { FramedPost kind values m result }
{
    let time = values[0];
    match kind {
        1 => Ok(Kind::Message {
            form: kind,
            time,
            serial: values[1],
            urgency: 0,
            pairs: m,
        }),
        2 => Ok(Kind::Tick { time }),
        3 => Ok(Kind::Register {
            time,
            number: values[1],
            k: values[2] + 1,
            terms: m,
        }),
        4 => Ok(Kind::Unregister {
            time,
            number: values[1],
        }),
        5 => Ok(Kind::Cancel {
            time,
            serial: values[1],
        }),
        6 | 7 => Ok(Kind::Message {
            form: kind,
            time,
            serial: values[1],
            urgency: values[2],
            pairs: m,
        }),
        _ => Err(Refusal::Kind),
    }
}

// The fields after the kind, from bit `at` on, by the row of the kind.
fn read_kind(bytes: &[u8], at: usize, kind: u32) -> Result<Parsed, Refusal>
    requires { at ≡ kind_width }
    ensures { ReadPost (shape_of_kind kind bytes.now) result }
{
    let row = row_of(kind);
    if row.widths.is_empty() {
        return Err(Refusal::Kind);
    }
    // too short for the number of pairs, and so for any pair
    if bytes.len() < (row.bits + 7) / 8 {
        return Err(Refusal::Length);
    }
    let values = take_fields(bytes, at, row.widths);
    let m = pairs_by(row.amount, row.widths.len(), values);
    let known = graded(kind, values);
    let pairs = checked_pairs(bytes, row.bits, row.amount, m, known)?;
    let what = framed(kind, values, m)?;
    let terms = pairs.terms;
    let amounts = pairs.amounts;
    Ok(Parsed {
        what,
        terms,
        amounts,
    })
}

// The fields in order from one reader: the kind, and then those of its row from the bit where the reader stands.
fn read_fields(bytes: &[u8]) -> Result<Parsed, Refusal>
    requires { 5 ≤ length bytes.now }
    ensures { ReadPost (shape_of_kind (field bytes.now 0 4) bytes.now) result }
{
    let r = wire::BitReader::new(bytes);
    let kind = r.take(4);
    let r = r.after(4);
    read_kind(r.frame, r.at, kind)
}

// What the bytes are: a frame, or the first of the refusals 1 to 4, 14, 5 and 6 that applies.
pub fn read(bytes: &[u8]) -> Result<Parsed, Refusal>
    ensures { ReadPost (shape bytes.now) result }
{
    if bytes.len() < 5 {
        return Err(Refusal::Short);
    }
    read_fields(bytes)
}

// What a search asks for: the length of its list, and its terms with their weights.
#[derive(Clone, Copy)]
pub struct Asked {
    pub k: u32,
    pub n: usize,
    pub terms: [u16; MOST_PAIRS],
    pub weights: [u8; MOST_PAIRS],
}

// What refuses a search whose frame is refused: a malformed frame of another kind is of another kind first. One too short to have a kind keeps its
// refusal.
fn asked_refusal(bytes: &[u8], refusal: Refusal) -> Refusal
    ensures { number_of result ≡ asked_number bytes.now (number_of refusal) }
{
    if 5 <= bytes.len() {
        let kind = wire::take_bits(bytes, 0, 4);
        if kind != 3 {
            return Refusal::Kind;
        }
    }
    refusal
}

// What the bytes ask for as the frame of a search, which is a registration's; its time and number are ignored.
pub fn read_asked(bytes: &[u8]) -> Result<Asked, Refusal>
    ensures { AskedPost (asked bytes.now) result }
{
    let parsed = match read(bytes) {
        Ok(parsed) => parsed,
        Err(refusal) => return Err(asked_refusal(bytes, refusal)),
    };
    let Kind::Register { k, terms: n, .. } = parsed.what else {
        return Err(Refusal::Kind);
    };
    let terms = parsed.terms;
    let weights = parsed.amounts;
    Ok(Asked {
        k,
        n,
        terms,
        weights,
    })
}

fn sound_pair(term: u32, amount: u32, limit: u32) -> bool
    ensures { result ≡ sound_pair limit term amount }
{
    term < 1024 && (0 < amount && amount < limit)
}

// A number as it stands in a field less one: out of range it is more than such a field holds.
fn less_one(n: usize) -> u32
    ensures { result ≡ less_one n }
{
    if n == 0 || 256 < n {
        return u32::MAX;
    }
    (n - 1) as u32
}

// The values of a kind's fields after the kind.
fn values_of(
    kind: u32,
    time: u32,
    serial: u32,
    urgency: u32,
    number: u32,
    k: u32,
    pairs: usize,
) -> [u32; 5]
    ensures { (ts us : List ℕ) → ValuesPost (fields kind time serial urgency number k pairs ts us) result }
{
    match kind {
        1 => [time, serial, less_one(pairs), 0, 0],
        2 => [time, 0, 0, 0, 0],
        3 => [time, number, less_one(k as usize), less_one(pairs), 0],
        4 => [time, number, 0, 0, 0],
        5 => [time, serial, 0, 0, 0],
        6 | 7 => [time, serial, urgency, less_one(pairs), 0],
        _ => [0, 0, 0, 0, 0],
    }
}

// How many pairs a kind takes: none where its counts or weights have no bits.
fn pairs_taken(amount: usize, pairs: usize) -> usize
    ensures { result ≡ cond (eqb amount 0) 0 pairs }
{
    if amount == 0 {
        return 0;
    }
    pairs
}

// Whether each value has no more bits than its field.
fn fit(widths: &[usize], values: [u32; 5]) -> bool
    requires { (length widths.now ≤ 5) × Narrow widths.now }
    ensures { result ≡ fitting widths.now values }
{
    for i in 0..widths.len() {
        if 1u64 << widths[i] <= values[i] as u64 {
            return false;
        }
    }
    true
}

// Whether nothing of Value and Order refuses the first places of both slices as pairs.
fn judge_pairs(width: usize, pairs: usize, terms: &[u16], amounts: &[u8]) -> Result<(), Refusal>
    requires { width < 32 }
    ensures { verdict result ≡ pairs_verdict width pairs terms.now amounts.now }
{
    if terms.len() < pairs || amounts.len() < pairs {
        return Err(Refusal::Value);
    }
    let limit = 1u32 << width;
    let mut judged = Ok(());
    let mut floor = 0;
    for i in 0..pairs {
        let term = terms[i] as u32;
        let sound = sound_pair(term, amounts[i] as u32, limit);
        judged = judge(judged, sound, floor, term);
        floor = term + 1;
    }
    judged
}

// The first places of both slices as pairs, from bit `at`.
fn put_pairs(out: &mut [u8], at: usize, width: usize, pairs: usize, terms: &[u16], amounts: &[u8])
    requires width_bound { at + pairs * (10 + width) ≤ 8 * length out.old }
    requires width_bound_2 { (at + pairs * (10 + width) ≤ 1024) × (width ≤ 32) }
    requires pairs_in_bounds { (pairs ≤ length terms.now) × (pairs ≤ length amounts.now) }
    ensures { unpack out.new ≡ laid out.old at (pair_bits width pairs terms.now amounts.now) }
{
    let mut next = at;
    for i in 0..pairs {
        wire::put_bits(out, next, 10, terms[i] as u32);
        wire::put_bits(out, next + 10, width, amounts[i] as u32);
        next += 10 + width;
    }
}

// Zero bits after the last field, up to the byte; the length in bytes.
fn put_fill(out: &mut [u8], bits: usize) -> usize
    requires { (bytes_for bits ≤ length out.old) × (bits ≤ 1024) }
    ensures { (result ≡ bytes_for bits) × (unpack out.new ≡ placed out.old bits (fill_after bits) 0) }
{
    let length = (bits + 7) / 8;
    wire::put_bits(out, bits, length * 8 - bits, 0);
    length
}

// Values into fields of these widths, one after the other from bit `at`.
fn put_fields(out: &mut [u8], at: usize, widths: &[usize], values: [u32; 5])
    requires widths_bound { (at + total widths.now ≤ 8 * length out.old) × (at + total widths.now ≤ 1024) }
    requires fields_bound { (length widths.now ≤ 5) × Narrow widths.now }
    ensures { unpack out.new ≡ laid out.old at (spell widths.now (take (length widths.now) values)) }
{
    let mut next = at;
    for i in 0..widths.len() {
        wire::put_bits(out, next, widths[i], values[i]);
        next += widths[i];
    }
}

// The kind, the values of its fields by its row, the pairs and the fill; the length in bytes.
fn put(
    out: &mut [u8],
    kind: u32,
    row: Row,
    values: [u32; 5],
    pairs: usize,
    terms: &[u16],
    amounts: &[u8],
) -> usize
    requires bits_value { (row.bits ≡ total (kind_width ∷ row.widths.now)) × (length row.widths.now ≤ 5) × Narrow row.widths.now }
    requires amount_bound { (row.amount ≤ 32) × (pairs ≤ length terms.now) × (pairs ≤ length amounts.now) }
    requires amount_bound_2 { (row.bits + pairs * (10 + row.amount) ≤ 1024) × (bytes_for (row.bits + pairs * (10 + row.amount)) ≤ length out.old) }
    ensures { PutPost (written (kind_width ∷ row.widths.now) row.amount (kind ∷ take (length row.widths.now) values)
        (side_by_side pairs terms.now amounts.now)) out.old out.new result }
{
    wire::put_bits(out, 0, 4, kind);
    put_fields(out, 4, row.widths, values);
    put_pairs(out, row.bits, row.amount, pairs, terms, amounts);
    put_fill(out, row.bits + pairs * (10 + row.amount))
}

// The bytes of the frame with these fields, into out; their length. Only the fields of the kind are looked at; the pairs are the first places of both
// slices.
pub fn write(
    out: &mut [u8],
    kind: u32,
    time: u32,
    serial: u32,
    urgency: u32,
    number: u32,
    k: u32,
    pairs: usize,
    terms: &[u16],
    amounts: &[u8],
) -> Result<usize, Refusal>
    ensures { WritePost (from_fields (fields kind time serial urgency number k pairs terms.now amounts.now)) out.old out.new (in_numbers result) }
{
    let row = row_of(kind);
    if row.widths.is_empty() {
        return Err(Refusal::Kind);
    }
    let values = values_of(kind, time, serial, urgency, number, k, pairs);
    if !graded(kind, values) {
        return Err(Refusal::Urgency);
    }
    if !fit(row.widths, values) {
        return Err(Refusal::Value);
    }
    let m = pairs_taken(row.amount, pairs);
    judge_pairs(row.amount, m, terms, amounts)?;
    if out.len() < (row.bits + m * (10 + row.amount) + 7) / 8 {
        return Err(Refusal::Memory);
    }
    Ok(put(out, kind, row, values, m, terms, amounts))
}
