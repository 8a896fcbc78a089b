// Why a call is refused: the table of document 01, "Replies", and what document 02 adds to it.
ghost use Rattle.std.specs.Prelude.{◌≡◌};
ghost use Rattle.paper.specs.Refusal.{number_of};

#[derive(Clone, Copy, Debug, PartialEq, Eq)]
pub enum Refusal {
    // A frame of fewer than 5 bytes.
    Short,
    // A kind without a row; in a search any but a registration's.
    Kind,
    // A frame longer or shorter than its fields need.
    Length,
    // A fill bit is one.
    Fill,
    // A count or weight of 0; in the writer and the readings a value outside its range.
    Value,
    // Terms that don't rise.
    Order,
    // A time below the clock.
    Time,
    // The serial of a message in force.
    Serial,
    // A registration under a number in use.
    InUse,
    // A number not in use, those above 31 included.
    NotInUse,
    // N or T outside its range.
    Start,
    // State memory not of its length, or output shorter than needed.
    Memory,
    // A serial that no message in force has.
    NotInForce,
    // A grade that is none of the three.
    Urgency,
}

// The number in the table.
impl From<Refusal> for u32 {
    ghost from_gives = { λ refusal number. number ≡ number_of refusal };

    fn from(refusal: Refusal) -> u32 {
        match refusal {
            Refusal::Short => 1,
            Refusal::Kind => 2,
            Refusal::Length => 3,
            Refusal::Fill => 4,
            Refusal::Value => 5,
            Refusal::Order => 6,
            Refusal::Time => 7,
            Refusal::Serial => 8,
            Refusal::InUse => 9,
            Refusal::NotInUse => 10,
            Refusal::Start => 11,
            Refusal::Memory => 12,
            Refusal::NotInForce => 13,
            Refusal::Urgency => 14,
        }
    }
}
