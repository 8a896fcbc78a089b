// What a frame moves, as the queries follow it.
ghost use Rattle.std.specs.Prelude.{◌<◌};
ghost use Rattle.paper.specs.Layout.{slots};

use window::Span;

// A message that arrived, by its slot.
#[derive(Clone, Copy)]
pub struct Arrived {
    pub slot: usize,
    pub ghost in_ring: { slot < slots },
}

// A message that is cancelled, by its slot and its serial.
#[derive(Clone, Copy)]
pub struct Cancelled {
    pub slot: usize,
    pub serial: u32,
    pub ghost in_ring: { slot < slots },
}

// The messages in the slots of `gone` leave, and the cancelled one where there is one; those of `window` are the window then, and one arrived in
// `newest` where there is one.
#[derive(Clone, Copy)]
pub struct Move {
    pub gone: Span,
    pub window: Span,
    pub newest: Option<Arrived>,
    pub cancelled: Option<Cancelled>,
    pub ghost within: { window.count < slots },
}
