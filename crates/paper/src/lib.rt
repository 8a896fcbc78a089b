// What the engine promises, as definitions: specs/ follows the document, proofs/ has their laws. The only code is the sizes and the refusals that
// other code shares.
#![tactic(auto)]

pub mod layout;
pub mod refusal;

pub use refusal::Refusal;

// The state memory that a host lends.
pub type State = [u8; layout::STATE];

// The most pairs of a message, terms of a query and entries of a list.
pub const MOST_PAIRS: usize = 32;

pub const MOST_TERMS: usize = 8;

pub const MOST_LISTED: usize = 16;

// How many terms, serials and query numbers there are.
pub const TERMS: usize = 1024;

pub const SERIALS: u32 = 1048576;

pub const NUMBERS: usize = 32;

// An urgency has two bits: what memory says of one is brought below this.
pub const URGENCY_LIMIT: u32 = 4;

// The most messages in force, and the greatest age in seconds that a start can allow them.
pub const MOST_MESSAGES: u32 = 256;

pub const LONGEST_LIFE: u32 = 65535;
