//! The sequential server as definitions: entries, the tables after a history (`specs/History.antt`), what an entry gives
//! out (`specs/Effects.antt`), which histories are legal (`specs/Legal.antt`), and the play of events (`specs/Play.antt`),
//! with the types of inputs and outputs. A server that answers by them promises `Steps` of `specs/Steps.antt`.
#![tactic(auto)]

mod effects;
mod input;
mod outputs;
mod rows;

pub use effects::Effects;
pub use input::{Entry, Input};
pub use outputs::{Outputs, Refused, Sent};
pub use rows::rows_are_few;
