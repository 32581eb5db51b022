//! What is recorded of an answer, and when one is repeated: `record_answer` and `keep` are `specs/RecordedAnswers.antt`,
//! `hits_from` and `after_hits` are `specs/Hits.antt`.
#![tactic(auto)]

mod hits;
mod lost;
mod recording;

pub use hits::{Hit, after_hits, database_count, hit_for, hits_from, is_usable, newest};
pub use recording::{is_kept, keep, key_of, record_answer, recorded_answer, ttl_of};
