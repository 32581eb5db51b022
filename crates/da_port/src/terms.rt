// What the steps of a port never change.

use da_settings::{Goal, Settings};

/// What a port serves by: its settings, and what its run is to reach. It is for proofs alone: no value of it is made.
pub struct Terms {
    pub settings: Settings,
    pub goal: Option<Goal>,
}
