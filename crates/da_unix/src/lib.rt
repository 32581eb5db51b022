//! The outside as the system has it: the forms of da_outside's traits over files, standard streams, child processes, Unix
//! sockets, the clock and the system's random bytes. Workers are children that take and give lines (`Workers`),
//! checkpassword programs are run by the shell (`Programs`). Each form counts its faults. What a reader or a writer tells
//! of its bytes, the form over it tells, too.
#![tactic(auto)]

mod adapters;
mod children;
mod clock;
mod limits;
mod lines;
mod patient;
mod printing;
mod programs;
mod query_limit;
mod random;
mod sockets;
mod staff;
mod workers;

pub use adapters::{Disk, Input, Output, read_whole};
pub use children::Starts;
pub use clock::{Nap, Now};
pub use limits::{Deadline, Limit, Unlimited};
pub use lines::Held;
pub use patient::{Patient, Quiet};
pub use printing::shown;
pub use programs::Programs;
pub use query_limit::{QueryLimit, SettingsFiles};
pub use random::Random;
pub use sockets::{Reads, Socket, Writes};
pub use staff::Staff;
pub use workers::{ChildLink, Workers};
