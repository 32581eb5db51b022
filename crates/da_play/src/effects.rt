// What one entry makes the server send, hand out and close, by numbers.

ghost use Rattle.std.specs.Prelude.{◌≡◌, ◌<◌, ◌^◌, ◌-◌, ◌+◌, ◌++◌, ◌∷◌, []};

use da_tables::Numbers;

/// The effects of an entry, by numbers.
#[derive(Drop)]
pub struct Effects {
    /// The requests whose replies were due.
    pub due: Numbers,
    /// The connection that is greeted.
    pub opened: Option<u32>,
    /// The query that is handed out.
    pub handed_out: Option<u32>,
    /// The request that the entry continues, if it then awaits a message.
    pub challenged: Option<u32>,
    /// The request that the entry decides and replies at once.
    pub replied: Option<u32>,
    /// The connection that the server closes.
    pub closed: Option<u32>,
}
