// What an input does beside changing the tables.

ghost use Rattle.std.specs.Prelude.{◌≡◌, ◌<◌, ◌^◌, ◌-◌, None, Some};

/// What an input does beside changing the tables.
#[derive(Clone, Copy, Drop)]
pub struct InputEffect {
    /// The request that it continues.
    pub continued: Option<u32>,
    /// The connection that the server closes.
    pub closed: Option<u32>,
}

impl InputEffect {
    /// It continues no request.
    pub fn continuing_none() -> InputEffect
        ensures { result ≡ record { continued = None; closed = None } }
    {
        InputEffect {
            continued: None,
            closed: None,
        }
    }

    /// It continues this request.
    pub fn continuing(number: u32) -> InputEffect
        ensures { result ≡ record { continued = Some number; closed = None } }
    {
        InputEffect {
            continued: Some(number),
            closed: None,
        }
    }

    /// The server closes this connection.
    pub fn closing(conn: u32) -> InputEffect
        ensures { result ≡ record { continued = None; closed = Some conn } }
    {
        InputEffect {
            continued: None,
            closed: Some(conn),
        }
    }
}
