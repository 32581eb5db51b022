// What each worker of the service is given.

use crate::children::Starts;
use crate::programs::Programs;
use crate::query_limit::QueryLimit;
use crate::workers::Workers;
use da_outside::Crew;

/// Workers as children, and programs, of which each exchange and each run may take as long as a query.
#[derive(Drop)]
pub struct Staff<'a, R> {
    rt: &'a R,
    limit: &'a QueryLimit,
}

impl<'a, R: Starts> Staff<'a, R> {
    pub fn new(rt: &'a R, limit: &'a QueryLimit) -> Self {
        Staff { rt, limit }
    }
}

impl<'a, R: Starts> Crew for Staff<'a, R> {
    type Spawner = Workers<'a, R>;

    type Runner = Programs<'a, R>;

    fn member(&mut self) -> (Workers<'a, R>, Programs<'a, R>) {
        let limit = self.limit.millis();
        (Workers::new(self.rt, limit), Programs::new(self.rt, limit))
    }
}
