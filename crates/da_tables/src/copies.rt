// Copies of the tables.

ghost use Rattle.std.specs.Prelude.{◌≡◌, IfOk};

use crate::connections::{Connection, Connections};
use crate::keys::Keys;
use crate::queries::{Comparisons, Queries, QueryRow};
use crate::requests::Requests;
use crate::tables::Tables;
use da_request::{answer_copy, copy_text};
use std::alloc::{AllocError, Global};

impl Connection {
    /// An equal connection.
    pub fn copy(&self, alloc: Global) -> Result<Connection, AllocError>
        ensures { IfOk result (λ copy. copy ≡ self.now) }
    {
        Ok(Connection {
            kind: self.kind,
            cookie: self.cookie.copy(alloc)?,
            minor: self.minor,
            pid: self.pid,
            is_open: self.is_open,
        })
    }
}

impl Comparisons {
    /// Equal comparisons.
    pub fn copy(&self, alloc: Global) -> Result<Comparisons, AllocError>
        ensures { IfOk result (λ copy. copy ≡ self.now) }
    {
        Ok(Comparisons {
            items: Vec::from_slice(alloc, &self.items)?,
        })
    }
}

impl QueryRow {
    /// An equal row.
    pub fn copy(&self, alloc: Global) -> Result<QueryRow, AllocError>
        ensures { IfOk result (λ copy. copy ≡ self.now) }
    {
        Ok(QueryRow {
            request: self.request,
            question: self.question.copy(alloc)?,
            password: copy_text(alloc, &self.password)?,
            taken: self.taken,
            answer: answer_copy(alloc, &self.answer)?,
            comparisons: self.comparisons.copy(alloc)?,
        })
    }
}

impl Connections {
    /// Equal connections.
    pub fn copy(&self, alloc: Global) -> Result<Connections, AllocError>
        ensures { IfOk result (λ copy. copy ≡ self.now) }
    {
        let mut items = Vec::new(alloc);
        for connection in &self.items {
            items.push(connection.copy(alloc)?)?;
        }
        Ok(Connections { items })
    }
}

impl Requests {
    /// Equal requests.
    pub fn copy(&self, alloc: Global) -> Result<Requests, AllocError>
        ensures { IfOk result (λ copy. copy ≡ self.now) }
    {
        let mut items = Vec::new(alloc);
        for request in &self.items {
            items.push(request.copy(alloc)?)?;
        }
        Ok(Requests { items })
    }
}

impl Queries {
    /// Equal queries.
    pub fn copy(&self, alloc: Global) -> Result<Queries, AllocError>
        ensures { IfOk result (λ copy. copy ≡ self.now) }
    {
        let mut items = Vec::new(alloc);
        for query_row in &self.items {
            items.push(query_row.copy(alloc)?)?;
        }
        Ok(Queries { items })
    }
}

impl Keys {
    /// Equal keys.
    pub fn copy(&self, alloc: Global) -> Result<Keys, AllocError>
        ensures { IfOk result (λ copy. copy ≡ self.now) }
    {
        let mut items = Vec::new(alloc);
        for key in &self.items {
            items.push(key.copy(alloc)?)?;
        }
        Ok(Keys { items })
    }
}

impl Tables {
    /// Equal tables.
    pub fn copy(&self, alloc: Global) -> Result<Tables, AllocError>
        ensures { IfOk result (λ copy. copy ≡ self.now) }
    {
        Ok(Tables {
            connections: self.connections.copy(alloc)?,
            requests: self.requests.copy(alloc)?,
            queries: self.queries.copy(alloc)?,
            cacheable: self.cacheable.copy(alloc)?,
            keys: self.keys.copy(alloc)?,
        })
    }
}
