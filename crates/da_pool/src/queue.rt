// All queries of a pool, in the order in which they were added.

ghost use Rattle.std.specs.Prelude.{◌≡◌, ◌++◌, ◌∷◌, [], ◌-◌, ◌^◌, None, Some, is_some, nat_eq, OnOk, OnErr};
ghost use Rattle.std.specs.List.{IsDistinct};
ghost use Rattle.std.specs.Map.{lookup, keys_of, set_value, remove_entry};
ghost use Rattle.lru.specs.LruCache.{lru_cache};
ghost use Rattle.da_pool.specs.Queues.{is_taken, first_taking};

use lru::LruCache;
use std::alloc::{AllocError, Global};
use std::marker::Model;

/// The numbers of the queries, each with the moment of its taking, where it was taken. Contracts see them as a list.
#[derive(Drop)]
pub(crate) struct Queue {
    alloc: Global,
    /// The first in the queue is the most recent here. It is made when the first query comes.
    queries: Option<LruCache<u32, Option<u64>>>,
}

impl Model for Queue {
    ghost use Rattle.std.specs.Prelude.{List, ℕ, Option};
    ghost use Rattle.da_pool.specs.Queues.{entries_of, HasNoBound};

    ghost Value = { List (ℕ × Option ℕ) };

    ghost view = { λ q. entries_of q.queries };

    ghost invariant = { λ q. HasNoBound q.queries };
}

impl Queue {
    /// No queries. It takes no memory.
    pub(crate) fn new(alloc: Global) -> Queue
        ensures { result ≡ [] }
    {
        Queue {
            alloc,
            queries: None,
        }
    }

    /// Puts a query behind the others. Want of memory changes nothing.
    pub(crate) fn push(&mut self, number: u32) -> Result<(), AllocError>
        requires { lookup (nat_eq number) self.old ≡ None }
        ensures ok { OnOk result (self.new ≡ self.old ++ (number, None) ∷ []) }
        ensures err { OnErr result (self.new ≡ self.old) }
    {
        match &mut self.queries {
            Some(queries) => put_last(queries, number),
            None => {
                let mut queries = LruCache::unbounded(self.alloc)?;
                put_last(&mut queries, number)?;
                self.queries = Some(queries);
                Ok(())
            }
        }
    }

    /// The query is taken at this moment, and stays at its place.
    #[tactic(auto, using(crate::proofs::Entries::none_apart))]
    pub(crate) fn mark(&mut self, number: u32, moment: u64)
        ensures marked { self.new ≡ set_value (nat_eq number) self.old (Some moment) }
        ensures apart { IsDistinct nat_eq (keys_of self.old) }
    {
        let Some(queries) = &mut self.queries else {
            return;
        };
        mark_in(queries, number, moment);
    }

    /// Takes the query out.
    #[tactic(auto, using(crate::proofs::Entries::none_apart))]
    pub(crate) fn remove(&mut self, number: u32)
        ensures gone { self.new ≡ remove_entry (nat_eq number) self.old }
        ensures apart { IsDistinct nat_eq (keys_of self.old) }
    {
        let Some(queries) = &mut self.queries else {
            return;
        };
        remove_from(queries, number);
    }

    /// Whether the query is there.
    pub(crate) fn has(&self, number: u32) -> bool
        ensures { result ≡ is_some (lookup (nat_eq number) self.now) }
    {
        match &self.queries {
            Some(queries) => queries.contains(&number),
            None => false,
        }
    }

    /// Whether the query is there and was taken.
    pub(crate) fn is_taken(&self, number: u32) -> bool
        ensures { result ≡ is_taken number self.now }
    {
        match &self.queries {
            Some(queries) => matches!(queries.peek(&number), Some(Some(_))),
            None => false,
        }
    }

    /// The moment and the number of the first query, where it was taken.
    pub(crate) fn first_taken(&self) -> Option<(u64, u32)>
        ensures { result ≡ first_taking self.now }
    {
        match &self.queries {
            Some(queries) => first_of(queries),
            None => None,
        }
    }
}

/// Puts this query last.
fn put_last(queries: &mut LruCache<u32, Option<u64>>, number: u32) -> Result<(), AllocError>
    requires absent { lookup (nat_eq number) queries.old.entries ≡ None }
    requires bound { queries.old.cap ≡ 2 ^ 64 - 1 }
    ensures ok { OnOk result (queries.new ≡ lru_cache (queries.old.entries ++ (number, None) ∷ []) queries.old.cap) }
    ensures err { OnErr result (queries.new ≡ queries.old) }
{
    let is_full = queries.len() == usize::MAX;
    prove!(!is_full);
    queries.put(number, None)?;
    queries.demote(&number);
    Ok(())
}

/// Writes the moment of a query's taking.
fn mark_in(queries: &mut LruCache<u32, Option<u64>>, number: u32, moment: u64)
    ensures marked { queries.new ≡ lru_cache (set_value (nat_eq number) queries.old.entries (Some moment)) queries.old.cap }
    ensures apart { IsDistinct nat_eq (keys_of queries.old.entries) }
{
    let count = queries.len();
    prove!(count < usize::MAX);
    if let Some(taken) = queries.peek_mut(&number) {
        *taken = Some(moment);
    }
}

/// Takes a query out.
fn remove_from(queries: &mut LruCache<u32, Option<u64>>, number: u32)
    ensures gone { queries.new ≡ lru_cache (remove_entry (nat_eq number) queries.old.entries) queries.old.cap }
    ensures apart { IsDistinct nat_eq (keys_of queries.old.entries) }
{
    let count = queries.len();
    prove!(count < usize::MAX);
    queries.pop(&number);
}

/// The first query's moment and number.
fn first_of(queries: &LruCache<u32, Option<u64>>) -> Option<(u64, u32)>
    ensures { result ≡ first_taking queries.now.entries }
{
    let (number, taken) = queries.peek_mru()?;
    let moment = (*taken)?;
    Some((moment, *number))
}
