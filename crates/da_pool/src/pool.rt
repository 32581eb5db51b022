// The pool.

ghost use Rattle.std.specs.Prelude.{◌≡◌, ◌++◌, ◌∷◌, ◌<◌, [], false, OnOk, OnErr};
ghost use Rattle.std.specs.VecDeque.{deque_len, deque_capacity};
ghost use Rattle.da_pool.specs.Pools.{has_query, is_running, first_waiting, first_running, taken, without_number, without_request};
ghost use Rattle.da_pool.specs.Queues.{running_of, queue_of, IsQueueOf};

use crate::queue::Queue;
use std::alloc::{AllocError, Global};
use std::collections::VecDeque;
use std::marker::Model;

/// Queries, by number. Contracts see two lists: those that wait, each with its request, and those that run, each behind
/// the moment, in milliseconds, at which it was taken.
#[derive(Drop)]
pub struct Pool {
    queue: Queue,
    waiting: VecDeque<(u32, u32)>,
}

impl Model for Pool {
    ghost use Rattle.da_pool.specs.Pools.{Queries};
    ghost use Rattle.da_pool.specs.Queues.{running_of, IsQueueOf};

    ghost Value = { Queries };

    ghost view = { λ p. record { waiting = p.waiting.items; running = running_of p.queue } };

    ghost invariant = { λ p. IsQueueOf p.queue p.waiting.items };
}

impl Pool {
    /// No queries. It takes no memory.
    pub fn new(alloc: Global) -> Pool
        ensures { result ≡ record { waiting = []; running = [] } }
    {
        Pool {
            queue: Queue::new(alloc),
            waiting: VecDeque::new(alloc),
        }
    }

    /// Whether a query of this number waits or runs. It takes no memory.
    pub fn has(&self, number: u32) -> bool
        ensures { result ≡ has_query number self.now }
    {
        self.queue.has(number)
    }

    /// The query of this request waits, behind the others; no other of this number waits or runs. Want of memory changes nothing.
    pub fn add(&mut self, number: u32, request: u32) -> Result<(), AllocError>
        requires { has_query number self.old ≡ false }
        ensures added { OnOk result (self.new ≡ record self.old { waiting = self.old.waiting ++ (number, request) ∷ [] }) }
        ensures err { OnErr result (self.new ≡ self.old) }
    {
        self.waiting.reserve(1)?;
        self.queue.push(number)?;
        put_last(&mut self.waiting, (number, request));
        Ok(())
    }

    /// Takes the first query that waits: it runs from this moment, behind the others that run. `None` exactly where none
    /// waits. It takes no memory.
    pub fn take(&mut self, moment: u64) -> Option<u32>
        ensures first { result ≡ first_waiting self.old.waiting }
        ensures taken { self.new ≡ taken moment self.old.waiting self.old.running }
    {
        let (number, _) = self.waiting.pop_front()?;
        self.queue.mark(number, moment);
        Some(number)
    }

    /// Takes out a query that runs, and says whether it ran. It takes no memory.
    pub fn end(&mut self, number: u32) -> bool
        ensures ran { result ≡ is_running number self.old.running }
        ensures gone { self.new ≡ record self.old { running = without_number number self.old.running } }
    {
        let runs = self.queue.is_taken(number);
        if runs {
            self.queue.remove(number);
        }
        runs
    }

    /// Takes out the queries of this request that wait. It takes no memory.
    pub fn drop_of(&mut self, request: u32)
        ensures { self.new ≡ record self.old { waiting = without_request request self.old.waiting } }
    {
        remove_of(&mut self.queue, &self.waiting, request);
        self.waiting.retain(|query| request != query.1);
    }

    /// The query that was taken first of those that run: the moment of its taking, and its number. `None` exactly where
    /// none runs. It takes no memory.
    pub fn first_taken(&self) -> Option<(u64, u32)>
        ensures { result ≡ first_running self.now.running }
    {
        self.queue.first_taken()
    }
}

/// Puts a query last, where there is room for it.
fn put_last(waiting: &mut VecDeque<(u32, u32)>, query: (u32, u32))
    requires { deque_len waiting.old < deque_capacity waiting.old }
    ensures { waiting.new.items ≡ waiting.old.items ++ query ∷ [] }
{
    waiting.push_back(query).unwrap();
}

/// Takes out of the queue what waits of this request.
fn remove_of(queue: &mut Queue, waiting: &VecDeque<(u32, u32)>, request: u32)
    requires { IsQueueOf queue.old waiting.now.items }
    ensures { queue.new ≡ queue_of (running_of queue.old) (without_request request waiting.now.items) }
{
    for place in 0..waiting.len() {
        let (number, asker) = waiting[place];
        if request == asker {
            queue.remove(number);
        }
    }
}
