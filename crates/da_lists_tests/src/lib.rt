//! The tests of da_cache, da_delay and da_pool.
#![tactic(auto)]

#[cfg(test)]
mod cache_tests;
#[cfg(test)]
mod delay_tests;
#[cfg(test)]
mod pool_tests;
