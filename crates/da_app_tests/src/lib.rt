//! The tests of the commands, by whole scripts, files and inputs.
#![tactic(auto)]

#[cfg(test)]
mod cases;
#[cfg(test)]
mod check;
#[cfg(test)]
mod first_login;
#[cfg(test)]
mod lock_step;
#[cfg(test)]
mod pw;
#[cfg(test)]
mod runs;
#[cfg(test)]
mod tests_of_codes;
#[cfg(test)]
mod tests_of_connections;
#[cfg(test)]
mod tests_of_databases;
#[cfg(test)]
mod tests_of_delays;
#[cfg(test)]
mod tests_of_expired;
#[cfg(test)]
mod tests_of_handovers;
#[cfg(test)]
mod tests_of_limits;
#[cfg(test)]
mod tests_of_lost_queries;
#[cfg(test)]
mod tests_of_mechanisms;
#[cfg(test)]
mod tests_of_the_cache;
#[cfg(test)]
mod tests_of_whole_paths;
#[cfg(test)]
mod worker;
