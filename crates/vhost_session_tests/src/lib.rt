//! Tests of whole sessions that no script can say: worked consequences, each run once, and links that retry.
#![tactic(auto)]

#[cfg(test)]
mod asking;
#[cfg(test)]
mod channels;
#[cfg(test)]
mod consequences;
#[cfg(test)]
mod example;
#[cfg(test)]
mod faults;
#[cfg(test)]
mod frontend;
#[cfg(test)]
mod joined;
#[cfg(test)]
mod lines;
#[cfg(test)]
mod promises;
#[cfg(test)]
mod retries;
#[cfg(test)]
mod served;
#[cfg(test)]
mod standard_asking;
