//! Tests of campaigns: worked tables on one worker and many, gates at which jobs meet, and what a book refuses.
#![tactic(auto)]

#[cfg(test)]
mod books;
#[cfg(test)]
mod gates;
#[cfg(test)]
mod plans;
#[cfg(test)]
mod tables;
