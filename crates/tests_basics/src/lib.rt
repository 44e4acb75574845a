//! Only tests: what the crates that know no settings answer by themselves, through their public calls:
//! texts, requests, counted readers and writers, and replies.
#![tactic(auto)]

#[cfg(test)]
mod counted;
#[cfg(test)]
mod replies;
#[cfg(test)]
mod requests;
#[cfg(test)]
mod texts;
