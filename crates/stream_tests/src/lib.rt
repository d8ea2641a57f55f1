// Examples of streams: what is read, what is refused, and what is written.
#![tactic(auto)]

#[cfg(test)]
mod damaged;
#[cfg(test)]
mod worked;
