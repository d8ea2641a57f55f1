// Examples of accounts: buckets, due marks, service records and levels at the instants that the rules name.
#![tactic(auto)]

#[cfg(test)]
mod accounts;
#[cfg(test)]
mod levels;
