// Examples of the service's calls: every refusal, each beside a later one, and what the calls leave.
#![tactic(auto)]

#[cfg(test)]
mod admission;
#[cfg(test)]
mod handing_back;
#[cfg(test)]
mod streams;
#[cfg(test)]
mod tools;
