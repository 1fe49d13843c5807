// Examples that run: the crates together, at the edges of the rules.
#![tactic(auto)]

#[cfg(test)]
mod lists;
#[cfg(test)]
mod loading;
#[cfg(test)]
mod opening;
#[cfg(test)]
mod parts;
#[cfg(test)]
mod rounds;
