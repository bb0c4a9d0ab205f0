// The worked figures as one table, and one computed proof that every row of it holds.
#![tactic(auto)]

#[cfg(test)]
mod tests;
pub mod worked;
