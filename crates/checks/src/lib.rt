// Tests of the layers below on examples: Arrow's own, every short length, and each boundary.
#![tactic(auto)]

#[cfg(test)]
mod column_cases;
#[cfg(test)]
mod kind_cases;
#[cfg(test)]
mod map_cases;
#[cfg(test)]
mod sheet_cases;
