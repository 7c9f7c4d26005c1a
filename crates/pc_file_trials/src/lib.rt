//! Tests of what no command shows: numbers, lists, the types of a case, the outside, rows and what they come to, tokens,
//! formats by lines, answers that no case has, and the laws that are there for others.
#![tactic(auto)]

/// The columns of a shop.
#[cfg(test)]
pub(crate) const SHOP: &[u8] =
    b"branch,cat,Chicago,NewYork,Trenton\nday,int,1,31\nprice,dec,2,0.00,1000.00\n";

#[cfg(test)]
mod format;
#[cfg(test)]
mod generated;
#[cfg(test)]
mod laws;
#[cfg(test)]
mod lines;
#[cfg(test)]
mod lists;
#[cfg(test)]
mod model;
#[cfg(test)]
mod numbers;
#[cfg(test)]
mod outside;
#[cfg(test)]
mod records;
#[cfg(test)]
mod report;
#[cfg(test)]
mod rows;
#[cfg(test)]
mod stored;
#[cfg(test)]
mod stored_numbers;
#[cfg(test)]
mod tokens;
#[cfg(test)]
mod words;
