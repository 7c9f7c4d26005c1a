//! Constraints as an auditor of a chain of shops would write them: places, days, and prices up to one.
use crate::draws::Draws;
use std::alloc::{AllocError, Global};

/// Each country has four regions, and each region three shops.
const COUNTRIES: u32 = 5;

const REGIONS: u32 = 20;

const SHOPS: u32 = 60;

const LAST_DAY: u32 = 365;

const GREATEST_PRICE: u32 = 100_000;

pub(crate) fn schema_text(alloc: Global) -> Result<String, AllocError> {
    let mut text = String::new(alloc);
    push_names(alloc, &mut text, "country", COUNTRIES)?;
    push_names(alloc, &mut text, "region", REGIONS)?;
    push_names(alloc, &mut text, "shop", SHOPS)?;
    let rest = format!(in alloc; "day,int,1,{LAST_DAY}\nprice,int,0,{GREATEST_PRICE}\n")?;
    text.push_str(rest.as_str())?;
    Ok(text)
}

fn push_names(
    alloc: Global,
    text: &mut String,
    column: &str,
    count: u32,
) -> Result<(), AllocError> {
    text.push_str(column)?;
    text.push_str(",cat")?;
    for number in 0..count {
        let name = format!(in alloc; ",{column}{number}")?;
        text.push_str(name.as_str())?;
    }
    text.push_str("\n")
}

/// A country, one of its regions or one of that region's shops.
pub(crate) fn chain(alloc: Global, draws: &mut Draws) -> Result<String, AllocError> {
    let country = draws.up_to(COUNTRIES - 1).min(COUNTRIES - 1);
    let region = country * 4 + draws.up_to(3).min(3);
    let shop = region * 3 + draws.up_to(2).min(2);
    let days = days(alloc, draws, 60)?;
    let price = draws.up_to(GREATEST_PRICE);
    let mut text = format!(in alloc; "country = country{country}")?;
    let level = draws.up_to(2);
    if level > 0 {
        let atom = format!(in alloc; " and region = region{region}")?;
        text.push_str(atom.as_str())?;
    }
    if level > 1 {
        let atom = format!(in alloc; " and shop = shop{shop}")?;
        text.push_str(atom.as_str())?;
    }
    let rest = format!(in alloc; " and day in {days} => price <= {price}")?;
    text.push_str(rest.as_str())?;
    Ok(text)
}

/// Some regions on some days.
pub(crate) fn window(alloc: Global, draws: &mut Draws) -> Result<String, AllocError> {
    let places = regions(alloc, draws)?;
    let days = days(alloc, draws, 90)?;
    let price = draws.up_to(GREATEST_PRICE);
    format!(in alloc; "region in {{{places}}} and day in {days} => price <= {price}")
}

/// Some regions on days that overlap those of the constraint before.
pub(crate) fn sliding(alloc: Global, draws: &mut Draws, number: u32) -> Result<String, AllocError> {
    let places = regions(alloc, draws)?;
    let first = number.min(20) * 15 + 1;
    let last = first + 29;
    let price = draws.up_to(GREATEST_PRICE);
    format!(in alloc; "region in {{{places}}} and day in {first}..{last} => price <= {price}")
}

fn days(alloc: Global, draws: &mut Draws, longest: u32) -> Result<String, AllocError> {
    let first = draws.up_to(LAST_DAY - 1).min(LAST_DAY - 1) + 1;
    let last = first.saturating_add(draws.up_to(longest)).min(LAST_DAY);
    format!(in alloc; "{first}..{last}")
}

/// Up to four of twelve regions, each named once.
fn regions(alloc: Global, draws: &mut Draws) -> Result<String, AllocError> {
    let mut text = String::new(alloc);
    let count = draws.up_to(3).min(3) + 1;
    for number in 0..count {
        if number > 0 {
            text.push_str(", ")?;
        }
        let place = number.saturating_mul(3).saturating_add(draws.up_to(2));
        let name = format!(in alloc; "region{place}")?;
        text.push_str(name.as_str())?;
    }
    Ok(text)
}
