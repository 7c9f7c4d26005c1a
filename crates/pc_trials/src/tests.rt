use pc_base::{MemShelf, MemSink, Status};
use pc_run::run;
use std::alloc::Global;
use std::test::Fail;

mod blocks;
mod conflicts;
mod failing;
mod loads;

const SHOP: &str = "branch,cat,Chicago,NewYork,Trenton\nday,int,1,31\nprice,dec,2,0.00,1000.00\n";

const SALES: &str = "branch,day,price\nChicago,3,100.00\nNewYork,5,50.00\n";

const CAPPED: &str = "c1: branch = Chicago => price in 0.00..149.99, 0..5\n";

/// The document of the shop's sum.
const DOCUMENT: &str =
    "pc 1\nquery sum(price)\ntree own\ncut branch {Chicago}\ncut price 149.99\nleaf 1 in\nleaf barren\nleaf barren\nrelation possible\nlow 150.00 exact\nby tree\nbound 1 0\nhigh 899.95 exact\nrun 5: Chicago, 1, 149.99\nby tree\nbound 1 14999\nend\n";

const BOUND: [&str; 5] = ["bound", "s", "r", "c", "sum(price)"];

const PROVE: [&str; 5] = ["prove", "s", "r", "c", "sum(price)"];

const CHECK: [&str; 5] = ["check", "s", "r", "c", "d"];

const SHOW: [&str; 3] = ["show", "s", "c"];

const CONFLICT: [&str; 3] = ["conflict", "s", "c"];

const QUANTILE: [&str; 5] = ["quantile", "s", "r", "c", "quantile(1, 2, price)"];

const SESSION: [&str; 5] = ["session", "s", "r", "c", "t"];

/// A shelf of the shop, the document of its sum and a script, the load of this number of which fails.
fn shelf_failing(alloc: Global, load: Option<u64>) -> Result<MemShelf, Fail> {
    let mut shelf = MemShelf::new(alloc);
    shelf.add("s", SHOP.as_bytes())?;
    shelf.add("r", SALES.as_bytes())?;
    shelf.add("c", CAPPED.as_bytes())?;
    shelf.add("d", DOCUMENT.as_bytes())?;
    shelf.add("t", b"ask sum(price)\ndrop row 1\n")?;
    if let Some(number) = load {
        shelf.fail(number)?;
    }
    Ok(shelf)
}

/// Runs the words over the shelf and the sink.
fn run_words(
    alloc: Global,
    words: &[&str],
    shelf: &mut MemShelf,
    sink: &mut MemSink,
) -> Result<Status, Fail> {
    let mut owned = Vec::new(alloc);
    for word in words {
        owned.push(String::from_str(alloc, word)?)?;
    }
    Ok(run(alloc, owned.as_slice(), shelf, sink))
}

/// The text that a run is to write, and the status that it is to end with.
type Ending<'a> = (&'a str, Status);

/// Whether a run of the words over a shelf, which it uses up, ends so, by so many loads and puts.
fn ends_after(
    alloc: Global,
    words: &[&str],
    mut shelf: MemShelf,
    ending: Ending<'_>,
    calls: (u64, u64),
) -> Result<bool, Fail> {
    let mut sink = MemSink::new(alloc, 0);
    let status = run_words(alloc, words, &mut shelf, &mut sink)?;
    let (text, wanted) = ending;
    Ok(
        status == wanted
            && sink.kept.as_slice() == text.as_bytes()
            && (shelf.calls, sink.calls) == calls,
    )
}
