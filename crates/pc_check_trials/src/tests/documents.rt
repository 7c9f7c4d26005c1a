//! The texts of documents, which are read and written again.
ghost use Rattle.pc_model.specs.WellFormed.{IsWellFormed};

use pc_document::{NoDocument, put_document, read_document};
use pc_model::Schema;
use pc_schema::read_schema;
use std::alloc::Global;
use std::test::Fail;

const SCHEMA: &str =
    "branch,cat,Chicago,New York,Trenton\nday,int,1,31\nprice,dec,2,0.00,1000.00\n";

/// One cell, and a sum from 150.00 to 899.95.
const ONE_CELL: &str = "\
pc 1\n\
query sum(price)\n\
tree own\n\
cut branch {Chicago}\n\
cut price 149.99\n\
leaf 1 in\n\
leaf barren\n\
leaf barren\n\
relation possible\n\
low 150.00 exact\n\
by tree\n\
bound 1 0\n\
high 899.95 exact\n\
run 5: Chicago, 1, 149.99\n\
by tree\n\
bound 1 14999\n\
end\n";

/// Every kind of line and of proof; it breaks rules, but it is a document.
const ALL_KINDS: &str = "\
pc 1\n\
query count group by branch\n\
group branch = \"New York\"\n\
tree own\n\
leaf 0 in\n\
relation impossible\n\
by void\n\
split 0 3\n\
void -1 2\n\
void\n\
query min(day)\n\
tree same\n\
relation impossible\n\
by ends\n\
low 3 outer\n\
by rows\n\
high -2 outer\n\
by at -1/3\n\
bound 1\n\
query max(price) where branch = \"New York\"\n\
tree same\n\
relation undecided\n\
none sometimes\n\
run 0: \"New York\", 1, 0.00\n\
some\n\
run 2: Trenton, 31, 10.00\n\
low 1.00 outer\n\
by rows\n\
high 2.00 outer\n\
by values\n\
query avg(price)\n\
tree own\n\
cut branch {Chicago, \"New York\"}\n\
cut day 7\n\
leaf 5 in\n\
leaf 4294967295 out\n\
leaf barren\n\
relation possible\n\
run 1000000000000000000: Chicago, 1, 0.00\n\
none undecided\n\
low 150/7 outer\n\
by at 1/2\n\
split 1 0\n\
bound 3 -4 5\n\
bound 170141183460469231731687303715884105727 170141183460469231731687303715884105727\n\
high 20 exact\n\
by tree\n\
void 1\n\
query min(day)\n\
tree same\n\
relation possible\n\
none always\n\
by ends\n\
low 3 outer\n\
by tree\n\
void\n\
high 2 outer\n\
by tree\n\
bound 2 7\n\
query min(day)\n\
tree same\n\
relation possible\n\
none never\n\
by rows\n\
low 1 exact\n\
run 1: Chicago, 1, 0.00\n\
by rows\n\
high 1 exact\n\
by rows\n\
query max(day)\n\
tree same\n\
relation impossible\n\
by cross\n\
bound 1 1\n\
bound 1 -1\n\
query max(day)\n\
tree same\n\
relation possible\n\
none always\n\
by tree\n\
void\n\
end\n";

/// Whether bytes are read, and written again as they were.
fn is_written_again(alloc: Global, schema: &Schema, text: &str) -> Result<bool, NoDocument>
    requires { IsWellFormed schema.now }
{
    let doc = read_document(alloc, schema, text.as_bytes())?;
    let mut out = Vec::new(alloc);
    match put_document(alloc, schema, &mut out, &doc) {
        Ok(()) => Ok(out.as_slice() == text.as_bytes()),
        Err(_) => Err(NoDocument::Memory),
    }
}

#[test]
fn documents_are_read_and_written_again(rt: HostRuntime) -> Result<(), Fail> {
    let schema = read_schema(rt.alloc(), SCHEMA.as_bytes())?;
    for text in ["pc 1\nend\n", ONE_CELL, ALL_KINDS] {
        let told = is_written_again(rt.alloc(), &schema, text);
        assert!(rt; told == Ok(true), "{text}");
    }
    Ok(())
}
