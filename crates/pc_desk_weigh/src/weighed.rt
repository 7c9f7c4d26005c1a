use crate::change::Change;
use pc_desk_table::Entry;
use pc_list::Seq;

/// What is shown of a question, block by block, as constraints stand or after a change of one limit.
#[derive(Debug, Drop)]
pub struct Weighed {
    pub change: Option<Change>,
    pub entries: Seq<Entry>,
}
