use pc_desk_divide::DivisionFault;
use pc_list::Seq;

/// Why there are no constraints from history.
#[derive(Debug, Drop)]
pub enum PastFault {
    /// A group stands behind the predicate, as behind that of a query.
    Grouped,
    /// The text of `--by` names no divisions.
    By(DivisionFault),
    /// No column has this name, which is that of the periods.
    NoPeriod(Seq<u8>),
    /// So many cells there would be, and a file has at most 20 lines.
    TooMany(u64),
    /// No row is meant.
    NoRows,
}
