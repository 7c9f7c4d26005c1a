ghost use Rattle.std.specs.Prelude.{◌≡◌, IfOk};
ghost use Rattle.pc_model.specs.Membership.{is_in, row_from};
ghost use Rattle.pc_model.specs.Regions.{one_box};

use crate::region::Region;
use crate::row::Row;
use pc_list::Seq;
use pc_num::Memory;
use std::alloc::Global;

/// Rows of at least one of some boxes, which are kept as they were written.
#[derive(Clone, Debug, PartialEq, Eq, Drop)]
pub struct Area {
    pub boxes: Seq<Region>,
}

impl Area {
    /// The area of one box.
    pub fn of_box(alloc: Global, region: Region) -> Result<Area, Memory>
        ensures { IfOk result (λ area. area ≡ one_box region) }
    {
        let mut boxes = Seq::new(alloc);
        boxes.push(region)?;
        Ok(Area { boxes })
    }

    /// Whether some box holds a row.
    pub fn has(&self, row: &Row) -> bool
        ensures { result ≡ is_in self.now row.now }
    {
        self.has_cells(row.cells.as_slice())
    }

    /// The same of a row of these numbers.
    pub fn has_cells(&self, cells: &[i64]) -> bool
        ensures { result ≡ is_in self.now (row_from cells.now) }
    {
        self.boxes
            .as_slice()
            .iter()
            .any(|region| region.has_cells(cells))
    }
}
