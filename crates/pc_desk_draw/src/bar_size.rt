ghost use Rattle.std.specs.Prelude.{◌≡◌, ◌≤◌, ◌+◌, ◌^◌, IfOk};
ghost use Rattle.pc_desk_draw.specs.BarSizes.{bars_height, bars_width, stacked, widest_text};
ghost use Rattle.pc_desk_draw.specs.Sizes.{least_size};

use crate::segment::{BarPicture, BarRow};
use crate::segments::{bars_layout, text_width};
use crate::size::{Size, room, rows_height};
use pc_num::Memory;
use std::alloc::Global;

// 2^79.
const MOST_HIGH: u128 = 1 << 79;

/// The size of pictures of bars, one below the other, with the legend.
#[tactic(auto, using(crate::proofs::BarGrowing::sizes))]
pub(crate) fn stacked(alloc: Global, pictures: &[BarPicture]) -> Result<Size, Memory>
    ensures value { IfOk result (λ size. size ≡ stacked least_size pictures.now) }
    ensures small { IfOk result (λ size. size.height ≤ 2 ^ 79) }
{
    let mut size = Size {
        width: 360,
        height: 33,
    };
    for picture in pictures {
        let width = bars_width(alloc, picture)?;
        size = Size {
            width: size.width.max(width),
            height: end_of(size.height, picture)?,
        };
    }
    Ok(size)
}

fn bars_width(alloc: Global, picture: &BarPicture) -> Result<u128, Memory>
    ensures { IfOk result (λ width. width ≡ bars_width picture.now) }
{
    let rows = picture.rows.as_slice();
    let title = text_width(picture.title.as_str()) as u128;
    room(alloc, bars_layout(rows), title, widest_text(rows))
}

/// Where a picture of bars ends that begins here. No memory holds the rows of one that is too high to count with.
pub(crate) fn end_of(top: u128, picture: &BarPicture) -> Result<u128, Memory>
    requires { top ≤ 2 ^ 79 }
    ensures value { IfOk result (λ end. end ≡ top + bars_height picture.now) }
    ensures small { IfOk result (λ end. end ≤ 2 ^ 79) }
{
    let end = top + rows_height(picture.rows.len());
    if end > MOST_HIGH {
        return Err(Memory);
    }
    Ok(end)
}

#[tactic(auto, using(crate::proofs::BarGrowing::texts))]
fn widest_text(rows: &[BarRow]) -> usize
    ensures { result ≡ widest_text rows.now }
{
    let mut columns = 0;
    for row in rows {
        columns = text_width(row.text.as_str()).max(columns);
    }
    columns
}
