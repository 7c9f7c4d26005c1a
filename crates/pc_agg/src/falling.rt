ghost use Rattle.std.specs.Prelude.{◌≡◌, ◌++◌, [], ◌∷◌, cond, IfOk};
ghost use Rattle.pc_agg.specs.Falling.{ends_in, IsFallingOf, IsRising};

use pc_list::Seq;
use pc_num::Memory;
use std::alloc::Global;

/// The numbers, each once, greatest first.
pub fn falling_of(alloc: Global, numbers: Vec<i128>) -> Result<Seq<i128>, Memory>
    ensures { IfOk result (IsFallingOf numbers.items) }
{
    let mut rising = numbers;
    rising.sort_unstable();
    from_last(alloc, rising.as_slice())
}

fn from_last(alloc: Global, rising: &[i128]) -> Result<Seq<i128>, Memory>
    requires rising { IsRising rising.now }
    ensures { IfOk result (IsFallingOf rising.now) }
{
    let mut falling = Seq::new(alloc);
    for place in (0..rising.len()).rev() {
        falling = with_lower(falling, rising[place])?;
    }
    Ok(falling)
}

/// The numbers with one more, unless it is the last of them.
fn with_lower(falling: Seq<i128>, number: i128) -> Result<Seq<i128>, Memory>
    ensures { IfOk result (λ longer. longer ≡ cond (ends_in falling number) falling (falling ++ number ∷ [])) }
{
    if ends_in(falling.as_slice(), number) {
        return Ok(falling);
    }
    let mut longer = falling;
    longer.push(number)?;
    Ok(longer)
}

fn ends_in(falling: &[i128], number: i128) -> bool
    ensures { result ≡ ends_in falling.now number }
{
    if falling.is_empty() {
        return false;
    }
    falling[falling.len() - 1] == number
}
