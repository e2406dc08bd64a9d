// The frame of this scene: bells 0, 1 and 3. There is no bell 2.
ghost use Rattle.std.specs.Prelude.{◌≡◌, Ok};
ghost use Rattle.limits.specs.Refusals.{told_by};
ghost use Rattle.scene.specs.Hung.{chime_line, great_line, old_line, tower_means, chime_bell, great_bell, old_bell, tower};

use frames::{Line, SideBySide};
use limits::{Refusal, Stair, Table};
use rules::{OpenRule, Rule, StairOn, TableOn};

pub(super) type OneStair = StairOn<OpenRule>;

pub(super) type OneTable = TableOn<OpenRule>;

pub(super) type StairOnStair = StairOn<OneStair>;

pub(super) type Tower = SideBySide<Line<OneStair>, SideBySide<Line<OneTable>, Line<StairOnStair>>>;

// Two strokes together, and one more a minute.
fn great_bell() -> Result<Line<OneStair>, Refusal>
    ensures { told_by great_line result ≡ Ok great_bell }
{
    Ok(Line::new(StairOn::new(Stair::new(2, 60_000)?, OpenRule::new())))
}

// 400 ms from a stroke to the next, and 1,000 ms to the one after that.
fn chime() -> Result<Line<OneTable>, Refusal>
    ensures { told_by chime_line result ≡ Ok chime_bell }
{
    let mut table = Table::new();
    table.push(400)?;
    table.push(1000)?;
    Ok(Line::new(TableOn::new(table, OpenRule::new())))
}

// One stroke every two seconds, and it was struck at 500 ms before it was hung with a second stair.
fn old_bell() -> Result<Line<StairOnStair>, Refusal>
    ensures { told_by old_line result ≡ Ok old_bell }
{
    let mut below = StairOn::new(Stair::new(1, 2000)?, OpenRule::new());
    below.strike(500)?;
    Ok(Line::new(StairOn::new(Stair::new(2, 3000)?, below)))
}

// The three side by side.
pub(super) fn hang() -> Result<Tower, Refusal>
    ensures { told_by tower_means result ≡ Ok tower }
{
    let great = great_bell()?;
    let small = chime()?;
    let old = old_bell()?;
    Ok(SideBySide::new(great, SideBySide::new(small, old)))
}
