// The rules of this program, and the due ticks of a burst at 0 under each.
ghost use Rattle.std.specs.Prelude.{◌≡◌, [], ◌∷◌, Ok};
ghost use Rattle.limits.specs.Limits.{stair, table};
ghost use Rattle.limits.specs.Refusals.{told, told_by};
ghost use Rattle.rules.specs.Rules.{pile};
ghost use Rattle.curves.specs.Dues.{dues_answer};
ghost use Rattle.curves.specs.Laid.{one_stair_means, two_stairs_means, three_stairs_means, one_table_means};

use limits::{JitteredOrder, Refusal, Stair, Table};
use rules::{OpenRule, Rule, StairOn, TableOn, burst};

pub(super) type OneStair = StairOn<OpenRule>;

pub(super) type TwoStairs = StairOn<OneStair>;

pub(super) type ThreeStairs = StairOn<TwoStairs>;

pub(super) type OneTable = TableOn<OpenRule>;

// When a burst of N strokes, all asked for at one tick, is due under a rule. Where there are fewer, the rest are 0.
fn dues<R: Rule + Drop, const N: usize>(mut rule: R, asked: u64) -> Result<[u64; N], Refusal>
    ensures { told result ≡ dues_answer (R.Rule.meaning rule) asked N }
{
    let mut due = [0; N];
    burst(&mut rule, asked, &mut due)?;
    Ok(due)
}

// The stairs (1, 1), (3, 4) and (5, 8).
pub(super) fn three_stairs() -> Result<ThreeStairs, Refusal>
    ensures { told_by three_stairs_means result ≡ Ok (pile (stair 1 1 ∷ stair 3 4 ∷ stair 5 8 ∷ [])) }
{
    let slow = StairOn::new(Stair::new(5, 8)?, OpenRule::new());
    let middle = StairOn::new(Stair::new(3, 4)?, slow);
    Ok(StairOn::new(Stair::new(1, 1)?, middle))
}

// When nine strokes that are asked for at 0 are due under them.
pub(super) fn nine_dues() -> Result<[u64; 9], Refusal>
    ensures { told result ≡ Ok (0 ∷ 1 ∷ 2 ∷ 4 ∷ 8 ∷ 12 ∷ 16 ∷ 24 ∷ 32 ∷ []) }
{
    dues(three_stairs()?, 0)
}

// The table 10, 30.
pub(super) fn two_distances() -> Result<OneTable, Refusal>
    ensures { told_by one_table_means result ≡ Ok (pile (table (10 ∷ 30 ∷ []) ∷ [])) }
{
    let mut table = Table::new();
    table.push(10)?;
    table.push(30)?;
    Ok(TableOn::new(table, OpenRule::new()))
}

// When five strokes that are asked for at 0 are due under it.
pub(super) fn five_dues() -> Result<[u64; 5], Refusal>
    ensures { told result ≡ Ok (0 ∷ 10 ∷ 30 ∷ 40 ∷ 60 ∷ []) }
{
    dues(two_distances()?, 0)
}

// The two stairs of a chime drum with a stroke every 100 ticks, each up to 300 late, at least 20 apart.
pub(super) fn chime_drum() -> Result<TwoStairs, Refusal>
    ensures { told_by two_stairs_means result ≡ Ok (pile (stair 1 20 ∷ stair 4 100 ∷ [])) }
{
    let order = JitteredOrder::new(100, 300, 20)?;
    let first = StairOn::new(order.first(), OpenRule::new());
    Ok(StairOn::new(order.second(), first))
}

// When ten strokes that are asked for at 0 are due under them.
pub(super) fn ten_dues() -> Result<[u64; 10], Refusal>
    ensures { told result ≡ Ok (0 ∷ 20 ∷ 40 ∷ 60 ∷ 100 ∷ 200 ∷ 300 ∷ 400 ∷ 500 ∷ 600 ∷ []) }
{
    dues(chime_drum()?, 0)
}
