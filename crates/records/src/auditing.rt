// The audit: which record of a bell is the first that its rule refuses?
ghost use Rattle.std.specs.Prelude.{◌≡◌};
ghost use Rattle.records.specs.Audits.{ticks_of, Audited};

use crate::record::Record;
use rules::Rule;

// Charges one bell's records to the rule as they come. Where the rule turns one away, the answer says which of that
// bell's records it was, the first being 1, and the rule has been charged with those in front of it.
pub fn audit<T: Record, R: Rule>(records: &[T], bell: u64, rule: &mut R) -> Option<usize>
    ensures audited { Audited (R.Rule.meaning rule.old) (ticks_of T.Record.rings T.Record.falls bell records.now) result (R.Rule.meaning rule.new) }
    ensures reach { R.Rule.reaches rule.new ≡ R.Rule.reaches rule.old }
{
    let mut place = 0;
    for (i, record) in records.iter().enumerate() {
        if record.bell() == bell {
            prove!(place <= i);
            place += 1;
            if rule.strike(record.tick()).is_err() {
                return Some(place);
            }
        }
    }
    None
}
