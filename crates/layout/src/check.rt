// Check: the table checks as a call.
ghost use Rattle.table.specs.Answers.{Told};
ghost use Rattle.layout.specs.Stretch.{check_of};

use entries::check;
use table::answers::Answer;

// A yes, or a refusal.
pub fn check(table: &[u64]) -> Answer
    ensures { Told (check_of table.now) table.now result }
{
    match check::check_table(table) {
        Err(refusal) => Answer::Refused(refusal),
        Ok(_) => Answer::Done {
            value: 0,
            stores: 0,
        },
    }
}
