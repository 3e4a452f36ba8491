// How an answer is handed out: its number is the result, value and count of stores go where the caller says.
ghost use Rattle.table.specs.Answers.{numbers_of, malformed_numbers};
ghost use Rattle.linkspan.specs.Report.{HandedOut};

use table::answers;
use table::answers::{Answer, Numbers};

// The answer of a call.
pub(crate) fn report(answer: Answer, value: &mut u64, stores: &mut u64) -> u64
    ensures { HandedOut (numbers_of answer) value.new stores.new result }
{
    let numbers = Numbers::from(answer);
    *value = numbers.value;
    *stores = numbers.stores;
    numbers.answer
}

// 18: a number that stands for no argument of the call.
pub(crate) fn malformed(value: &mut u64, stores: &mut u64) -> u64
    ensures { HandedOut malformed_numbers value.new stores.new result }
{
    *value = 0;
    *stores = 0;
    answers::MALFORMED
}
