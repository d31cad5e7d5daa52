// Fields of a line that are all numbers: what stands behind the name, for everyone who reads tab fields.
// Just so many, each a plain decimal, and nothing more.
#![tactic(auto)]

ghost use Rattle.std.specs.Prelude.{◌≤◌, length};
ghost use Rattle.text.specs.Cut.{fields_after};
ghost use Rattle.fields.specs.Fields.{NumbersRead};

use text::number_from;

// Whether as many fields stand behind a place as numbers are lent, each a number; they are then laid from the front.
pub fn read_numbers(line: &[u8], from: usize, values: &mut [u64]) -> bool
    requires { from ≤ length line.now }
    ensures { NumbersRead (length values.old) (fields_after from line.now) values.old values.new result }
{
    let mut at = from;
    for value in values.iter_mut() {
        if line.len() <= at {
            return false;
        }
        let Some(field) = number_from(line, at + 1) else {
            return false;
        };
        *value = field.value;
        at = field.end;
    }
    line.len() <= at
}
