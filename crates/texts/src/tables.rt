// The two tables that tell of calls: the lines of a run, and the blocking sheet. Each begins with the names of its
// fields, and tells of a refused plan by one line.
ghost use Rattle.std.specs.Prelude.{◌≡◌, ◌≤◌, length, codes, decimal};
ghost use Rattle.texts.specs.Fronts.{text_of};
ghost use Rattle.texts.specs.Lines.{field};
ghost use Rattle.texts.specs.Outputs.{Appended};
ghost use Rattle.texts.specs.Tables.{table_header, table_fault};

use crate::fronts::Front;
use std::alloc::AllocError;

#[derive(Clone, Copy, PartialEq, Debug)]
pub enum Table {
    Calls,
    Sheet,
}

// The line of a refused plan: the number of the fault, its place in the text, and the rest of the line.
fn fault_text(number: u8, place: usize, rest: &[u8]) -> Front
    requires { length rest.now ≤ 64 }
    ensures { text_of result ≡ field (codes "plan") (field (decimal number) (field (decimal place) rest.now)) }
{
    let mut text = Front::empty();
    text.put_all(rest);
    // `usize` has no `From` into 64 bits.
    text.put_number(place as u64);
    text.put_number(u64::from(number));
    text.put_all(b"plan,");
    text
}

impl Table {
    // Adds the header of the table to the output, or nothing.
    pub fn push_header(self, out: &mut Vec<u8>) -> Result<(), AllocError>
        ensures { Appended out.old (table_header self) result out.new }
    {
        let header: &[u8] = match self {
            Table::Calls => b"call,result,running,waiting,ceiling,mark\r\n",
            Table::Sheet => b"low,high,resource,call,result,running,waiting,ceiling\r\n",
        };
        out.extend_from_slice(header)
    }

    // Adds the line of a refused plan to the output, or nothing: the number of the fault, and its place in the text.
    pub fn push_fault(self, out: &mut Vec<u8>, number: u8, place: usize) -> Result<(), AllocError>
        ensures { Appended out.old (table_fault self number place) result out.new }
    {
        let rest: &[u8] = match self {
            Table::Calls => b",,\r\n",
            Table::Sheet => b",,,,\r\n",
        };
        fault_text(number, place, rest).add_to(out)
    }
}
