// The line that tells of a call: six fields between commas, and CR LF.
ghost use Rattle.std.specs.Prelude.{◌≡◌, ◌≤◌, ◌++◌, decimal};
ghost use Rattle.texts.specs.Fronts.{Puts, hex};
ghost use Rattle.texts.specs.Outputs.{Appended};
ghost use Rattle.texts.specs.Lines.{field, optional, flag, line_end, line};

use crate::fronts::Front;
use crate::outcomes::Report;
use std::alloc::AllocError;

// Three of the four put a comma and then what stands before it: a closure for that would have to say how much room it takes.
impl Front {
    // Puts a number and its comma before the text.
    pub(crate) fn put_number(&mut self, n: u64)
        requires { 21 ≤ self.old.start }
        ensures { Puts 21 (field (decimal n)) self.old self.new }
    {
        self.put(b',');
        self.put_decimal(n);
    }

    // Puts a number, where there is one, before the text.
    pub(crate) fn put_some(&mut self, n: Option<u8>)
        requires { 20 ≤ self.old.start }
        ensures { Puts 20 (λ text. optional n ++ text) self.old self.new }
    {
        if let Some(x) = n {
            self.put_decimal(u64::from(x));
        }
    }

    // Puts a number, where there is one, and its comma before the text.
    pub(crate) fn put_optional(&mut self, n: Option<u8>)
        requires { 21 ≤ self.old.start }
        ensures { Puts 21 (field (optional n)) self.old self.new }
    {
        self.put(b',');
        self.put_some(n);
    }

    // Puts a task vector and its comma before the text.
    pub(crate) fn put_vector(&mut self, v: u64)
        requires { 17 ≤ self.old.start }
        ensures { Puts 17 (field (hex 16 v)) self.old self.new }
    {
        self.put(b',');
        self.put_hex(v);
    }

    // Puts the last field, which is a mark or empty, and the line end before the text.
    fn put_mark(&mut self, mark: Option<bool>)
        requires { 3 ≤ self.old.start }
        ensures { Puts 3 (λ text. (flag mark ++ line_end) ++ text) self.old self.new }
    {
        self.put_all(b"\r\n");
        if let Some(holds) = mark {
            self.put(b'0' + u8::from(holds));
        }
    }
}

// Adds the line of a call to the output, or nothing.
pub fn push_line(out: &mut Vec<u8>, number: u32, report: &Report) -> Result<(), AllocError>
    ensures { Appended out.old (line number report.now) result out.new }
{
    let mut text = Front::empty();
    text.put_mark(report.mark);
    text.put_optional(report.ceiling);
    text.put_vector(report.waiting);
    text.put_optional(report.running);
    text.put_number(u64::from(report.outcome.number()));
    text.put_number(u64::from(number));
    text.add_to(out)
}
