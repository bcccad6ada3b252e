// Places of a text as people count them.
ghost use Rattle.std.specs.Prelude.{◌≡◌, ◌+◌, count_by, reverse};
ghost use Rattle.std.specs.List.{prefix_len};
ghost use Rattle.oil.specs.Positions.{is_feed, in_line, position};

// A line and a column, both counted from 1.
#[derive(Clone, Copy, PartialEq, Debug)]
pub struct Position {
    pub line: usize,
    pub column: usize,
}

// The line right behind these bytes.
fn line(front: &[u8]) -> usize
    ensures { result ≡ 1 + count_by is_feed front.now }
{
    1 + front.iter().filter(|b| **b == b'\n').count()
}

// The column right behind these bytes.
fn column(front: &[u8]) -> usize
    ensures { result ≡ 1 + prefix_len in_line (reverse front.now) }
{
    1 + front.iter().rev().take_while(|b| **b != b'\n').count()
}

// The line and the column of a place in a text; a place beyond the end counts as the end.
pub fn locate(text: &[u8], place: usize) -> Position
    ensures { result ≡ position text.now place }
{
    let front = text.get(..place).unwrap_or(text);
    Position {
        line: line(front),
        column: column(front),
    }
}
