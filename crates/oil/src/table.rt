// The table of the names that are declared, in the caller's memory.
ghost use Rattle.std.specs.Prelude.{◌≡◌, ◌≤◌, length, replicate};
ghost use Rattle.std.specs.Str.{bytes_eq};
ghost use Rattle.oil.specs.Table.{key_of, blank, meant, find, known_by};

use grammar::item::Kind;

// A name, filled up with zeros to the fixed width of the caller's table, and what it stands for: the kind of an object and its number, or no kind where the
// record is empty. The number stands beside the kind and not in it: a record is the caller's memory with public fields, and
// a number in a record that holds nothing may come from there.
#[derive(Clone, Copy, PartialEq, Debug)]
pub struct NameRecord {
    pub name: [u8; 32],
    pub holds: Option<Kind>,
    pub number: u8,
}

// What a name stands for: an object of this kind, and its number if it is a resource or an event, as in its record.
#[derive(Clone, Copy, PartialEq, Debug)]
pub(crate) struct Known {
    pub kind: Kind,
    pub number: u8,
}

impl NameRecord {
    // An empty record. No derived `Default`: it was tried, and that it gives this record was not proved.
    pub fn empty() -> NameRecord
        ensures { result ≡ blank }
    {
        NameRecord {
            name: [0; 32],
            holds: None,
            number: 0,
        }
    }

    // What the name of the record stands for: nothing where the record is empty.
    fn known(self) -> Option<Known>
        ensures { result ≡ meant self.holds self.number }
    {
        self.holds.map(|kind| Known {
            kind,
            number: self.number,
        })
    }
}

// The name filled up with zeros.
pub(crate) fn key(name: &[u8]) -> [u8; 32]
    requires { length name.now ≤ 32 }
    ensures { result ≡ key_of name.now }
{
    let mut all = [0; 32];
    all[..name.len()].copy_from_slice(name);
    all
}

// What the name with this key stands for, if it is declared. A function of its own that goes over copies of the records:
// LLVM then makes the comparison of two names part of the loop, and leaves it a call otherwise.
#[inline(never)]
pub(crate) fn look_up(names: &[NameRecord], key: [u8; 32]) -> Option<Known>
    ensures { result ≡ known_by (find names.now key) }
{
    names
        .iter()
        .copied()
        .find(|record| record.name == key)
        .and_then(NameRecord::known)
}
