// An input that is read part by part. The words of specs/ that speak of it import this struct.
ghost use Rattle.std.specs.Prelude.{◌≡◌};
ghost use Rattle.texts.specs.Records.{feeds};

pub mod parts;

// The bytes so far, and how many line ends they have.
#[derive(Drop)]
pub struct Input {
    bytes: Vec<u8>,
    ends: usize,
    ghost counted: { ends ≡ feeds bytes.items },
}
