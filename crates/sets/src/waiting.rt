// What every waiting set does.
ghost use Rattle.std.specs.Prelude.{◌≡◌, ℕ, ◌<◌, ◌≤◌, Bool, true, false, if◌then◌else◌, nat_lt};
ghost use Rattle.vectors.specs.Vectors.{with, without, highest as greatest};

// A size of at most 64, and a set of numbers below it.
pub trait WaitingSet {
    // The size.
    ghost room: { Self → ℕ };

    // The members.
    ghost holds: { Self → ℕ → Bool };

    // Tells the size, which never changes.
    fn size(&self) -> u8
        ensures { result ≡ room self.now };

    // Says yes exactly for members.
    fn has(&self, t: u8) -> bool
        ensures { result ≡ holds self.now t };

    // Adds t and says yes when t is below the size; otherwise says no and changes nothing.
    fn put(&mut self, t: u8) -> bool
        ensures said { result ≡ nat_lt t (room self.old) }
        ensures kept { room self.new ≡ room self.old }
        ensures after { holds self.new ≡ (if nat_lt t (room self.old) then with t (holds self.old) else holds self.old) };

    // Removes t, if it is there, and says yes when t is below the size; otherwise says no.
    fn take(&mut self, t: u8) -> bool
        ensures said { result ≡ nat_lt t (room self.old) }
        ensures kept { room self.new ≡ room self.old }
        ensures after { holds self.new ≡ without t (holds self.old) };

    // Tells the greatest member, or none.
    fn highest(&self) -> Option<u8>
        ensures { result ≡ greatest (room self.now) (holds self.now) };

    // Law: the size is at most 64.
    ghost small: { (s : Self) → room s ≤ 64 };

    // Law: every member is below the size.
    ghost inside: { (s : Self) (t : ℕ) → holds s t ≡ true → t < room s };
}
