//! Parts of the keys.
ghost use Rattle.std.specs.Prelude.{◌≡◌, ◌↔◌, ◌<◌, ◌*◌, ◌%◌, IfSome, IsSome};

/// One of some parts of the keys. A key's part goes by a fixed hash, the same on all machines, so whoever chooses keys can fill one
/// part more than the others.
#[derive(Clone, Copy)]
pub struct Part {
    index: u64,
    of: u64,
    ghost some: { 0 < of },
}

impl Part {
    /// The part of that number, from 0 on, of so many.
    pub fn new(index: u64, of: u64) -> Option<Part>
        ensures part { IfSome result (λ p. p.index ≡ index) }
        ensures of { IfSome result (λ p. p.of ≡ of) }
        ensures variant { IsSome result ↔ (index < of) }
    {
        if index < of {
            return Some(Part { index, of });
        }
        None
    }

    /// Which part it is.
    pub fn index(&self) -> u64
        ensures { result ≡ self.now.index }
    {
        self.index
    }

    /// Of how many parts it is one.
    pub fn of(&self) -> u64
        ensures value { result ≡ self.now.of }
        ensures some { 0 < result }
    {
        self.of
    }

    /// What one of so many equal shares is of a whole, where there are such.
    pub fn share(&self, whole: u64) -> Option<u64>
        ensures value { IfSome result (λ s. s * self.now.of ≡ whole) }
        ensures variant { IsSome result ↔ (whole % self.now.of ≡ 0) }
    {
        if whole % self.of == 0 {
            return Some(whole / self.of);
        }
        None
    }
}
