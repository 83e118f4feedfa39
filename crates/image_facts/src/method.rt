//! A method that has code, and where it is found.
ghost use Rattle.std.specs.Prelude.{◌≡◌, ◌<◌, ◌^◌, ◌↔◌, ℕ, Some, length, slice_get, IsSomeAnd};
ghost use Rattle.std.specs.List.Sorted.{IsStrictlyIncreasing};
ghost use Rattle.image_facts.specs.Methods.{places};

/// A method that has code.
#[derive(Clone, Copy)]
pub struct CodedMethod<'a> {
    /// The place of its record in the image.
    pub place: u32,
    /// How many words its local variables take.
    pub max_locals: u16,
    /// Its code.
    pub code: &'a [u8],
}

/// The number of the method whose record lies at a place, among methods whose records lie behind one another.
pub fn number_at(methods: &[CodedMethod<'_>], place: u32) -> Option<u32>
    requires rising { IsStrictlyIncreasing (places methods.now) }
    requires few { length methods.now < 2 ^ 32 }
    ensures { (m : ℕ) → (result ≡ Some m) ↔ IsSomeAnd (slice_get methods.now m) (λ e. e.place ≡ place) }
{
    match methods.binary_search_by_key(&place, |method| method.place) {
        Ok(number) => Some(number as u32),
        Err(_) => None,
    }
}
