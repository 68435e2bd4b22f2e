//! Orders in which items are tried.

ghost use Rattle.std.specs.Prelude.{◌≡◌, ◌<◌, length, slice_index};
ghost use Rattle.needed_items.specs.InTurn.{items_in};

/// In which order items are tried.
#[derive(Clone, Copy)]
pub enum Order<'a> {
    /// All below a count, from the last to the first.
    Falling(usize),
    /// Those of a list.
    Listed(&'a [u8]),
}

impl<'a> Order<'a> {
    /// How many items are tried.
    #[tactic(auto, using(crate::proofs::InTurn::length_falling))]
    pub(crate) fn len(&self) -> usize
        ensures { result ≡ length (items_in self.now) }
    {
        match self {
            Order::Falling(count) => *count,
            Order::Listed(items) => items.len(),
        }
    }

    /// The item that is tried at a place.
    #[tactic(auto, using(crate::proofs::InTurn::length_falling, crate::proofs::InTurn::falling_at))]
    pub(crate) fn item(&self, place: usize) -> usize
        requires { place < length (items_in self.now) }
        ensures { result ≡ slice_index (items_in self.now) place }
    {
        match self {
            Order::Falling(count) => *count - 1 - place,
            Order::Listed(items) => items[place] as usize,
        }
    }
}
