// A list of slots in an array of fixed size.
ghost use Rattle.std.specs.Prelude.{◌≡◌, length};
ghost use Rattle.arena.specs.Support.Lists.{listed, added, none_listed};

// Slots listed: the first `count` items.
// Kept: an array with a count, since the library has no heap.
#[derive(Clone, Copy)]
pub struct Listed<const N: usize> {
    pub items: [u32; N],
    pub count: usize,
}

impl<const N: usize> Listed<N> {
    // No slots.
    #[tactic(auto, unfolding(crate::specs::Support::Lists::none_listed))]
    pub fn new() -> Self
        ensures { result ≡ none_listed }
    {
        Listed {
            items: [0; N],
            count: 0,
        }
    }

    // One slot more behind the others, where there is room.
    #[tactic(auto, unfolding(crate::specs::Support::Lists::added))]
    pub fn push(&mut self, i: u32)
        ensures { self.new ≡ added self.old i }
    {
        if self.count < N {
            self.items[self.count] = i;
            self.count += 1;
        }
    }

    // The slots listed.
    #[tactic(auto, unfolding(crate::specs::Support::Lists::listed))]
    pub fn as_slice(&self) -> &[u32]
        ensures { result.now ≡ listed self.now }
    {
        &self.items[..self.count.min(N)]
    }
}
